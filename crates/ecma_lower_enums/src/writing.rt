//! Enums and reads of their members are written where they stand.
ghost use Rattle.std.specs.Prelude.{◌≡◌, ◌∷◌, [], IfOk, OnOk, map};
ghost use Rattle.ecma_rewriting.specs.Rewriting.{only};
ghost use Rattle.ecma_lower_enums.specs.Writes.{brings-on, leaves-left, seats-told, stands-still, writes-told};
ghost use Rattle.ecma_lower_enums.specs.Forms.{member_in, part_statements};
ghost use Rattle.ecma_lower_enums.specs.Places.{is_item};
ghost use Rattle.ecma_lower_enums.specs.Steps.{around_behind, around_below, brought, place_below, told_at, written_as};
ghost use Rattle.ecma_lower_enums.specs.Writing.{answered, second, with_enums_written, writing};

use crate::answer::{Answer, answered};
use crate::around::{around_in, copy_around, push_part_ids};
use crate::form::{Told, tell};
use crate::forms::{member_statements, part_statements};
use crate::known::{Around, KnownEnums, Part, nowhere, skips};
use crate::parts::{first_list, only, only_each, second, wrapped};
use crate::place::{Place, is_item, is_left, place_in};
use ecma_rewriter::{Rewriter, rewrite};
use ecma_strip::stays;
use ecma_tree::{Id, JsWord, Kind, Module, NoMemory, Node, Nodes, Span};
use item_list::ItemList;
use std::alloc::Global;
use std::mem;

/// The statements that a part of an enum becomes.
fn write_part(
    alloc: Global,
    enums: &KnownEnums,
    around: &Around,
    span: Span,
    part: Part,
    lists: ItemList<Nodes>,
) -> Result<Nodes, NoMemory>
    ensures { IfOk result (λ nodes. nodes ≡ part_statements enums.now span part around.now (second lists)) }
{
    let list = second(alloc, lists);
    part_statements(alloc, enums, span, &part, around, list)
}

/// The statements that a member of an enum becomes.
fn write_member(
    alloc: Global,
    enums: &KnownEnums,
    skips: bool,
    around: &Around,
    span: Span,
    name: JsWord,
    lists: ItemList<Nodes>,
) -> Result<Nodes, NoMemory>
    ensures { IfOk result (λ nodes. nodes ≡ member_in enums.now skips around.now.name span name (second lists)) }
{
    let init = second(alloc, lists);
    member_statements(alloc, enums, skips, &around.name, span, name.as_str(), init)
}

/// One node for one.
fn write_one(
    alloc: Global,
    answer: Option<Answer>,
    span: Span,
    kind: Kind,
    lists: ItemList<Nodes>,
) -> Result<Nodes, NoMemory>
    ensures { IfOk result (λ nodes. nodes ≡ answered answer span kind (map only lists) ∷ []) }
{
    let children = only_each(alloc, lists)?;
    let node = answered(alloc, answer, span, kind, children)?;
    Ok(Nodes::from_array(alloc, [node])?)
}

/// What goes from a list with the types stays as it is.
impl Rewriter for KnownEnums {
    type Place = Place;

    type Around = Around;

    type Brought = ItemList<Id>;

    type Form = Told;

    ghost rewriting = { writing };

    ghost moves = { λ enums. is_item };

    ghost brings = { λ enums place. brought };

    ghost with_brought = { λ enums. around_behind };

    ghost inside = { λ enums. around_below };

    ghost form = { λ enums s. told_at enums s.place };

    ghost child_place = { place_below };

    ghost written = { written_as };

    fn keeps(&self, item: &Node) -> bool {
        stays(item)
    }

    fn unkept(
        &self,
        alloc: Global,
        _place: Place,
        _around: &Around,
        item: Node,
    ) -> Result<Nodes, NoMemory> {
        Ok(Nodes::from_array(alloc, [item])?)
    }

    fn own_around(
        &self,
        alloc: Global,
        place: Place,
        around: &Around,
    ) -> Result<Option<Around>, NoMemory> {
        if is_item(place) {
            return Ok(Some(copy_around(alloc, around)?));
        }
        Ok(None)
    }

    fn brings(&self, alloc: Global, _place: Place, item: &Node) -> Result<ItemList<Id>, NoMemory> {
        let mut ids = ItemList::new(alloc);
        push_part_ids(&mut ids, item)?;
        Ok(ids)
    }

    fn bring(&self, around: &mut Around, brought: ItemList<Id>) -> Result<(), NoMemory> {
        around.before.append(brought)?;
        Ok(())
    }

    fn inside(
        &self,
        alloc: Global,
        place: Place,
        around: &Around,
        node: &Node,
    ) -> Result<Option<Around>, NoMemory> {
        around_in(alloc, place, around, node)
    }

    fn form(
        &self,
        alloc: Global,
        place: Place,
        _around: &Around,
        node: &Node,
    ) -> Result<Option<Told>, NoMemory> {
        if is_left(place, &node.kind) {
            return Ok(None);
        }
        Ok(Some(tell(alloc, self, place, node)?))
    }

    fn child_place(&self, by: &Told, place: Place, kind: &Kind, index: usize) -> Place {
        match by {
            Told::Part(part) => {
                if index == 1 {
                    Place::Member {
                        skips: skips(self, part),
                    }
                } else {
                    Place::Other
                }
            }
            _ => place_in(self.writes, place, kind, index),
        }
    }

    fn write(
        &self,
        alloc: Global,
        by: Told,
        _place: Place,
        around: &Around,
        span: Span,
        kind: Kind,
        lists: ItemList<Nodes>,
    ) -> Result<Nodes, NoMemory> {
        match by {
            Told::Wrapped => wrapped(alloc, span, kind, lists),
            Told::Part(part) => write_part(alloc, self, around, span, part, lists),
            Told::Export => Ok(first_list(alloc, lists)),
            Told::Member { skips, name } => {
                write_member(alloc, self, skips, around, span, name, lists)
            }
            Told::One(answer) => write_one(alloc, answer, span, kind, lists),
        }
    }

    ghost stands_still = { stands-still };

    ghost goes_on = { brings-on };

    ghost leaves = { leaves-left };

    ghost writes = { writes-told };

    ghost seats = { seats-told };
}

/// Writes the enums of a tree, and reads of their members.
pub(crate) fn write_enums(
    alloc: Global,
    enums: &KnownEnums,
    tree: &mut Module,
) -> Result<(), NoMemory>
    ensures { OnOk result (tree.new ≡ with_enums_written enums.now tree.old) }
{
    let old = mem::replace(tree, Node::absent(alloc));
    let nodes = rewrite(alloc, enums, Place::Other, &nowhere(alloc), old)?;
    *tree = only(alloc, nodes);
    Ok(())
}
