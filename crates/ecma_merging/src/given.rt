//! The members that the enums of a list give.
ghost use Rattle.std.specs.Prelude.{◌≡◌, ◌++◌, [], ◌∷◌, IfOk, OnOk};
ghost use Rattle.std.specs.List.{flat_map};
ghost use Rattle.ecma_tree.specs.declared.node.Node.{out-Node};
ghost use Rattle.ecma_merging.specs.Given.{given_at, given_by, given_by_key, given_by_member, given_in, is_staying_enum, members_of};

use crate::items::{declaration_of, name_in};
use ecma_tree::{JsWord, Kind, NoMemory, Node};
use item_list::ItemList;
use std::alloc::Global;

/// A member of an enum.
#[derive(Drop)]
pub(crate) struct Given {
    /// The name of the enum.
    pub(crate) of: JsWord,
    pub(crate) name: JsWord,
    /// The byte offset of its name, from 0 on.
    pub(crate) at: u32,
}

fn push_given(
    of: &JsWord,
    name: &JsWord,
    at: u32,
    given: &mut ItemList<Given>,
) -> Result<(), NoMemory>
    ensures { OnOk result (given.new ≡ given.old ++ record { of = of.now; name = name.now; at = at } ∷ []) }
{
    given.push(Given {
        of: of.clone()?,
        name: name.clone()?,
        at,
    })?;
    Ok(())
}

#[tactic(auto, unfolding(crate::specs::Given::key_text))]
fn push_given_by_key(of: &JsWord, key: &Node, given: &mut ItemList<Given>) -> Result<(), NoMemory>
    ensures { OnOk result (given.new ≡ given.old ++ given_by_key of.now key.now) }
{
    match &key.kind {
        Kind::Ident { sym, .. } => push_given(of, sym, key.span.lo, given),
        Kind::Str { value, .. } => push_given(of, value, key.span.lo, given),
        _ => Ok(()),
    }
}

fn push_given_by_member(
    of: &JsWord,
    member: &Node,
    given: &mut ItemList<Given>,
) -> Result<(), NoMemory>
    ensures { OnOk result (given.new ≡ given.old ++ given_by_member of.now member.now) }
{
    match member.children.get(0) {
        Some(key) => push_given_by_key(of, key, given),
        None => Ok(()),
    }
}

#[tactic(auto, using(crate::proofs::Among::giving))]
fn push_given_by_members(
    of: &JsWord,
    members: &[Node],
    given: &mut ItemList<Given>,
) -> Result<(), NoMemory>
    ensures { OnOk result (given.new ≡ given.old ++ flat_map (given_by_member of.now) members.now) }
{
    for member in members {
        push_given_by_member(of, member, given)?;
    }
    Ok(())
}

#[tactic(auto, unfolding(crate::specs::Given::is_staying_enum))]
fn is_staying_enum(kind: &Kind) -> bool
    ensures { result ≡ is_staying_enum kind.now }
{
    match kind {
        Kind::TsEnumDecl { declare, .. } => !*declare,
        _ => false,
    }
}

fn push_given_by(node: &Node, given: &mut ItemList<Given>) -> Result<(), NoMemory>
    ensures { OnOk result (given.new ≡ given.old ++ given_by node.now) }
{
    if !is_staying_enum(&node.kind) {
        return Ok(());
    }
    let Some(name) = name_in(node)? else {
        return Ok(());
    };
    match node.children.get(1) {
        Some(list) => push_given_by_members(&name.sym, list.children.as_slice(), given),
        None => Ok(()),
    }
}

fn push_given_at(item: &Node, given: &mut ItemList<Given>) -> Result<(), NoMemory>
    ensures { OnOk result (given.new ≡ given.old ++ given_at item.now) }
{
    match declaration_of(item) {
        Some(node) => push_given_by(node, given),
        None => Ok(()),
    }
}

/// The members of the enums of a list that are not ambient, in the order of the text.
#[tactic(auto, using(crate::proofs::Among::giving))]
pub(crate) fn given_in(alloc: Global, items: &[Node]) -> Result<ItemList<Given>, NoMemory>
    ensures { IfOk result (λ given. given ≡ given_in items.now) }
{
    let mut given = ItemList::new(alloc);
    for item in items {
        push_given_at(item, &mut given)?;
    }
    Ok(given)
}
