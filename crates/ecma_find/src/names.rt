//! Names that are found in a part of a tree.
ghost use Rattle.std.specs.Prelude.{◌≡◌, ◌++◌, IfOk, OnOk};
ghost use Rattle.ecma_find.specs.declared.finder.Finder.TheVariants as which;
ghost use Rattle.ecma_kind.specs.declared.ident.Ident.{Ident};
ghost use Rattle.ecma_find.specs.Finders.{rules_of};
ghost use Rattle.ecma_find.specs.Found.{found_as, taken_here, taken_within};
ghost use Rattle.ecma_idents.specs.Identities.{plain_ident};
ghost use Rattle.ecma_find.specs.Names.{name_as};

use crate::finder::{Finder, Place, is_listed, place_at, root_place};
use ecma_idents::IdentLike;
use ecma_tree::{Ident, NoMemory, Node, NodeRef};
use ecma_walks::nodes;
use item_list::ItemList;
use std::alloc::Global;

/// Puts what stands for the identifier that a node is behind the others.
fn push_name<I: IdentLike + Drop>(
    alloc: Global,
    node: &Node,
    to: &mut ItemList<I>,
) -> Result<(), NoMemory>
    ensures { OnOk result (to.new ≡ to.old ++ name_as I I.of_ident node.now) }
{
    if let Some(ident) = node.to_ident()? {
        to.push(I::from_ident(alloc, &ident)?)?;
    }
    Ok(())
}

/// Puts what stands for a node behind the others, if the finder lists it.
fn push_listed<I: IdentLike + Drop>(
    alloc: Global,
    finder: Finder<'_>,
    place: Place,
    node: &Node,
    to: &mut ItemList<I>,
) -> Result<(), NoMemory>
    ensures { OnOk result (to.new ≡ to.old
        ++ taken_here I (name_as I I.of_ident) (rules_of finder.entry) place node.now) }
{
    if is_listed(finder, place, &node.kind) {
        push_name::<I>(alloc, node, to)?;
    }
    Ok(())
}

/// Puts what stands for the nodes that the finder lists behind the others; a node that stands at no place is not entered.
fn push_names_in<I: IdentLike + Drop>(
    alloc: Global,
    finder: Finder<'_>,
    around: Option<Place>,
    node: &Node,
    to: &mut ItemList<I>,
) -> Result<(), NoMemory>
    ensures { OnOk result (to.new ≡ to.old
        ++ taken_within I (name_as I I.of_ident) (rules_of finder.entry) around node.now) }
{
    let Some(place) = around else {
        return Ok(());
    };
    push_listed::<I>(alloc, finder, place, node, to)?;
    for i in 0..node.children.len() {
        let below = place_at(finder, place, node, i);
        push_names_in::<I>(alloc, finder, below, node.children.at(i), to)?;
    }
    Ok(())
}

/// Puts what stands for the identifiers that the finder lists behind the others, in the order of the text.
pub(crate) fn push_names<I: IdentLike + Drop>(
    alloc: Global,
    finder: Finder<'_>,
    part: NodeRef<'_>,
    to: &mut ItemList<I>,
) -> Result<(), NoMemory>
    ensures { OnOk result (to.new ≡ to.old
        ++ found_as I (name_as I I.of_ident) finder.entry part.entry) }
{
    let place = root_place(part);
    for node in nodes(part) {
        push_names_in::<I>(alloc, finder, Some(place), node, to)?;
    }
    Ok(())
}

/// The names that `var` declares and those of function declarations, in the order of the text, each as often as it
/// stands there. Functions, classes, arrow functions and expressions are not entered, nor are types. The only refusal
/// is want of memory.
pub fn extract_var_ids(alloc: Global, part: NodeRef<'_>) -> Result<ItemList<Ident>, NoMemory>
    ensures { IfOk result (λ ids. ids
        ≡ found_as Ident (name_as Ident plain_ident) which.Vars part.entry) }
{
    let mut ids = ItemList::new(alloc);
    push_names::<Ident>(alloc, Finder::Vars, part, &mut ids)?;
    Ok(ids)
}

/// What stands for the identifiers of the part, in the order of the text. Expressions and the keys of properties are
/// not entered, nor are types. The only refusal is want of memory.
pub fn find_pat_ids<I: IdentLike + Drop>(
    alloc: Global,
    part: NodeRef<'_>,
) -> Result<ItemList<I>, NoMemory>
    ensures { IfOk result (λ ids. ids
        ≡ found_as I (name_as I I.of_ident) which.Pattern part.entry) }
{
    let mut ids = ItemList::new(alloc);
    push_names::<I>(alloc, Finder::Pattern, part, &mut ids)?;
    Ok(ids)
}
