//! The items of a module, taken out of it and put back.
ghost use Rattle.std.specs.Prelude.{◌≡◌, []};
ghost use Rattle.ecma_lower.specs.Items.{items_of, with_items};

use ecma_tree::{Module, Nodes};
use std::alloc::Global;
use std::mem;

/// Takes the items out of a module, which has none then.
#[tactic(auto, using(crate::proofs::Putting::putting))]
pub(crate) fn take_items(alloc: Global, tree: &mut Module) -> Nodes
    ensures items { result ≡ items_of tree.old }
    ensures tree { tree.new ≡ with_items [] tree.old }
{
    if tree.children.is_empty() {
        return Nodes::new(alloc);
    }
    let list = tree.children.get_mut(0);
    mem::replace(&mut list.children, Nodes::new(alloc))
}

/// Gives a module these items.
#[tactic(auto, using(crate::proofs::Putting::putting))]
pub(crate) fn put_items(tree: &mut Module, items: Nodes)
    ensures { tree.new ≡ with_items items tree.old }
{
    if tree.children.is_empty() {
        return;
    }
    let list = tree.children.get_mut(0);
    list.children = items;
}
