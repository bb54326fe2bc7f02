//! A call for each declared name.
ghost use Rattle.std.specs.Prelude.{◌≡◌};
ghost use Rattle.std.specs.Fn.{CalledAt};
ghost use Rattle.std.specs.List.{FoldsTo};
ghost use Rattle.ecma_find.specs.declared.finder.Finder.TheVariants as which;
ghost use Rattle.ecma_find.specs.Finders.{rules_of};
ghost use Rattle.ecma_find.specs.Found.{found, taken_here, taken_within};
ghost use Rattle.ecma_find.specs.Names.{itself};
ghost use Rattle.ecma_tree.specs.declared.node.Node.{Node};

use crate::finder::{Finder, Place, is_listed, place_at, root_place};
use ecma_tree::{Node, NodeRef};
use ecma_walks::nodes;

/// Calls the operation on a node, if it is a declared name.
fn call_listed<F: FnMut(&Node)>(place: Place, node: &Node, op: &mut F)
    requires { F.IsAlwaysCallable op.old }
    ensures ran { FoldsTo (λ p x q. CalledAt F.FnMut p x tt q) op.old
        (taken_here Node itself (rules_of which.Bindings) place node.now) op.new }
    ensures again { F.IsAlwaysCallable op.new }
{
    if is_listed(Finder::Bindings, place, &node.kind) {
        op(node);
    }
}

/// Calls the operation on the declared names in a node, in the order of the text; a node that stands at no place is not entered.
fn call_in<F: FnMut(&Node)>(around: Option<Place>, node: &Node, op: &mut F)
    requires { F.IsAlwaysCallable op.old }
    ensures ran { FoldsTo (λ p x q. CalledAt F.FnMut p x tt q) op.old
        (taken_within Node itself (rules_of which.Bindings) around node.now) op.new }
    ensures again { F.IsAlwaysCallable op.new }
{
    let Some(place) = around else {
        return;
    };
    call_listed(place, node, op);
    for i in 0..node.children.len() {
        let below = place_at(Finder::Bindings, place, node, i);
        call_in(below, node.children.at(i), op);
    }
}

/// Calls the operation on the declared names of the part, in the order of the text, each call from the state that the last one left.
pub(crate) fn call_each<F: FnMut(&Node)>(part: NodeRef<'_>, op: &mut F)
    requires { F.IsAlwaysCallable op.old }
    ensures ran { FoldsTo (λ p x q. CalledAt F.FnMut p x tt q) op.old
        (found which.Bindings part.entry) op.new }
    ensures again { F.IsAlwaysCallable op.new }
{
    let place = root_place(part);
    for node in nodes(part) {
        call_in(Some(place), node, op);
    }
}

/// Calls the operation on exactly the declared names of the part (nodes of the kind
/// [`Kind::BindingIdent`](ecma_tree::Kind)), in the order of the text, each call from the state that the last one left.
/// Expressions are not entered, nor are types. It takes no memory.
pub fn for_each_binding_ident<F: FnMut(&Node) + Drop>(part: NodeRef<'_>, op: F)
    requires { F.IsAlwaysCallable op }
    ensures { (last : F) × FoldsTo (λ p x q. CalledAt F.FnMut p x tt q) op
        (found which.Bindings part.entry) last }
{
    let mut op = op;
    call_each(part, &mut op);
}
