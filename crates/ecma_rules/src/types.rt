//! What types hold in a raw tree: the rules are asked of it, and then it goes.
ghost use Rattle.std.specs.Prelude.{◌≡◌, take};
ghost use Rattle.ecma_tree.specs.Nodes.{node_of};
ghost use Rattle.ecma_tree.specs.declared.node.Node.{out-Node};
ghost use Rattle.ecma_rules.specs.Baring.{bared, own_children};

use ecma_tree::{Kind, Node, Nodes};
use std::alloc::Global;
use std::mem;

/// Lets go of the children behind the first few.
fn keep_first(alloc: Global, node: &mut Node, count: usize)
    ensures { node.new ≡ node_of (out-Node node.old).span (out-Node node.old).kind (take count (out-Node node.old).children) }
{
    if node.children.len() <= count {
        return;
    }
    let mut children = mem::replace(&mut node.children, Nodes::new(alloc)).into_vec();
    children.truncate(count);
    node.children = Nodes::from_vec(children);
}

/// Lets go of the children of a node that are no children of its own.
fn drop_held(alloc: Global, node: &mut Node)
    ensures { node.new ≡ node_of (out-Node node.old).span (out-Node node.old).kind (own_children (out-Node node.old).kind (out-Node node.old).children) }
{
    match &node.kind {
        Kind::TsType
        | Kind::TsTypeParamDecl
        | Kind::TsTypeParamInstantiation
        | Kind::TsIndexSignature { .. } => keep_first(alloc, node, 0),
        Kind::TsInterfaceDecl { .. } | Kind::TsTypeAliasDecl { .. } => keep_first(alloc, node, 1),
        _ => {}
    }
}

/// Lets go of what the types of a raw tree hold.
pub fn bare_types(alloc: Global, tree: &mut Node)
    ensures { tree.new ≡ bared tree.old }
{
    drop_held(alloc, tree);
    let count = tree.children.len();
    for i in 0..count {
        bare_types(alloc, tree.children.get_mut(i));
    }
}
