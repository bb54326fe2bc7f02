//! From the tree of nodes to the forest, and back.
ghost use Rattle.std.specs.Prelude.{◌≡◌, ◌<◌, ◌++◌, ◌∷◌, [], IfOk, OnErr, OnOk, length};
ghost use Rattle.ecma_tree.specs.declared.node.Node.{Node};
ghost use Rattle.ecma_forest.specs.Slots.{Extends};
ghost use Rattle.ecma_forest.specs.Trees.{node};

use crate::forest::Forest;
use ecma_kind::copy_kind;
use ecma_tree::{NoMemory, Node, Nodes};
use std::alloc::Global;

/// The tree at a place as a node of its own.
#[tactic(auto, using(crate::proofs::Walking::walking))]
pub fn to_node(alloc: Global, forest: &Forest, at: u32) -> Result<Node, NoMemory>
    requires { at < length forest.now.below }
    ensures { IfOk result (λ tree. tree ≡ node forest.now at) }
{
    let mut children = Nodes::new(alloc);
    for i in 0..forest.count(at) {
        let child = forest.child(at, i);
        children.push(to_node(alloc, forest, child)?)?;
    }
    Ok(Node::new(forest.span(at), copy_kind(forest.kind(at))?, children))
}

/// Puts the tree of a node behind the roots. Without memory the roots are what they were.
#[tactic(auto, using(crate::proofs::Walking::walking))]
pub fn push_node(forest: &mut Forest, tree: &Node) -> Result<(), NoMemory>
    ensures more { Extends forest.old.below forest.new.below }
    ensures ok { OnOk result (forest.new.roots ≡ forest.old.roots ++ tree.now ∷ []) }
    ensures err { OnErr result (forest.new.roots ≡ forest.old.roots) }
{
    let start = forest.len();
    for child in tree.children.as_slice() {
        if let Err(error) = push_node(forest, child) {
            forest.cut(start);
            return Err(error);
        }
    }
    if let Err(error) = forest.wrap_like(tree.span, &tree.kind, start) {
        forest.cut(start);
        return Err(error);
    }
    Ok(())
}
