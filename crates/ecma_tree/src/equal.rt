//! Whether trees are equal but for spans.
ghost use Rattle.std.specs.Prelude.{◌≡◌, ◌↔◌, IsTrue, map};
ghost use Rattle.ecma_tree.specs.Spans.{without_spans};

use crate::node::Node;
use ecma_kind::same_kind;

/// Whether the two trees are equal but for the spans of their nodes: the same kinds with all their data, in the same shape.
pub fn same_but_for_spans(node: &Node, other: &Node) -> bool
    ensures { IsTrue result ↔ (without_spans node.now ≡ without_spans other.now) }
{
    let count = node.children.len();
    if count != other.children.len() {
        return false;
    }
    if !same_kind(&node.kind, &other.kind) {
        return false;
    }
    for i in 0..count {
        if !same_but_for_spans(node.children.at(i), other.children.at(i)) {
            return false;
        }
    }
    true
}

/// Whether the two lists hold as many trees, each equal to the other's at its place but for spans.
pub(crate) fn all_same_but_for_spans(nodes: &[Node], others: &[Node]) -> bool
    ensures { IsTrue result ↔ (map without_spans nodes.now ≡ map without_spans others.now) }
{
    if nodes.len() != others.len() {
        return false;
    }
    for (node, other) in nodes.iter().zip(others) {
        if !same_but_for_spans(node, other) {
            return false;
        }
    }
    true
}
