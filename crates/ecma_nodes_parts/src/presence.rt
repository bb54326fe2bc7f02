//! Whether a node is there.
ghost use Rattle.std.specs.Prelude.{◌≡◌};
ghost use Rattle.ecma_grammar.specs.trees.Parts.{is_absent, is_present};

use ecma_tree::{Kind, Node};

/// Whether a node stands for nothing.
pub fn is_absent(node: &Node) -> bool
    ensures { result ≡ is_absent node.now }
{
    matches!(node.kind, Kind::Absent)
}

/// Whether a node stands for something.
pub fn is_present(node: &Node) -> bool
    ensures { result ≡ is_present node.now }
{
    !is_absent(node)
}

/// Lets go of a node that says whether something was read, or for which another stands.
pub fn let_go(node: Node) {
    let _ = node;
}
