//! Whether an identifier of a given text stands in a tree.
ghost use Rattle.std.specs.Prelude.{◌≡◌};
ghost use Rattle.ecma_tree.specs.Finding.{is_ident, mentions};

use crate::node::Node;
use ecma_kind::Kind;

fn is_ident_of(kind: &Kind, sym: &str) -> bool
    ensures { result ≡ is_ident sym.now kind.now }
{
    match kind {
        Kind::Ident { sym: text, .. } => text.as_str() == sym,
        _ => false,
    }
}

/// Whether an identifier of this text stands in the tree, at the node itself or anywhere below it, in whatever context.
pub fn mentions(node: &Node, sym: &str) -> bool
    ensures { result ≡ mentions sym.now node.now }
{
    if is_ident_of(&node.kind, sym) {
        return true;
    }
    for i in 0..node.children.len() {
        if mentions(node.children.at(i), sym) {
            return true;
        }
    }
    false
}
