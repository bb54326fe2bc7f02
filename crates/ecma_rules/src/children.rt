//! The children of a node, by their index.
ghost use Rattle.std.specs.Prelude.{◌≡◌};
ghost use Rattle.ecma_rules.specs.Children.{has_child, is_named, is_present, items_at};

use ecma_tree::{Kind, Node};

fn is_present(kind: &Kind) -> bool
    ensures { result ≡ is_present kind.now }
{
    !matches!(kind, Kind::Absent)
}

/// Whether the child at an index is there.
pub fn has_child(node: &Node, index: usize) -> bool
    ensures { result ≡ has_child node.now index }
{
    match node.children.get(index) {
        Some(child) => is_present(&child.kind),
        None => false,
    }
}

/// The items of the list that is the child at an index; none where there is no such child.
pub fn items_at(node: &Node, index: usize) -> &[Node]
    ensures { result.now ≡ items_at node.now index }
{
    match node.children.get(index) {
        Some(child) => child.children.as_slice(),
        None => &[],
    }
}

/// Whether a kind is that of an identifier with this text.
pub(crate) fn is_named(kind: &Kind, text: &str) -> bool
    ensures { result ≡ is_named text.now kind.now }
{
    match kind {
        Kind::Ident { sym, .. } => sym.as_str() == text,
        _ => false,
    }
}
