//! What stands in a tree.
ghost use Rattle.std.specs.Prelude.{◌≡◌};
ghost use Rattle.ecma_tree.specs.Finding.{is_ident, mentions};

use crate::cursor::Cursor;
use ecma_tree::Kind;

fn is_ident_of(kind: &Kind, sym: &str) -> bool
    ensures { result ≡ is_ident sym.now kind.now }
{
    match kind {
        Kind::Ident { sym: text, .. } => text.as_str() == sym,
        _ => false,
    }
}

/// Whether an identifier of this text stands in the tree, at the node itself or anywhere below it, in whatever context.
#[tactic(auto, using(crate::proofs::Walking::walking))]
pub fn mentions(tree: &Cursor<'_>, sym: &str) -> bool
    ensures { result ≡ mentions sym.now tree.now }
{
    if is_ident_of(tree.kind(), sym) {
        return true;
    }
    for i in 0..tree.count() {
        if mentions(&tree.child(i), sym) {
            return true;
        }
    }
    false
}
