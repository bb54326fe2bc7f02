//! Whether anything stands in a tree that elision may drop.
ghost use Rattle.std.specs.Prelude.{◌≡◌};
ghost use Rattle.ecma_tree.specs.Finding.{enters_all, finds};
ghost use Rattle.ecma_elide.specs.Laws.{may_go};

use ecma_tree::{Kind, Node};

fn may_go(kind: &Kind) -> bool
    ensures { result ≡ may_go kind.now }
{
    matches!(
        kind,
        Kind::ImportDecl { .. }
            | Kind::ImportNamedSpecifier { .. }
            | Kind::ImportDefaultSpecifier
            | Kind::ImportStarAsSpecifier
            | Kind::NamedExport { .. }
            | Kind::ExportNamedSpecifier { .. }
            | Kind::ExportAll { .. }
            | Kind::ExportDefaultExpr
            | Kind::TsImportEqualsDecl { .. }
    )
}

/// Whether a node that may go stands in the tree.
pub(crate) fn holds_any(node: &Node) -> bool
    ensures { result ≡ finds may_go enters_all node.now }
{
    if may_go(&node.kind) {
        return true;
    }
    for i in 0..node.children.len() {
        if holds_any(node.children.at(i)) {
            return true;
        }
    }
    false
}
