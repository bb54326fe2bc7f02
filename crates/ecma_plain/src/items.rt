//! Items that plain modules have.
ghost use Rattle.std.specs.Prelude.{◌≡◌};
ghost use Rattle.std.specs.List.{list_all};
ghost use Rattle.ecma_rules.specs.Children.{child_is};
ghost use Rattle.ecma_plain.specs.Items.{has_plain_items, is_external, is_plain_item};

use ecma_rules::items_at;
use ecma_tree::{Kind, Module, Node};

fn is_external(kind: &Kind) -> bool
    ensures { result ≡ is_external kind.now }
{
    matches!(kind, Kind::TsExternalModuleRef)
}

/// Whether what an import assignment names is `require("m")`.
fn names_a_module(item: &Node) -> bool
    ensures { result ≡ child_is is_external item.now 1 }
{
    match item.children.get(1) {
        Some(reference) => is_external(&reference.kind),
        None => false,
    }
}

/// Whether an item is no import or export assignment, or one that stays.
fn is_plain_item(item: &Node, keep_assign: bool) -> bool
    ensures { result ≡ is_plain_item keep_assign item.now }
{
    match &item.kind {
        Kind::TsImportEqualsDecl { .. } => keep_assign && names_a_module(item),
        Kind::TsExportAssignment => keep_assign,
        _ => true,
    }
}

fn are_plain_items(items: &[Node], keep_assign: bool) -> bool
    ensures { result ≡ list_all (is_plain_item keep_assign) items.now }
{
    for item in items {
        if !is_plain_item(item, keep_assign) {
            return false;
        }
    }
    true
}

/// Whether each item of a module is no import or export assignment, or one that stays.
pub(crate) fn has_plain_items(tree: &Module, keep_assign: bool) -> bool
    ensures { result ≡ has_plain_items keep_assign tree.now }
{
    are_plain_items(items_at(tree, 0), keep_assign)
}
