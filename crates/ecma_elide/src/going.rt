//! What goes of imports and exports.
ghost use Rattle.std.specs.Prelude.{◌≡◌, slice_get};
ghost use Rattle.ecma_rules.specs.Children.{children_of};
ghost use Rattle.ecma_tree.specs.declared.node.Node.{out-Node};
ghost use Rattle.ecma_elide.specs.Rules.{alias_goes, all_go, export_goes, exports_nothing, first_name, goes, import_goes, is_left_empty, is_unused, is_unwanted, item_goes, names_type, of_name, reexport_goes, specifier_goes};
ghost use Rattle.ecma_elide.specs.Sets.{known_by};

use crate::known::Names;
use crate::seat::{Seat, exported};
use ecma_scope::is_there;
use ecma_tree::{Kind, Node};

/// Whether an identifier is one that an import does not keep.
fn is_unwanted(names: &Names, kind: &Kind) -> bool
    ensures { result ≡ of_name (is_unwanted (known_by names.now)) kind.now }
{
    match kind {
        Kind::Ident { sym, ctxt, .. } => names.is_value(sym) || !names.is_used(sym, *ctxt),
        _ => false,
    }
}

fn is_unused(names: &Names, kind: &Kind) -> bool
    ensures { result ≡ of_name (is_unused (known_by names.now)) kind.now }
{
    match kind {
        Kind::Ident { sym, ctxt, .. } => !names.is_used(sym, *ctxt),
        _ => false,
    }
}

/// Whether an identifier is the name of a type and of no value.
fn names_type(names: &Names, kind: &Kind) -> bool
    ensures { result ≡ of_name (names_type (known_by names.now)) kind.now }
{
    match kind {
        Kind::Ident { sym, .. } => names.is_type(sym) && !names.is_value(sym),
        _ => false,
    }
}

fn first_is_unwanted(names: &Names, node: &Node) -> bool
    ensures { result ≡ first_name (is_unwanted (known_by names.now)) (out-Node node.now).children }
{
    match node.children.get(0) {
        Some(name) => is_unwanted(names, &name.kind),
        None => false,
    }
}

fn first_is_unused(names: &Names, node: &Node) -> bool
    ensures { result ≡ first_name (is_unused (known_by names.now)) (out-Node node.now).children }
{
    match node.children.get(0) {
        Some(name) => is_unused(names, &name.kind),
        None => false,
    }
}

fn first_names_type(names: &Names, node: &Node) -> bool
    ensures { result ≡ first_name (names_type (known_by names.now)) (out-Node node.now).children }
{
    match node.children.get(0) {
        Some(name) => names_type(names, &name.kind),
        None => false,
    }
}

/// Whether a specifier of an import goes.
#[tactic(auto, unfolding(crate::specs::Rules::import_goes))]
fn import_goes(names: &Names, node: &Node) -> bool
    ensures { result ≡ import_goes (known_by names.now) (out-Node node.now).kind (out-Node node.now).children }
{
    match &node.kind {
        Kind::ImportNamedSpecifier { is_type_only } => {
            *is_type_only || first_is_unwanted(names, node)
        }
        Kind::ImportDefaultSpecifier => first_is_unwanted(names, node),
        Kind::ImportStarAsSpecifier => first_is_unwanted(names, node),
        _ => false,
    }
}

/// Whether a specifier of an export without a source goes.
#[tactic(auto, unfolding(crate::specs::Rules::export_goes))]
fn export_goes(names: &Names, node: &Node) -> bool
    ensures { result ≡ export_goes (known_by names.now) (out-Node node.now).kind (out-Node node.now).children }
{
    match &node.kind {
        Kind::ExportNamedSpecifier { is_type_only } => {
            *is_type_only || first_names_type(names, node)
        }
        _ => false,
    }
}

/// Whether a specifier of an export with a source goes.
#[tactic(auto, unfolding(crate::specs::Rules::reexport_goes))]
fn reexport_goes(kind: &Kind) -> bool
    ensures { result ≡ reexport_goes kind.now }
{
    match kind {
        Kind::ExportNamedSpecifier { is_type_only } => *is_type_only,
        _ => false,
    }
}

fn specifier_goes(names: &Names, seat: Seat, node: &Node) -> bool
    ensures { result ≡ specifier_goes (known_by names.now) seat (out-Node node.now).kind (out-Node node.now).children }
{
    match seat {
        Seat::Imported => import_goes(names, node),
        Seat::Exported => export_goes(names, node),
        Seat::Reexported => reexport_goes(&node.kind),
        _ => false,
    }
}

fn all_go(names: &Names, seat: Seat, specifiers: &[Node]) -> bool
    ensures { result ≡ all_go (known_by names.now) seat specifiers.now }
{
    for specifier in specifiers {
        if !specifier_goes(names, seat, specifier) {
            return false;
        }
    }
    true
}

/// The nodes of the list that the first child is.
fn first_list(node: &Node) -> &[Node]
    ensures { result.now ≡ children_of (slice_get (out-Node node.now).children 0) }
{
    match node.children.get(0) {
        Some(list) => list.children.as_slice(),
        None => &[],
    }
}

/// Whether an import is left without specifiers, and goes with them.
fn is_left_empty(names: &Names, node: &Node) -> bool
    ensures { result ≡ is_left_empty (known_by names.now) (out-Node node.now).children }
{
    let specifiers = first_list(node);
    if specifiers.is_empty() {
        return false;
    }
    all_go(names, Seat::Imported, specifiers) && !names.keeps_imports()
}

/// Whether an export is left or written without specifiers.
fn exports_nothing(names: &Names, node: &Node) -> bool
    ensures { result ≡ exports_nothing (known_by names.now) (out-Node node.now).children }
{
    all_go(names, exported(is_there(node, 1)), first_list(node))
}

/// Whether `import a = ..` goes.
#[tactic(auto, unfolding(crate::specs::Rules::alias_goes))]
fn alias_goes(names: &Names, node: &Node) -> bool
    ensures { result ≡ alias_goes (known_by names.now) (out-Node node.now).kind (out-Node node.now).children }
{
    match &node.kind {
        Kind::TsImportEqualsDecl {
            is_export,
            is_type_only,
        } => *is_type_only || (!*is_export && first_is_unused(names, node)),
        _ => false,
    }
}

/// Whether an item of a module goes.
#[tactic(auto, unfolding(crate::specs::Rules::item_goes))]
fn item_goes(names: &Names, node: &Node) -> bool
    ensures { result ≡ item_goes (known_by names.now) (out-Node node.now).kind (out-Node node.now).children }
{
    match &node.kind {
        Kind::ImportDecl { type_only } => *type_only || is_left_empty(names, node),
        Kind::NamedExport { type_only } => *type_only || exports_nothing(names, node),
        Kind::ExportAll { type_only } => *type_only,
        Kind::ExportDefaultExpr => first_names_type(names, node),
        _ => alias_goes(names, node),
    }
}

/// Whether what stands in a seat goes.
pub(crate) fn goes(names: &Names, seat: Seat, node: &Node) -> bool
    ensures { result ≡ goes (known_by names.now) seat (out-Node node.now).kind (out-Node node.now).children }
{
    match seat {
        Seat::Items => item_goes(names, node),
        Seat::Elsewhere => alias_goes(names, node),
        _ => specifier_goes(names, seat, node),
    }
}
