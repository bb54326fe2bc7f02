//! What the grammar asks of what stands directly in a node, beyond sorts.
ghost use Rattle.std.specs.Prelude.{◌≡◌};
ghost use Rattle.ecma_tree.specs.declared.node.Node.{out-Node};
ghost use Rattle.std.specs.List.{list_all};
ghost use Rattle.ecma_rules.specs.Children.{child_is};
ghost use Rattle.ecma_rules.specs.Targets.{is_key_value};
ghost use Rattle.ecma_fits.specs.Counts.{are, are_exports, are_imports, are_stars_or_names, ends_once, ends_template, has_attributes_at, is_attribute, is_attribute_key, is_default_import, is_empty, is_full_by, is_named_export, is_named_import, is_short, is_star_export, is_star_import, is_star_of, is_text, is_whole_template};

use ecma_rules::{has_child, items_at};
use ecma_tree::{Kind, Node};

fn ends_template(kind: &Kind) -> bool
    ensures { result ≡ ends_template kind.now }
{
    match kind {
        Kind::TplElement { tail, .. } => *tail,
        _ => false,
    }
}

/// Whether the last text part ends the template, and no other.
fn ends_once(parts: &[Node]) -> bool
    ensures { result ≡ ends_once parts.now }
{
    match parts {
        [] => false,
        [part] => ends_template(&part.kind),
        [part, others @ ..] => !ends_template(&part.kind) && ends_once(others),
    }
}

/// Whether a text part stands before each expression of a template, and one after the last.
fn is_whole_template(expressions: &[Node], parts: &[Node]) -> bool
    ensures { result ≡ is_whole_template expressions.now parts.now }
{
    parts.len() > 0 && parts.len() - 1 == expressions.len() && ends_once(parts)
}

fn is_named_import(kind: &Kind) -> bool
    ensures { result ≡ is_named_import kind.now }
{
    matches!(kind, Kind::ImportNamedSpecifier { .. })
}

fn is_star_import(kind: &Kind) -> bool
    ensures { result ≡ is_star_import kind.now }
{
    matches!(kind, Kind::ImportStarAsSpecifier)
}

fn is_default_import(kind: &Kind) -> bool
    ensures { result ≡ is_default_import kind.now }
{
    matches!(kind, Kind::ImportDefaultSpecifier)
}

fn is_named_export(kind: &Kind) -> bool
    ensures { result ≡ is_named_export kind.now }
{
    matches!(kind, Kind::ExportNamedSpecifier { .. })
}

fn is_star_export(kind: &Kind) -> bool
    ensures { result ≡ is_star_export kind.now }
{
    matches!(kind, Kind::ExportNamespaceSpecifier)
}

fn are_named_imports(specifiers: &[Node]) -> bool
    ensures { result ≡ are is_named_import specifiers.now }
{
    for item in specifiers {
        if !is_named_import(&item.kind) {
            return false;
        }
    }
    true
}

fn are_named_exports(specifiers: &[Node]) -> bool
    ensures { result ≡ are is_named_export specifiers.now }
{
    for item in specifiers {
        if !is_named_export(&item.kind) {
            return false;
        }
    }
    true
}

/// Whether specifiers are `* as a` alone, or names.
fn are_stars_or_names(specifiers: &[Node]) -> bool
    ensures { result ≡ are_stars_or_names specifiers.now }
{
    match specifiers {
        [one] => is_star_import(&one.kind) || is_named_import(&one.kind),
        _ => are_named_imports(specifiers),
    }
}

/// Whether specifiers may stand in an import: the default import before the others.
fn are_imports(specifiers: &[Node]) -> bool
    ensures { result ≡ are_imports specifiers.now }
{
    match specifiers {
        [] => true,
        [first, others @ ..] => {
            are_stars_or_names(specifiers)
                || (is_default_import(&first.kind) && are_stars_or_names(others))
        }
    }
}

fn is_star_of(has_source: bool, specifiers: &[Node]) -> bool
    ensures { result ≡ is_star_of has_source specifiers.now }
{
    match specifiers {
        [one] => has_source && is_star_export(&one.kind),
        _ => false,
    }
}

/// Whether specifiers may stand in an export with or without a source and attributes.
fn are_exports(has_source: bool, has_attributes: bool, specifiers: &[Node]) -> bool
    ensures { result ≡ are_exports has_source has_attributes specifiers.now }
{
    (are_named_exports(specifiers) || is_star_of(has_source, specifiers))
        && (has_source || !has_attributes)
}

fn is_attribute_key(kind: &Kind) -> bool
    ensures { result ≡ is_attribute_key kind.now }
{
    matches!(kind, Kind::IdentName { .. } | Kind::Str { .. })
}

fn is_text(kind: &Kind) -> bool
    ensures { result ≡ is_text kind.now }
{
    matches!(kind, Kind::Str { .. })
}

fn is_key_value(kind: &Kind) -> bool
    ensures { result ≡ is_key_value kind.now }
{
    matches!(kind, Kind::KeyValueProp)
}

fn child_is_key(node: &Node) -> bool
    ensures { result ≡ child_is is_attribute_key node.now 0 }
{
    match node.children.get(0) {
        Some(child) => is_attribute_key(&child.kind),
        None => false,
    }
}

fn child_is_text(node: &Node) -> bool
    ensures { result ≡ child_is is_text node.now 1 }
{
    match node.children.get(1) {
        Some(child) => is_text(&child.kind),
        None => false,
    }
}

/// Whether a property is a key and a text, as an import attribute is.
fn is_attribute(node: &Node) -> bool
    ensures { result ≡ is_attribute node.now }
{
    is_key_value(&node.kind) && child_is_key(node) && child_is_text(node)
}

fn are_attributes(items: &[Node]) -> bool
    ensures { result ≡ list_all is_attribute items.now }
{
    for item in items {
        if !is_attribute(item) {
            return false;
        }
    }
    true
}

/// Whether the child at an index, if it is there, holds attributes alone.
fn has_attributes_at(node: &Node, index: usize) -> bool
    ensures { result ≡ has_attributes_at index node.now }
{
    match node.children.get(index) {
        Some(object) => are_attributes(items_at(object, 0)),
        None => false,
    }
}

fn is_empty(nodes: &[Node]) -> bool
    ensures { result ≡ is_empty nodes.now }
{
    matches!(nodes, [])
}

/// Whether a node has what its production asks for.
#[tactic(auto, unfolding(crate::specs::Counts::is_full_by))]
fn is_full(node: &Node) -> bool
    ensures { result ≡ is_full_by (out-Node node.now).kind node.now }
{
    match &node.kind {
        Kind::Tpl => is_whole_template(items_at(node, 0), items_at(node, 1)),
        Kind::SeqExpr => 1 < node.children.len(),
        Kind::YieldExpr { delegate } => has_child(node, 0) || !*delegate,
        Kind::ArrowExpr { is_generator, .. } => !*is_generator,
        Kind::TryStmt => has_child(node, 1) || has_child(node, 2),
        Kind::VarDecl { .. } => !is_empty(items_at(node, 0)),
        Kind::ImportDecl { .. } => are_imports(items_at(node, 0)) && has_attributes_at(node, 2),
        Kind::NamedExport { .. } => {
            are_exports(has_child(node, 1), has_child(node, 2), items_at(node, 0))
                && has_attributes_at(node, 2)
        }
        Kind::ExportAll { .. } => has_attributes_at(node, 1),
        _ => true,
    }
}

/// Whether a node has not what its production asks for.
pub(crate) fn is_short(node: &Node) -> bool
    ensures { result ≡ is_short node.now }
{
    !is_full(node)
}
