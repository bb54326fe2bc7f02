//! The forms that are not taken yet, node by node.
ghost use Rattle.std.specs.Prelude.{◌≡◌};
ghost use Rattle.ecma_strip.specs.Staying.{is_this_ident};
ghost use Rattle.ecma_rules.specs.Children.{child_holds, child_is, kind_of};
ghost use Rattle.ecma_rules.specs.Members.{has_body};
ghost use Rattle.ecma_forms.specs.Forms.{is_ambient_variable, is_odd_by, is_untaken, is_untaken_kind, keeps_exports, keeps_requires, names_this};

use ecma_config::TsImportExportAssignConfig;
use ecma_rules::has_child;
use ecma_tree::{Kind, Node};

fn is_ambient_variable(kind: &Kind) -> bool
    ensures { result ≡ is_ambient_variable kind.now }
{
    match kind {
        Kind::VarDecl { declare, .. } => *declare,
        _ => false,
    }
}

/// Whether the head of a loop is a variable after `declare`.
fn has_ambient_head(node: &Node) -> bool
    ensures { result ≡ child_is is_ambient_variable node.now 0 }
{
    match node.children.get(0) {
        Some(head) => is_ambient_variable(&head.kind),
        None => false,
    }
}

/// Whether the second child is a function with a body.
fn has_full_function(node: &Node) -> bool
    ensures { result ≡ child_holds has_body node.now 1 }
{
    match node.children.get(1) {
        Some(function) => has_child(function, 1),
        None => false,
    }
}

fn is_this_ident(kind: &Kind) -> bool
    ensures { result ≡ is_this_ident kind.now }
{
    match kind {
        Kind::Ident { sym, .. } => sym.as_str() == "this",
        _ => false,
    }
}

fn is_this_at(node: &Node, index: usize) -> bool
    ensures { result ≡ child_is is_this_ident node.now index }
{
    match node.children.get(index) {
        Some(name) => is_this_ident(&name.kind),
        None => false,
    }
}

/// Whether a specifier has a name `this`.
fn names_this(node: &Node) -> bool
    ensures { result ≡ names_this node.now }
{
    is_this_at(node, 0) || is_this_at(node, 1)
}

/// Whether a node is what no text has, or what the laws of types have no place for.
fn is_odd(node: &Node) -> bool
    ensures { result ≡ is_odd_by (kind_of node.now) node.now }
{
    match &node.kind {
        Kind::FnExpr => !has_full_function(node),
        Kind::ForStmt | Kind::ForInStmt | Kind::ForOfStmt { .. } => has_ambient_head(node),
        Kind::ImportNamedSpecifier { .. }
        | Kind::ExportNamedSpecifier { .. }
        | Kind::ExportNamespaceSpecifier => names_this(node),
        _ => false,
    }
}

/// Whether an option keeps `import a = require("m")`, or writes it with a `require` that is made.
fn keeps_requires(assign: TsImportExportAssignConfig) -> bool
    ensures { result ≡ keeps_requires assign }
{
    matches!(
        assign,
        TsImportExportAssignConfig::Preserve | TsImportExportAssignConfig::NodeNext
    )
}

/// Whether an option keeps `export = e`.
fn keeps_exports(assign: TsImportExportAssignConfig) -> bool
    ensures { result ≡ keeps_exports assign }
{
    matches!(assign, TsImportExportAssignConfig::Preserve)
}

/// Enums and namespaces, parameter properties, `export a from "m"`, and the assignments that are not lowered.
fn is_untaken_kind(assign: TsImportExportAssignConfig, kind: &Kind) -> bool
    ensures { result ≡ is_untaken_kind assign kind.now }
{
    match kind {
        Kind::TsExternalModuleRef => keeps_requires(assign),
        Kind::TsExportAssignment => keeps_exports(assign),
        Kind::ExportDefaultSpecifier
        | Kind::TsEnumDecl { .. }
        | Kind::TsEnumMember
        | Kind::TsModuleDecl { .. }
        | Kind::TsModuleBlock
        | Kind::TsNamespaceDecl { .. }
        | Kind::TsParamProp { .. } => true,
        _ => false,
    }
}

/// Whether a node is of a form that is not taken, as far as its kind and what stands directly in it say.
pub(crate) fn is_untaken(assign: TsImportExportAssignConfig, node: &Node) -> bool
    ensures { result ≡ is_untaken assign node.now }
{
    is_untaken_kind(assign, &node.kind) || is_odd(node)
}
