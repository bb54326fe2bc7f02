//! Assignments among the items of a module.
ghost use Rattle.std.specs.Prelude.{◌≡◌};
ghost use Rattle.ecma_tree.specs.declared.node.Node.{out-Node};
ghost use Rattle.ecma_lower.specs.Assignments.{is_assignment, is_export_assignment, is_required_import, requires_by};

use ecma_tree::{Kind, Node};

/// An assignment among the items of a module.
#[derive(Clone, Copy, Debug)]
pub enum Assignment {
    /// `import a = require("m")`
    Import,
    /// `export = e`
    Export,
}

/// Whether the right side of an import is `require("m")`.
pub(crate) fn requires_module(node: &Node) -> bool
    ensures { result ≡ requires_by (out-Node node.now).children }
{
    match node.children.get(1) {
        Some(value) => matches!(value.kind, Kind::TsExternalModuleRef),
        None => false,
    }
}

pub(crate) fn is_required_import(item: &Node) -> bool
    ensures { result ≡ is_required_import item.now }
{
    match &item.kind {
        Kind::TsImportEqualsDecl {
            is_type_only: false,
            ..
        } => requires_module(item),
        _ => false,
    }
}

pub(crate) fn is_export_assignment(item: &Node) -> bool
    ensures { result ≡ is_export_assignment item.now }
{
    matches!(item.kind, Kind::TsExportAssignment)
}

pub(crate) fn is_assignment(form: Assignment, item: &Node) -> bool
    ensures { result ≡ is_assignment form item.now }
{
    match form {
        Assignment::Import => is_required_import(item),
        Assignment::Export => is_export_assignment(item),
    }
}
