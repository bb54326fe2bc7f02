//! Which items of a module, a block or a namespace are values.
ghost use Rattle.std.specs.Prelude.{◌≡◌, map};
ghost use Rattle.std.specs.List.{list_any};
ghost use Rattle.ecma_tree.specs.declared.node.Node.{out-Node};
ghost use Rattle.ecma_tree.specs.Values.{holds_ambient, is_function, is_value, is_value_where, value_at, value_at_where, value_by};

use crate::node::Node;
use ecma_kind::Kind;

/// Whether all that stands in a node of this kind is ambient, as what stands in a namespace behind `declare`.
fn holds_ambient(kind: &Kind) -> bool
    ensures { result ≡ holds_ambient kind.now }
{
    match kind {
        Kind::FnDecl { declare } => *declare,
        Kind::TsModuleDecl { declare, .. } => *declare,
        Kind::TsNamespaceDecl { declare, .. } => *declare,
        _ => false,
    }
}

fn is_function(kind: &Kind) -> bool
    ensures { result ≡ is_function kind.now }
{
    matches!(kind, Kind::Function { .. })
}

/// Whether the child at an index is there and a value, in a scope whose declarations stay or in an ambient one.
#[cycle(values)]
#[tactic(auto, using(crate::proofs::Valuing::values))]
fn is_value_at_where(stays: bool, node: &Node, index: usize) -> bool
    ensures { result ≡ value_at_where stays index node.now }
{
    match node.children.get(index) {
        Some(child) => is_value_where(stays, child),
        None => false,
    }
}

/// Whether one of the children is a value, in a scope whose declarations stay or in an ambient one.
#[cycle(values)]
#[tactic(auto, using(crate::proofs::Valuing::values))]
fn is_any_value_where(stays: bool, node: &Node) -> bool
    ensures { result ≡ list_any (λ b. b) (map (is_value_where stays) (out-Node node.now).children) }
{
    for child in node.children.as_slice() {
        if is_value_where(stays, child) {
            return true;
        }
    }
    false
}

/// Whether a node is a value by its kind and its children, which stand where declarations stay or where all is ambient.
#[cycle(values)]
#[tactic(auto, using(crate::proofs::Valuing::values), unfolding(crate::specs::Values::value_by))]
fn is_value_by(stays: bool, node: &Node) -> bool
    ensures { result ≡ value_by (out-Node node.now).kind (map (is_value_where stays) (out-Node node.now).children) }
{
    match &node.kind {
        Kind::Absent => false,
        Kind::EmptyStmt => false,
        Kind::TsInterfaceDecl { .. } => false,
        Kind::TsTypeAliasDecl { .. } => false,
        Kind::TsNamespaceExportDecl => false,
        Kind::ImportDecl { type_only } => !*type_only,
        Kind::NamedExport { type_only } => !*type_only,
        Kind::ExportAll { type_only } => !*type_only,
        Kind::TsImportEqualsDecl { is_type_only, .. } => !*is_type_only,
        Kind::ExportDecl => is_value_at_where(stays, node, 0),
        Kind::ExportDefaultDecl => is_value_at_where(stays, node, 0),
        Kind::FnDecl { .. } => is_value_at_where(stays, node, 1),
        Kind::FnExpr => is_value_at_where(stays, node, 1),
        Kind::Function { .. } => is_value_at_where(stays, node, 1),
        Kind::TsModuleDecl { .. } => is_value_at_where(stays, node, 1),
        Kind::TsNamespaceDecl { .. } => is_value_at_where(stays, node, 1),
        Kind::TsModuleBlock => is_value_at_where(stays, node, 0),
        Kind::List => is_any_value_where(stays, node),
        _ => true,
    }
}

/// Whether an item is a value, in a scope whose declarations stay or in an ambient one: there a function is one without its body too.
#[cycle(values)]
#[tactic(auto, using(crate::proofs::Valuing::values))]
pub fn is_value_where(stays: bool, node: &Node) -> bool
    ensures { result ≡ is_value_where stays node.now }
{
    if is_function(&node.kind) && !stays {
        return true;
    }
    is_value_by(!holds_ambient(&node.kind) && stays, node)
}

/// Whether an item of a module, a block or a namespace is a value: not a type, an overload, a namespace without values,
/// or what is written `type`. Ambient ones are values too, a function without a body among them.
pub fn is_value(node: &Node) -> bool
    ensures { result ≡ is_value node.now }
{
    is_value_where(true, node)
}

/// Whether the child at an index is there and a value.
pub fn is_value_at(node: &Node, index: usize) -> bool
    ensures { result ≡ value_at index node.now }
{
    is_value_at_where(true, node, index)
}
