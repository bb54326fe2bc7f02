//! What stays in a list.
ghost use Rattle.std.specs.Prelude.{◌≡◌};
ghost use Rattle.ecma_tree.specs.declared.node.Node.{out-Node};
ghost use Rattle.ecma_strip.specs.Staying.{is_ambient, is_declared, is_empty_stmt, is_export, is_this, is_this_ident, is_this_param, item_stays, member_stays, specifier_stays, stays};

use ecma_tree::{Kind, Node, Sort, belongs, is_value, is_value_at};

pub(crate) fn is_empty_stmt(kind: &Kind) -> bool
    ensures { result ≡ is_empty_stmt kind.now }
{
    matches!(kind, Kind::EmptyStmt)
}

#[tactic(auto, unfolding(crate::specs::Staying::is_declared))]
fn is_declared(kind: &Kind) -> bool
    ensures { result ≡ is_declared kind.now }
{
    match kind {
        Kind::FnDecl { declare } => *declare,
        Kind::ClassDecl { declare } => *declare,
        Kind::VarDecl { declare, .. } => *declare,
        Kind::TsEnumDecl { declare, .. } => *declare,
        Kind::TsModuleDecl { declare, .. } => *declare,
        _ => false,
    }
}

fn is_export(kind: &Kind) -> bool
    ensures { result ≡ is_export kind.now }
{
    matches!(kind, Kind::ExportDecl)
}

/// Whether it is a declaration after `declare`, or its export.
fn is_ambient(node: &Node) -> bool
    ensures { result ≡ is_ambient node.now }
{
    if !is_export(&node.kind) {
        return is_declared(&node.kind);
    }
    match node.children.get(0) {
        Some(declaration) => is_declared(&declaration.kind),
        None => false,
    }
}

/// Whether an item of a module or a block stays: a value that is not ambient, or an empty statement.
pub(crate) fn item_stays(node: &Node) -> bool
    ensures { result ≡ item_stays node.now }
{
    if is_empty_stmt(&node.kind) {
        return true;
    }
    if !belongs(Sort::ModuleItem, &node.kind) {
        return true;
    }
    is_value(node) && !is_ambient(node)
}

#[tactic(auto, unfolding(crate::specs::Staying::member_stays_by))]
fn member_stays(node: &Node) -> bool
    ensures { result ≡ member_stays node.now }
{
    match &node.kind {
        Kind::TsIndexSignature { .. } => false,
        Kind::Constructor { .. } => is_value_at(node, 2),
        Kind::ClassMethod { modifiers, .. } | Kind::PrivateMethod { modifiers, .. } => {
            !modifiers.is_abstract && is_value_at(node, 1)
        }
        Kind::ClassProp {
            modifiers,
            declare,
            ..
        }
        | Kind::PrivateProp {
            modifiers,
            declare,
            ..
        } => { !modifiers.is_abstract && !*declare }
        _ => true,
    }
}

fn is_this_ident(kind: &Kind) -> bool
    ensures { result ≡ is_this_ident kind.now }
{
    match kind {
        Kind::Ident { sym, .. } => sym.as_str() == "this",
        _ => false,
    }
}

/// Whether a node is the name `this`, with its type.
fn is_this(node: &Node) -> bool
    ensures { result ≡ is_this node.now }
{
    if !matches!(node.kind, Kind::BindingIdent) {
        return false;
    }
    match node.children.get(0) {
        Some(name) => is_this_ident(&name.kind),
        None => false,
    }
}

/// Whether a node is the parameter `this`, of a function or of an arrow function.
fn is_this_param(node: &Node) -> bool
    ensures { result ≡ is_this_param node.now }
{
    if !matches!(node.kind, Kind::Param) {
        return is_this(node);
    }
    match node.children.get(0) {
        Some(pattern) => is_this(pattern),
        None => false,
    }
}

#[tactic(auto, unfolding(crate::specs::Staying::specifier_stays))]
fn specifier_stays(kind: &Kind) -> bool
    ensures { result ≡ specifier_stays kind.now }
{
    match kind {
        Kind::ImportNamedSpecifier { is_type_only } => !*is_type_only,
        Kind::ExportNamedSpecifier { is_type_only } => !*is_type_only,
        Kind::TsType => false,
        _ => true,
    }
}

/// Whether a node stays in a list in which it stands, when the types of the list are taken out.
#[tactic(auto, unfolding(crate::specs::Staying::stays))]
pub fn stays(node: &Node) -> bool
    ensures { result ≡ stays node.now }
{
    item_stays(node) && member_stays(node) && specifier_stays(&node.kind) && !is_this_param(node)
}
