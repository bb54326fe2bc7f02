//! Which identifiers are used.
ghost use Rattle.std.specs.Prelude.{◌≡◌, ◌++◌, OnOk, IfOk};
ghost use Rattle.ecma_scope.specs.Uses.{in_declared, in_used, use_at, use_by, use_in, used_at, used_here, used_ids, used_if};

use crate::role::is_there;
use ecma_tree::{Id, Kind, Module, NoMemory, Node};
use item_list::ItemList;
use std::alloc::Global;

/// How a node stands.
#[derive(Clone, Copy, Debug)]
pub enum Use {
    /// An identifier here is used.
    Used,
    /// It is a pattern that declares its names.
    Declared,
    /// Nothing in it is used.
    Out,
}

fn use_at(wanted: usize, index: usize, this: Use, others: Use) -> Use
    ensures { result ≡ use_at wanted index this others }
{
    if index == wanted { this } else { others }
}

fn used_if(is: bool) -> Use
    ensures { result ≡ used_if is }
{
    if is { Use::Used } else { Use::Out }
}

#[tactic(auto, unfolding(crate::specs::Uses::in_used))]
fn in_used(kind: &Kind, sourced: bool, index: usize) -> Use
    ensures { result ≡ in_used kind.now sourced index }
{
    match kind {
        Kind::VarDeclarator { .. } => use_at(0, index, Use::Declared, Use::Used),
        Kind::Function { .. } => use_at(0, index, Use::Declared, Use::Used),
        Kind::ArrowExpr { .. } => use_at(0, index, Use::Declared, Use::Used),
        Kind::Constructor { .. } => use_at(1, index, Use::Declared, Use::Used),
        Kind::SetterProp => use_at(2, index, Use::Declared, Use::Used),
        Kind::CatchClause => use_at(0, index, Use::Declared, Use::Used),
        Kind::FnDecl { .. } => use_at(0, index, Use::Out, Use::Used),
        Kind::FnExpr => use_at(0, index, Use::Out, Use::Used),
        Kind::ClassDecl { .. } => use_at(0, index, Use::Out, Use::Used),
        Kind::ClassExpr => use_at(0, index, Use::Out, Use::Used),
        Kind::Class { .. } => use_at(4, index, Use::Out, Use::Used),
        Kind::TsEnumDecl { .. } => use_at(0, index, Use::Out, Use::Used),
        Kind::TsEnumMember => use_at(0, index, Use::Out, Use::Used),
        Kind::TsModuleDecl { .. } => use_at(0, index, Use::Out, Use::Used),
        Kind::TsNamespaceDecl { .. } => use_at(0, index, Use::Out, Use::Used),
        Kind::TsInterfaceDecl { .. } => Use::Out,
        Kind::TsTypeAliasDecl { .. } => Use::Out,
        Kind::TsNamespaceExportDecl => Use::Out,
        Kind::TsImportEqualsDecl { is_type_only, .. } => {
            use_at(0, index, Use::Out, used_if(!*is_type_only))
        }
        Kind::ImportDecl { .. } => Use::Out,
        Kind::NamedExport { type_only } => used_if(!(*type_only || sourced)),
        Kind::ExportNamedSpecifier { is_type_only } => {
            use_at(0, index, used_if(!*is_type_only), Use::Out)
        }
        Kind::ExportNamespaceSpecifier => Use::Out,
        Kind::ExportDefaultSpecifier => Use::Out,
        Kind::LabeledStmt => use_at(0, index, Use::Out, Use::Used),
        Kind::BreakStmt => Use::Out,
        Kind::ContinueStmt => Use::Out,
        _ => Use::Used,
    }
}

#[tactic(auto, unfolding(crate::specs::Uses::in_declared))]
fn in_declared(kind: &Kind, index: usize) -> Use
    ensures { result ≡ in_declared kind.now index }
{
    match kind {
        Kind::List => Use::Declared,
        Kind::BindingIdent => use_at(0, index, Use::Declared, Use::Used),
        Kind::Param => Use::Declared,
        Kind::TsParamProp { .. } => Use::Declared,
        Kind::ArrayPat { .. } => use_at(0, index, Use::Declared, Use::Used),
        Kind::ObjectPat { .. } => use_at(0, index, Use::Declared, Use::Used),
        Kind::RestPat => use_at(0, index, Use::Declared, Use::Used),
        Kind::AssignPat => use_at(0, index, Use::Declared, Use::Used),
        Kind::AssignPatProp => use_at(0, index, Use::Declared, Use::Used),
        Kind::KeyValuePatProp => use_at(1, index, Use::Declared, Use::Used),
        _ => Use::Used,
    }
}

#[tactic(auto, unfolding(crate::specs::Uses::use_in))]
fn use_in(stands: Use, node: &Node, index: usize) -> Use
    ensures { result ≡ use_in stands node.now index }
{
    match stands {
        Use::Used => in_used(&node.kind, is_there(node, 1), index),
        Use::Declared => in_declared(&node.kind, index),
        Use::Out => Use::Out,
    }
}

#[tactic(auto, unfolding(crate::specs::Uses::used_here))]
fn push_here(stands: Use, kind: &Kind, ids: &mut ItemList<Id>) -> Result<(), NoMemory>
    ensures { OnOk result (ids.new ≡ ids.old ++ used_here stands kind.now) }
{
    if let Use::Used = stands {
        if let Kind::Ident { sym, ctxt, .. } = kind {
            ids.push((sym.clone()?, *ctxt))?;
        }
    }
    Ok(())
}

/// Puts the ids that are used in a node after those that are there.
fn push_used(stands: Use, node: &Node, ids: &mut ItemList<Id>) -> Result<(), NoMemory>
    ensures { OnOk result (ids.new ≡ ids.old ++ used_at node.now stands) }
{
    push_here(stands, &node.kind, ids)?;
    for i in 0..node.children.len() {
        push_used(use_in(stands, node, i), node.children.at(i), ids)?;
    }
    Ok(())
}

/// The ids of the identifiers that are used in a module, in the order of the text, each as often as it is. In a resolved module
/// an import is used exactly where its id is among them.
pub fn used_ids(alloc: Global, tree: &Module) -> Result<ItemList<Id>, NoMemory>
    ensures { IfOk result (λ ids. ids ≡ used_ids tree.now) }
{
    let mut ids = ItemList::new(alloc);
    push_used(Use::Used, tree, &mut ids)?;
    Ok(ids)
}
