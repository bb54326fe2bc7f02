//! The names that matter where enums are written.
ghost use Rattle.std.specs.Prelude.{◌≡◌, ◌++◌, IfOk, OnOk};
ghost use Rattle.std.specs.Option.{option_map_or};
ghost use Rattle.ecma_tree.specs.declared.node.Node.{out-Node};
ghost use Rattle.ecma_enums.specs.Names as enums;
ghost use Rattle.ecma_lower_enums.specs.Names as table;
ghost use Rattle.ecma_lower_enums.specs.Names.{items_at, names_by, names_in};

use crate::known::{EnumName, id_of, name_at};
use ecma_tree::{Id, Ident, Kind, Module, NoMemory, Node};
use item_list::ItemList;
use std::alloc::Global;

fn items_at(node: &Node, index: usize) -> &[Node]
    ensures { result.now ≡ items_at (out-Node node.now).children index }
{
    match node.children.get(index) {
        Some(list) => list.children.as_slice(),
        None => &[],
    }
}

fn push_member(of: &Ident, member: &Node, names: &mut ItemList<EnumName>) -> Result<(), NoMemory>
    ensures { OnOk result (names.new ≡ names.old ++ table.member_name of.now member.now) }
{
    if let Some(ident) = name_at(member)? {
        let id = id_of(&ident)?;
        let of = of.clone()?;
        names.push(EnumName::Member { id, of })?;
    }
    Ok(())
}

fn push_members(
    of: &Ident,
    members: &[Node],
    names: &mut ItemList<EnumName>,
) -> Result<(), NoMemory>
    ensures { OnOk result (names.new ≡ names.old ++ table.member_names of.now members.now) }
{
    for member in members {
        push_member(of, member, names)?;
    }
    Ok(())
}

fn push_enum(node: &Node, names: &mut ItemList<EnumName>) -> Result<(), NoMemory>
    ensures { OnOk result (names.new ≡ names.old ++ table.names_of_enum (out-Node node.now).children) }
{
    if let Some(of) = name_at(node)? {
        push_members(&of, items_at(node, 1), names)?;
    }
    Ok(())
}

fn push_local(node: &Node, names: &mut ItemList<EnumName>) -> Result<(), NoMemory>
    ensures { OnOk result (names.new ≡ names.old ++ table.local_name (out-Node node.now).children) }
{
    if let Some(ident) = name_at(node)? {
        let id = id_of(&ident)?;
        names.push(EnumName::Exported { id })?;
    }
    Ok(())
}

fn push_specifier(node: &Node, names: &mut ItemList<EnumName>) -> Result<(), NoMemory>
    ensures { OnOk result (names.new ≡ names.old ++ table.specifier_name node.now) }
{
    match &node.kind {
        Kind::ExportNamedSpecifier {
            is_type_only: false,
        } => push_local(node, names),
        _ => Ok(()),
    }
}

fn push_specifiers(nodes: &[Node], names: &mut ItemList<EnumName>) -> Result<(), NoMemory>
    ensures { OnOk result (names.new ≡ names.old ++ table.specifier_names nodes.now) }
{
    for node in nodes {
        push_specifier(node, names)?;
    }
    Ok(())
}

fn lacks(node: &Node, index: usize) -> bool
    ensures { result ≡ table.lacks (out-Node node.now).children index }
{
    match node.children.get(index) {
        Some(child) => matches!(child.kind, Kind::Absent),
        None => true,
    }
}

fn push_export(type_only: bool, node: &Node, names: &mut ItemList<EnumName>) -> Result<(), NoMemory>
    ensures { OnOk result (names.new ≡ names.old ++ table.names_of_export type_only (out-Node node.now).children) }
{
    if type_only || !lacks(node, 1) {
        return Ok(());
    }
    push_specifiers(items_at(node, 0), names)
}

/// The id of the name that the child at an index is, also with types round it.
#[cycle(under)]
#[tactic(auto, using(crate::proofs::Under::naming))]
fn name_under_at(node: &Node, index: usize) -> Result<Option<Id>, NoMemory>
    ensures { IfOk result (λ name. name ≡ enums.name_at node.now index) }
{
    match node.children.get(index) {
        Some(child) => name_under(child),
        None => Ok(None),
    }
}

/// The id of the name that an expression is, also with types round it.
#[cycle(under)]
#[tactic(auto, using(crate::proofs::Under::naming), unfolding(ecma_enums::specs::Names::name_by))]
fn name_under(node: &Node) -> Result<Option<Id>, NoMemory>
    ensures { IfOk result (λ name. name ≡ enums.name_under node.now) }
{
    match &node.kind {
        Kind::Ident { sym, ctxt, .. } => Ok(Some((sym.clone()?, *ctxt))),
        Kind::TsTypeAssertion => name_under_at(node, 0),
        Kind::TsConstAssertion => name_under_at(node, 0),
        Kind::TsNonNullExpr => name_under_at(node, 0),
        Kind::TsAsExpr => name_under_at(node, 0),
        Kind::TsInstantiation => name_under_at(node, 0),
        Kind::TsSatisfiesExpr => name_under_at(node, 0),
        _ => Ok(None),
    }
}

fn push_default(node: &Node, names: &mut ItemList<EnumName>) -> Result<(), NoMemory>
    ensures { OnOk result (names.new ≡ names.old ++ table.default_name node.now) }
{
    if let Some(id) = name_under_at(node, 0)? {
        names.push(EnumName::Exported { id })?;
    }
    Ok(())
}

#[tactic(auto, unfolding(crate::specs::Names::names_by))]
fn push_here(node: &Node, names: &mut ItemList<EnumName>) -> Result<(), NoMemory>
    ensures { OnOk result (names.new ≡ names.old ++ table.names_here tt node.now) }
{
    match &node.kind {
        Kind::TsEnumDecl { .. } => push_enum(node, names),
        Kind::NamedExport { type_only } => push_export(*type_only, node, names),
        Kind::ExportDefaultExpr => push_default(node, names),
        _ => Ok(()),
    }
}

/// Puts the names in a node behind those that are there.
fn push_names(node: &Node, names: &mut ItemList<EnumName>) -> Result<(), NoMemory>
    ensures { OnOk result (names.new ≡ names.old ++ names_in node.now) }
{
    push_here(node, names)?;
    for i in 0..node.children.len() {
        push_names(node.children.at(i), names)?;
    }
    Ok(())
}

/// The names of the members of all enums of a module, and of what it exports in braces or as its default.
pub(crate) fn names_in(alloc: Global, tree: &Module) -> Result<ItemList<EnumName>, NoMemory>
    ensures { IfOk result (λ names. names ≡ names_in tree.now) }
{
    let mut names = ItemList::new(alloc);
    push_names(tree, &mut names)?;
    Ok(names)
}
