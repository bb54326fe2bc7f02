//! What stands around the children of a node, and behind an item.
ghost use Rattle.std.specs.Prelude.{◌≡◌, ◌++◌, IfOk, OnOk};
ghost use Rattle.ecma_tree.specs.declared.node.Node.{out-Node};
ghost use Rattle.ecma_lower_enums.specs.Known.{name_at};
ghost use Rattle.ecma_lower_enums.specs.Seats as table;
ghost use Rattle.ecma_lower_enums.specs.Seats.{declared_ids, default_ids, first_ids, id_at, named, of_block, part_ids};

use crate::known::{Around, id_of, name_at, nowhere};
use crate::place::Place;
use ecma_tree::{Id, Ident, Kind, NoMemory, Node};
use item_list::ItemList;
use std::alloc::{AllocError, Global};

fn of_block(place: Place, name: &Option<Ident>) -> Result<Option<Ident>, NoMemory>
    ensures { IfOk result (λ of. of ≡ of_block place name.now) }
{
    match place {
        Place::Block => match name {
            Some(name) => Ok(Some(name.clone()?)),
            None => Ok(None),
        },
        _ => Ok(None),
    }
}

fn named(alloc: Global, name: Option<Ident>) -> Around
    ensures { result ≡ named name }
{
    Around {
        name,
        before: ItemList::new(alloc),
    }
}

/// What is around the children of a node, where it is something else than what is around the node.
#[tactic(auto, unfolding(crate::specs::Seats::around_in))]
pub(crate) fn around_in(
    alloc: Global,
    place: Place,
    around: &Around,
    node: &Node,
) -> Result<Option<Around>, NoMemory>
    ensures { IfOk result (λ inside. inside ≡ table.around_in place around.now.name
        (out-Node node.now).kind (out-Node node.now).children) }
{
    match &node.kind {
        Kind::Module { .. } | Kind::Script { .. } | Kind::BlockStmt | Kind::SwitchCase => {
            Ok(Some(nowhere(alloc)))
        }
        Kind::TsModuleBlock => Ok(Some(named(alloc, of_block(place, &around.name)?))),
        Kind::TsModuleDecl { .. } | Kind::TsNamespaceDecl { .. } | Kind::TsEnumDecl { .. } => {
            Ok(Some(named(alloc, name_at(node)?)))
        }
        _ => Ok(None),
    }
}

fn push_id(ids: &mut ItemList<Id>, node: &Node) -> Result<(), NoMemory>
    ensures { OnOk result (ids.new ≡ ids.old ++ id_at (out-Node node.now).children) }
{
    if let Some(name) = name_at(node)? {
        ids.push(id_of(&name)?)?;
    }
    Ok(())
}

#[tactic(auto, unfolding(crate::specs::Seats::declared_ids))]
fn push_declared(ids: &mut ItemList<Id>, node: &Node) -> Result<(), NoMemory>
    ensures { OnOk result (ids.new ≡ ids.old ++ declared_ids (out-Node node.now).kind (out-Node node.now).children) }
{
    match &node.kind {
        Kind::FnDecl { .. }
        | Kind::ClassDecl { .. }
        | Kind::TsEnumDecl { .. }
        | Kind::TsModuleDecl { .. } => push_id(ids, node),
        _ => Ok(()),
    }
}

#[tactic(auto, unfolding(crate::specs::Seats::default_ids))]
fn push_default(ids: &mut ItemList<Id>, node: &Node) -> Result<(), NoMemory>
    ensures { OnOk result (ids.new ≡ ids.old ++ default_ids (out-Node node.now).kind (out-Node node.now).children) }
{
    match &node.kind {
        Kind::FnExpr | Kind::ClassExpr => push_id(ids, node),
        _ => Ok(()),
    }
}

fn push_exported(ids: &mut ItemList<Id>, node: &Node) -> Result<(), NoMemory>
    ensures { OnOk result (ids.new ≡ ids.old ++ first_ids declared_ids (out-Node node.now).children) }
{
    match node.children.get(0) {
        Some(child) => push_declared(ids, child),
        None => Ok(()),
    }
}

fn push_exported_default(ids: &mut ItemList<Id>, node: &Node) -> Result<(), NoMemory>
    ensures { OnOk result (ids.new ≡ ids.old ++ first_ids default_ids (out-Node node.now).children) }
{
    match node.children.get(0) {
        Some(child) => push_default(ids, child),
        None => Ok(()),
    }
}

/// Puts the id of what an item declares to which a later part may add behind the others.
#[tactic(auto, unfolding(crate::specs::Seats::part_ids))]
pub(crate) fn push_part_ids(ids: &mut ItemList<Id>, node: &Node) -> Result<(), NoMemory>
    ensures { OnOk result (ids.new ≡ ids.old ++ part_ids (out-Node node.now).kind (out-Node node.now).children) }
{
    match &node.kind {
        Kind::ExportDecl => push_exported(ids, node),
        Kind::ExportDefaultDecl => push_exported_default(ids, node),
        _ => push_declared(ids, node),
    }
}

fn copy_id(id: &Id) -> Result<Id, AllocError>
    ensures { IfOk result (λ copy. copy ≡ id.now) }
{
    Ok((id.0.clone()?, id.1))
}

fn copy_ids(alloc: Global, ids: &[Id]) -> Result<ItemList<Id>, NoMemory>
    ensures { IfOk result (λ copy. copy ≡ ids.now) }
{
    let mut copy = ItemList::new(alloc);
    for id in ids {
        copy.push(copy_id(id)?)?;
    }
    Ok(copy)
}

fn copy_name(name: &Option<Ident>) -> Result<Option<Ident>, NoMemory>
    ensures { IfOk result (λ copy. copy ≡ name.now) }
{
    match name {
        Some(name) => Ok(Some(name.clone()?)),
        None => Ok(None),
    }
}

pub(crate) fn copy_around(alloc: Global, around: &Around) -> Result<Around, NoMemory>
    ensures { IfOk result (λ copy. copy ≡ around.now) }
{
    Ok(Around {
        name: copy_name(&around.name)?,
        before: copy_ids(alloc, around.before.as_slice())?,
    })
}
