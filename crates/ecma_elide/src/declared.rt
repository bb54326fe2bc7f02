//! The names that a module declares as values, and those that it declares as types.
ghost use Rattle.std.specs.Prelude.{◌≡◌, ◌++◌, IfOk, OnOk};
ghost use Rattle.ecma_walks.specs.Listing.{listed_within};
ghost use Rattle.ecma_elide.specs.DeclaredNames.{is_imported, is_name_part, text_of, type_here, type_names, types_in, value_here, value_in, value_names, values_in};

use crate::typed::{Typed, is_name, type_in};
use ecma_scope::{Part, Sought, sought_in};
use ecma_tree::{JsWord, Kind, Module, NoMemory, Node};
use item_list::ItemList;
use std::alloc::Global;

fn push_text(kind: &Kind, texts: &mut ItemList<JsWord>) -> Result<(), NoMemory>
    ensures { OnOk result (texts.new ≡ texts.old ++ text_of kind.now) }
{
    if let Kind::Ident { sym, .. } = kind {
        texts.push(sym.clone()?)?;
    }
    Ok(())
}

fn is_imported(kind: &Kind) -> bool
    ensures { result ≡ is_imported kind.now }
{
    match kind {
        Kind::ImportDecl { .. } => true,
        Kind::TsImportEqualsDecl { is_type_only, .. } => *is_type_only,
        _ => false,
    }
}

fn is_name_part(part: Part) -> bool
    ensures { result ≡ is_name_part part }
{
    matches!(part, Part::Name(_))
}

/// What is looked for in the child at an index.
fn value_in(sought: Sought, node: &Node, index: usize) -> Option<Sought>
    ensures { result ≡ value_in sought node.now index }
{
    if is_imported(&node.kind) {
        None
    } else {
        sought_in(sought, node, index)
    }
}

fn push_value_here(
    sought: Sought,
    node: &Node,
    texts: &mut ItemList<JsWord>,
) -> Result<(), NoMemory>
    ensures { OnOk result (texts.new ≡ texts.old ++ value_here sought node.now) }
{
    if is_name_part(sought.part) {
        push_text(&node.kind, texts)?;
    }
    Ok(())
}

/// Puts the names of values in a child after those that are there, if something is looked for in it.
#[cycle(values)]
fn push_values_within(
    sought: Option<Sought>,
    child: &Node,
    texts: &mut ItemList<JsWord>,
) -> Result<(), NoMemory>
    ensures { OnOk result (texts.new ≡ texts.old ++ listed_within _ _ sought (values_in child.now)) }
{
    match sought {
        Some(sought) => push_values(sought, child, texts),
        None => Ok(()),
    }
}

/// Puts the names of values that are declared in a node after those that are there.
#[cycle(values)]
fn push_values(sought: Sought, node: &Node, texts: &mut ItemList<JsWord>) -> Result<(), NoMemory>
    ensures { OnOk result (texts.new ≡ texts.old ++ values_in node.now sought) }
{
    push_value_here(sought, node, texts)?;
    for i in 0..node.children.len() {
        push_values_within(value_in(sought, node, i), node.children.at(i), texts)?;
    }
    Ok(())
}

/// The names that a module declares as values.
pub(crate) fn value_names(alloc: Global, tree: &Module) -> Result<ItemList<JsWord>, NoMemory>
    ensures { IfOk result (λ texts. texts ≡ value_names tree.now) }
{
    let mut texts = ItemList::new(alloc);
    let stays = true;
    let part = Part::Scope;
    push_values(Sought { part, stays }, tree, &mut texts)?;
    let part = Part::Var;
    push_values(Sought { part, stays }, tree, &mut texts)?;
    Ok(texts)
}

fn push_type_here(typed: Typed, node: &Node, texts: &mut ItemList<JsWord>) -> Result<(), NoMemory>
    ensures { OnOk result (texts.new ≡ texts.old ++ type_here typed node.now) }
{
    if is_name(typed) {
        push_text(&node.kind, texts)?;
    }
    Ok(())
}

/// Puts the names of types in a child after those that are there, if something is looked for in it.
#[cycle(types)]
fn push_types_within(
    typed: Option<Typed>,
    child: &Node,
    texts: &mut ItemList<JsWord>,
) -> Result<(), NoMemory>
    ensures { OnOk result (texts.new ≡ texts.old ++ listed_within _ _ typed (types_in child.now)) }
{
    match typed {
        Some(typed) => push_types(typed, child, texts),
        None => Ok(()),
    }
}

/// Puts the names of types that are declared in a node after those that are there.
#[cycle(types)]
fn push_types(typed: Typed, node: &Node, texts: &mut ItemList<JsWord>) -> Result<(), NoMemory>
    ensures { OnOk result (texts.new ≡ texts.old ++ types_in node.now typed) }
{
    push_type_here(typed, node, texts)?;
    for i in 0..node.children.len() {
        push_types_within(type_in(typed, node, i), node.children.at(i), texts)?;
    }
    Ok(())
}

/// The names that the items of a module declare as types.
pub(crate) fn type_names(alloc: Global, tree: &Module) -> Result<ItemList<JsWord>, NoMemory>
    ensures { IfOk result (λ texts. texts ≡ type_names tree.now) }
{
    let mut texts = ItemList::new(alloc);
    push_types(Typed::Items, tree, &mut texts)?;
    Ok(texts)
}
