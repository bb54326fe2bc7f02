//! `export {}` where nothing else says that a text is a module.
ghost use Rattle.std.specs.Prelude.{◌≡◌, IfOk, OnOk};
ghost use Rattle.std.specs.List.{list_any};
ghost use Rattle.ecma_utils.specs.Statements.{is_declaration};
ghost use Rattle.ecma_lower.specs.Items.{items_of};
ghost use Rattle.ecma_lower.specs.Marking.{empty_export, has_module_declaration, marked};

use crate::items::{put_items, take_items};
use ecma_config::Config;
use ecma_tree::{DUMMY_SP, Module, ModuleItem, NoMemory, Node, Nodes, Sort, belongs};
use std::alloc::Global;

fn is_declaration(item: &Node) -> bool
    ensures { result ≡ is_declaration item.now }
{
    belongs(Sort::ModuleDecl, &item.kind)
}

/// Whether one of these items is an import or an export.
fn has_declaration(items: &[Node]) -> bool
    ensures { result ≡ list_any is_declaration items.now }
{
    for item in items {
        if is_declaration(item) {
            return true;
        }
    }
    false
}

/// Whether an import or an export, also one of types alone, stands among the items of a module.
pub fn has_module_declaration(tree: &Module) -> bool
    ensures { result ≡ has_module_declaration tree.now }
{
    match tree.children.get(0) {
        Some(list) => has_declaration(list.children.as_slice()),
        None => false,
    }
}

/// `export {}`
fn empty_export(alloc: Global) -> Result<ModuleItem, NoMemory>
    ensures { IfOk result (λ node. node ≡ empty_export) }
{
    Node::named_export(alloc, DUMMY_SP, false, Nodes::new(alloc), None, None)
}

/// Adds `export {}` at the end of a module exactly where the module that it was made of had an import or an export, it has none itself, and the option
/// `no_empty_export` is off. Its only refusal is want of memory.
#[tactic(auto, using(crate::proofs::Putting::putting))]
pub fn mark_module(
    alloc: Global,
    config: &Config,
    was_module: bool,
    tree: &mut Module,
) -> Result<(), NoMemory>
    ensures { OnOk result (tree.new ≡ marked config.now.no_empty_export was_module tree.old) }
{
    if config.no_empty_export || !was_module || has_module_declaration(tree) {
        return Ok(());
    }
    let mut items = take_items(alloc, tree);
    items.push(empty_export(alloc)?)?;
    put_items(tree, items);
    Ok(())
}
