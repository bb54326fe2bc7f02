//! The texts of all identifiers of a tree.
ghost use Rattle.std.specs.Prelude.{◌≡◌, ◌++◌, IfOk, OnOk};
ghost use Rattle.ecma_tree.specs.Gathering.{symbol_here, symbols_of};

use crate::cursor::Cursor;
use ecma_tree::{JsWord, Kind, NoMemory};
use item_list::ItemList;
use std::alloc::Global;

fn push_symbol(kind: &Kind, symbols: &mut ItemList<JsWord>) -> Result<(), NoMemory>
    ensures { OnOk result (symbols.new ≡ symbols.old ++ symbol_here kind.now) }
{
    if let Kind::Ident { sym, .. } = kind {
        symbols.push(sym.clone()?)?;
    }
    Ok(())
}

/// Where no name stands in the tree it is not looked into.
fn push_symbols(tree: &Cursor<'_>, symbols: &mut ItemList<JsWord>) -> Result<(), NoMemory>
    ensures { OnOk result (symbols.new ≡ symbols.old ++ symbols_of tree.now) }
{
    if !tree.summary().names() {
        return Ok(());
    }
    push_symbol(tree.kind(), symbols)?;
    for i in 0..tree.count() {
        push_symbols(&tree.child(i), symbols)?;
    }
    Ok(())
}

/// The texts of all identifiers of the tree in its order: a node comes before its children, and they come
/// from the first to the last. A text that stands in several places comes as often. Its only refusal is want of memory.
pub fn symbols(alloc: Global, tree: &Cursor<'_>) -> Result<ItemList<JsWord>, NoMemory>
    ensures { IfOk result (λ symbols. symbols ≡ symbols_of tree.now) }
{
    let mut symbols = ItemList::new(alloc);
    push_symbols(tree, &mut symbols)?;
    Ok(symbols)
}
