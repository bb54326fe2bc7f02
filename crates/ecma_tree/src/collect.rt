//! The texts of all identifiers of a tree.
ghost use Rattle.std.specs.Prelude.{◌≡◌, ◌++◌, IfOk, OnOk};
ghost use Rattle.ecma_tree.specs.Gathering.{symbol_here, symbols_of};

use crate::node::Node;
use ecma_kind::{JsWord, Kind, NoMemory};
use item_list::ItemList;
use std::alloc::Global;

fn push_symbol(kind: &Kind, symbols: &mut ItemList<JsWord>) -> Result<(), NoMemory>
    ensures { OnOk result (symbols.new ≡ symbols.old ++ symbol_here kind.now) }
{
    if let Kind::Ident { sym, .. } = kind {
        symbols.push(sym.clone()?)?;
    }
    Ok(())
}

fn push_symbols(node: &Node, symbols: &mut ItemList<JsWord>) -> Result<(), NoMemory>
    ensures { OnOk result (symbols.new ≡ symbols.old ++ symbols_of node.now) }
{
    push_symbol(&node.kind, symbols)?;
    for child in node.children.as_slice() {
        push_symbols(child, symbols)?;
    }
    Ok(())
}

/// The texts of all identifiers of the tree in its order: a node comes before its children, and they come
/// from the first to the last. A text that stands in several places comes as often. Its only refusal is want of memory.
pub fn symbols(alloc: Global, node: &Node) -> Result<ItemList<JsWord>, NoMemory>
    ensures { IfOk result (λ symbols. symbols ≡ symbols_of node.now) }
{
    let mut symbols = ItemList::new(alloc);
    push_symbols(node, &mut symbols)?;
    Ok(symbols)
}
