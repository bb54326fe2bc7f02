//! The names of exports of a module, and the identifiers that no scope declares.
ghost use Rattle.std.specs.Prelude.{◌≡◌, ◌++◌, IfOk, OnOk};
ghost use Rattle.ecma_walks.specs.Listing.{listed_within};
ghost use Rattle.ecma_exports.specs.Places.{free_text, text_of, texts_by, texts_here, texts_in};

use crate::place::{Place, place_in};
use ecma_tree::{JsWord, Kind, Module, NoMemory, Node, SyntaxContext};
use item_list::ItemList;
use std::alloc::Global;

fn push_text(kind: &Kind, texts: &mut ItemList<JsWord>) -> Result<(), NoMemory>
    ensures { OnOk result (texts.new ≡ texts.old ++ text_of kind.now) }
{
    if let Kind::Ident { sym, .. } = kind {
        texts.push(sym.clone()?)?;
    }
    Ok(())
}

fn push_free(free: SyntaxContext, kind: &Kind, texts: &mut ItemList<JsWord>) -> Result<(), NoMemory>
    ensures { OnOk result (texts.new ≡ texts.old ++ free_text free kind.now) }
{
    if let Kind::Ident { sym, ctxt, .. } = kind {
        if *ctxt == free {
            texts.push(sym.clone()?)?;
        }
    }
    Ok(())
}

fn push_here(
    free: SyntaxContext,
    place: Place,
    node: &Node,
    texts: &mut ItemList<JsWord>,
) -> Result<(), NoMemory>
    ensures { OnOk result (texts.new ≡ texts.old ++ texts_here free place node.now) }
{
    match place {
        Place::Names => push_text(&node.kind, texts),
        Place::Local => push_free(free, &node.kind, texts),
        Place::Anywhere => push_free(free, &node.kind, texts),
        _ => Ok(()),
    }
}

/// Puts the names in a child after those that are there, if something is looked for in it.
#[cycle(texts)]
fn push_within(
    free: SyntaxContext,
    place: Option<Place>,
    child: &Node,
    texts: &mut ItemList<JsWord>,
) -> Result<(), NoMemory>
    ensures { OnOk result (texts.new ≡ texts.old ++ listed_within _ _ place (texts_in free child.now)) }
{
    match place {
        Some(place) => push_texts(free, place, child, texts),
        None => Ok(()),
    }
}

/// Puts the names in a node after those that are there.
#[cycle(texts)]
fn push_texts(
    free: SyntaxContext,
    place: Place,
    node: &Node,
    texts: &mut ItemList<JsWord>,
) -> Result<(), NoMemory>
    ensures { OnOk result (texts.new ≡ texts.old ++ texts_in free node.now place) }
{
    push_here(free, place, node, texts)?;
    for i in 0..node.children.len() {
        push_within(free, place_in(place, node, i), node.children.at(i), texts)?;
    }
    Ok(())
}

/// The names in a module that stand in such places.
pub(crate) fn texts_of(
    alloc: Global,
    free: SyntaxContext,
    place: Place,
    tree: &Module,
) -> Result<ItemList<JsWord>, NoMemory>
    ensures { IfOk result (λ texts. texts ≡ texts_in free tree.now place) }
{
    let mut texts = ItemList::new(alloc);
    push_texts(free, place, tree, &mut texts)?;
    Ok(texts)
}
