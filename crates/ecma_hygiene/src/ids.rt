//! Sets of ids and of texts, and contexts.
ghost use Rattle.std.specs.Prelude.{◌≡◌, ◌||◌, IfOk, OnOk, IsTrue, List, ℕ, false};
ghost use Rattle.ecma_hygiene.specs.Ids.{Id, has_context, same_id};
ghost use Rattle.ecma_hygiene.specs.Sets.{has_id, has_text};
ghost use Rattle.ecma_hygiene.specs.Texts.{with_text};

use ecma_tree::{Id, JsWord, NoMemory, SyntaxContext};
use item_list::ItemList;
use std::alloc::Global;
use std::collections::HashMap;

/// Whether a context is among these.
pub(crate) fn has_context(ctxt: SyntaxContext, ctxts: &ItemList<SyntaxContext>) -> bool
    ensures { result ≡ has_context ctxt ctxts.now }
{
    for other in ctxts.as_slice() {
        if ctxt == *other {
            return true;
        }
    }
    false
}

/// A set of ids.
#[derive(Drop)]
pub(crate) struct IdSet {
    ids: HashMap<Id, bool>,
}

/// The set of none.
pub(crate) fn no_ids(alloc: Global) -> IdSet
    ensures { (id : Id) → has_id result id ≡ false }
{
    IdSet {
        ids: HashMap::new(alloc),
    }
}

/// Whether a set has no ids.
pub(crate) fn is_empty(ids: &IdSet) -> bool
    ensures { IsTrue result → (id : Id) → has_id ids.now id ≡ false }
{
    ids.ids.is_empty()
}

pub(crate) fn has_id(ids: &IdSet, id: &Id) -> bool
    ensures { result ≡ has_id ids.now id.now }
{
    !is_empty(ids) && ids.ids.contains_key(id)
}

/// A pair of the same text and context.
pub(crate) fn copy_id(id: &Id) -> Result<Id, NoMemory>
    ensures { IfOk result (λ copy. copy ≡ id.now) }
{
    Ok((id.0.clone()?, id.1))
}

pub(crate) fn add_id(ids: &mut IdSet, id: &Id) -> Result<(), NoMemory>
    ensures { OnOk result ((other : Id) → has_id ids.new other ≡ (same_id id.now other || has_id ids.old other)) }
{
    ids.ids.insert(copy_id(id)?, true)?;
    Ok(())
}

/// A set of texts.
#[derive(Drop)]
pub(crate) struct TextSet {
    texts: HashMap<JsWord, bool>,
}

/// The set of none.
pub(crate) fn no_texts(alloc: Global) -> TextSet
    ensures { (text : List ℕ) → has_text result text ≡ false }
{
    TextSet {
        texts: HashMap::new(alloc),
    }
}

pub(crate) fn has_text(texts: &TextSet, text: &JsWord) -> bool
    ensures { result ≡ has_text texts.now text.now }
{
    texts.texts.contains_key(text)
}

pub(crate) fn add_text(texts: &mut TextSet, text: &JsWord) -> Result<(), NoMemory>
    ensures { OnOk result ((other : List ℕ) → has_text texts.new other ≡ with_text text.now (has_text texts.old) other) }
{
    texts.texts.insert(text.clone()?, true)?;
    Ok(())
}
