//! The texts that bindings get.
ghost use Rattle.std.specs.Prelude.{◌≡◌, ◌++◌, ◌∷◌, ◌&&◌, not, List, ℕ, IfOk, OnOk, bytes_eq, filter};
ghost use Rattle.std.specs.Fmt.{decimal};
ghost use Rattle.std.specs.List.{list_any};
ghost use Rattle.ecma_hygiene.specs.declared.sight.Sight.{Sight};
ghost use Rattle.ecma_hygiene.specs.Ids.{Id, same_id};
ghost use Rattle.ecma_hygiene.specs.Sets.{has_id, has_new, has_text, is_declared_outside};
ghost use Rattle.ecma_hygiene.specs.Texts.{AreTexts, GetTexts, IsBaseOrNumbered, IsNumbered, bindings, declared_in, distinct, had_with, is_in_source, is_new, none, rule};

use crate::ids::{
    IdSet, TextSet, add_id, add_text, copy_id, has_id, has_text, is_empty, no_ids, no_texts,
};
use crate::naming::Named;
use crate::sight::{Meeting, Sight};
use crate::walk::Found;
use ecma_tree::{Id, JsWord, NoMemory};
use item_list::ItemList;
use std::alloc::Global;

/// What tells new bindings.
#[derive(Drop)]
struct NewIds {
    outside: IdSet,
    source: IdSet,
}

/// The ids that an identifier outside the source declares.
fn outside_ids(alloc: Global, seen: &ItemList<Sight>) -> Result<IdSet, NoMemory>
    ensures { IfOk result (λ ids. (id : Id) → has_id ids id ≡ is_declared_outside seen.now id) }
{
    let mut ids = no_ids(alloc);
    for sight in seen.as_slice() {
        if sight.declares && !sight.in_source {
            add_id(&mut ids, &sight.id)?;
        }
    }
    Ok(ids)
}

/// The ids of which an identifier stands in the source.
fn source_ids(alloc: Global, seen: &ItemList<Sight>) -> Result<IdSet, NoMemory>
    ensures { IfOk result (λ ids. (id : Id) → has_id ids id ≡ is_in_source seen.now id) }
{
    let mut ids = no_ids(alloc);
    for sight in seen.as_slice() {
        if sight.in_source {
            add_id(&mut ids, &sight.id)?;
        }
    }
    Ok(ids)
}

/// Only an id that is declared outside the source can be new, so where there is none the source is not looked at.
fn new_ids(alloc: Global, seen: &ItemList<Sight>) -> Result<NewIds, NoMemory>
    ensures { IfOk result (λ ids. (id : Id) → has_new ids id ≡ is_new seen.now id) }
{
    let outside = outside_ids(alloc, seen)?;
    if is_empty(&outside) {
        let source = no_ids(alloc);
        return Ok(NewIds { outside, source });
    }
    let source = source_ids(alloc, seen)?;
    Ok(NewIds { outside, source })
}

/// Whether a binding is new.
fn is_new(ids: &NewIds, id: &Id) -> bool
    ensures { result ≡ has_new ids.now id.now }
{
    has_id(&ids.outside, id) && !has_id(&ids.source, id)
}

/// Puts an id after those that are there, if it was not met.
fn push_distinct(id: &Id, met: &mut IdSet, ids: &mut ItemList<Id>) -> Result<(), NoMemory>
    ensures { OnOk result ((rest : List Id) → ids.new ++ distinct (has_id met.new) rest ≡ ids.old ++ distinct (has_id met.old) (id.now ∷ rest)) }
{
    if has_id(met, id) {
        return Ok(());
    }
    add_id(met, id)?;
    ids.push(copy_id(id)?)?;
    Ok(())
}

/// These ids, each where it stands first.
fn distinct(alloc: Global, ids: &ItemList<Id>) -> Result<ItemList<Id>, NoMemory>
    ensures { IfOk result (λ found. found ≡ distinct none ids.now) }
{
    let mut met = no_ids(alloc);
    let mut found = ItemList::new(alloc);
    for id in ids.as_slice() {
        push_distinct(id, &mut met, &mut found)?;
    }
    Ok(found)
}

/// The texts of the identifiers that are not new.
fn kept_texts(alloc: Global, seen: &ItemList<Sight>, new: &NewIds) -> Result<TextSet, NoMemory>
    ensures { IfOk result (λ texts. (text : List ℕ) → has_text texts text ≡ list_any (λ x. bytes_eq x.id.0 text && not (has_new new.now x.id)) seen.now) }
{
    let mut texts = no_texts(alloc);
    for sight in seen.as_slice() {
        if !is_new(new, &sight.id) {
            add_text(&mut texts, &sight.id.0)?;
        }
    }
    Ok(texts)
}

/// The bindings that meet a name that is not new.
fn met_ids(alloc: Global, met: &ItemList<Meeting>, new: &NewIds) -> Result<IdSet, NoMemory>
    ensures { IfOk result (λ ids. (id : Id) → has_id ids id ≡ list_any (λ m. same_id m.binding id && not (has_new new.now m.name)) met.now) }
{
    let mut ids = no_ids(alloc);
    for meeting in met.as_slice() {
        if !is_new(new, &meeting.name) {
            add_id(&mut ids, &meeting.binding)?;
        }
    }
    Ok(ids)
}

/// The ids of the identifiers that declare a new binding.
fn new_declarations(
    alloc: Global,
    seen: &ItemList<Sight>,
    new: &NewIds,
) -> Result<ItemList<Id>, NoMemory>
    ensures { IfOk result (λ found. found ≡ filter (has_new new.now) (declared_in seen.now)) }
{
    let mut found = ItemList::new(alloc);
    for sight in seen.as_slice() {
        if sight.declares && is_new(new, &sight.id) {
            found.push(copy_id(&sight.id)?)?;
        }
    }
    Ok(found)
}

/// The new bindings, in the order of their first declarations.
fn new_bindings(
    alloc: Global,
    seen: &ItemList<Sight>,
    new: &NewIds,
) -> Result<ItemList<Id>, NoMemory>
    ensures { IfOk result (λ found. found ≡ filter (has_new new.now) (bindings seen.now)) }
{
    let ids = new_declarations(alloc, seen, new)?;
    let found = distinct(alloc, &ids)?;
    Ok(found)
}

/// The ids of the identifiers that declare a binding of the source which meets a name.
fn changing_declarations(
    alloc: Global,
    seen: &ItemList<Sight>,
    new: &NewIds,
    met: &IdSet,
) -> Result<ItemList<Id>, NoMemory>
    ensures { IfOk result (λ found. found ≡ filter (λ id. not (has_new new.now id) && has_id met.now id) (declared_in seen.now)) }
{
    let mut found = ItemList::new(alloc);
    for sight in seen.as_slice() {
        if sight.declares && has_id(met, &sight.id) && !is_new(new, &sight.id) {
            found.push(copy_id(&sight.id)?)?;
        }
    }
    Ok(found)
}

/// The bindings of the source that meet a name, in the order of their first declarations.
fn changing_bindings(
    alloc: Global,
    seen: &ItemList<Sight>,
    new: &NewIds,
    met: &IdSet,
) -> Result<ItemList<Id>, NoMemory>
    ensures { IfOk result (λ found. found ≡ filter (λ id. not (has_new new.now id) && has_id met.now id) (bindings seen.now)) }
{
    let ids = changing_declarations(alloc, seen, new, met)?;
    let found = distinct(alloc, &ids)?;
    Ok(found)
}

/// A text with a number after it.
fn with_number(alloc: Global, text: &JsWord, number: u64) -> Result<JsWord, NoMemory>
    ensures { IfOk result (λ word. word ≡ text.now ++ decimal number) }
{
    let text = text.as_str();
    let written = format!(in alloc; "{text}{number}")?;
    JsWord::new(alloc, written.as_str())
}

/// The text with the least number from 1 after it that none has.
fn numbered(alloc: Global, had: &TextSet, text: &JsWord) -> Result<JsWord, NoMemory>
    ensures { IfOk result (λ word. IsNumbered (has_text had.now) text.now word) }
{
    for number in 1..u64::MAX {
        let word = with_number(alloc, text, number)?;
        if !has_text(had, &word) {
            return Ok(word);
        }
    }
    Err(NoMemory)
}

/// The text itself where none has it, else with a number after it.
fn base_or_numbered(alloc: Global, had: &TextSet, text: &JsWord) -> Result<JsWord, NoMemory>
    ensures { IfOk result (λ word. IsBaseOrNumbered (has_text had.now) text.now word) }
{
    if !has_text(had, text) {
        return Ok(text.clone()?);
    }
    let word = numbered(alloc, had, text)?;
    Ok(word)
}

/// The text that a binding gets where these are had.
fn text_for(alloc: Global, may_keep: bool, had: &TextSet, text: &JsWord) -> Result<JsWord, NoMemory>
    ensures { IfOk result (λ word. rule may_keep (has_text had.now) text.now word) }
{
    if may_keep {
        let word = base_or_numbered(alloc, had, text)?;
        return Ok(word);
    }
    let word = numbered(alloc, had, text)?;
    Ok(word)
}

/// The texts that these bindings get one after the other, which are then had too.
fn get_texts(
    alloc: Global,
    may_keep: bool,
    ids: &ItemList<Id>,
    had: &mut TextSet,
) -> Result<ItemList<Named>, NoMemory>
    ensures names { IfOk result (λ names. GetTexts may_keep (has_text had.old) ids.now names) }
    ensures had { IfOk result (λ names. (text : List ℕ) → has_text had.new text ≡ had_with names (has_text had.old) text) }
{
    let mut names = ItemList::new(alloc);
    for i in 0..ids.len() {
        let id = ids.at(i);
        let text = text_for(alloc, may_keep, had, &id.0)?;
        add_text(had, &text)?;
        let id = copy_id(id)?;
        names.push(Named { id, text })?;
    }
    Ok(names)
}

/// The texts that the bindings of a tree get.
pub(crate) fn texts_of(alloc: Global, found: &Found) -> Result<ItemList<Named>, NoMemory>
    ensures { IfOk result (λ names. AreTexts found.now.sights found.now.meetings names) }
{
    let new = new_ids(alloc, &found.sights)?;
    let met = met_ids(alloc, &found.meetings, &new)?;
    let fresh = new_bindings(alloc, &found.sights, &new)?;
    let changing = changing_bindings(alloc, &found.sights, &new, &met)?;
    if fresh.is_empty() && changing.is_empty() {
        return Ok(ItemList::new(alloc));
    }
    let mut had = kept_texts(alloc, &found.sights, &new)?;
    let mut names = get_texts(alloc, true, &fresh, &mut had)?;
    let changed = get_texts(alloc, false, &changing, &mut had)?;
    names.append(changed)?;
    Ok(names)
}
