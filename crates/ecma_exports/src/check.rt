//! The checks.
ghost use Rattle.std.specs.Prelude.{◌≡◌, ◌<◌, ℕ, List, length, slice_get, Some, true, IfOk, OnOk, bytes_eq, cond};
ghost use Rattle.std.specs.HashSet.{contains};
ghost use Rattle.ecma_walks.specs.Listing.{first_item};
ghost use Rattle.ecma_exports.specs.Exports.{Answers, first_among, first_captured, first_unbound, is_among};

use crate::error::ExportError;
use crate::names::texts_of;
use crate::place::Place;
use ecma_tree::{JsWord, Module, NoMemory, SyntaxContext};
use item_list::ItemList;
use std::alloc::Global;
use std::collections::HashSet;

fn add_text(texts: &mut HashSet<JsWord>, text: &JsWord) -> Result<(), NoMemory>
    ensures { OnOk result ((other : List ℕ) → contains bytes_eq texts.new other
        ≡ cond (bytes_eq text.now other) true (contains bytes_eq texts.old other)) }
{
    texts.insert(text.clone()?)?;
    Ok(())
}

fn text_set(alloc: Global, texts: &ItemList<JsWord>) -> Result<HashSet<JsWord>, NoMemory>
    ensures { IfOk result (λ set. (text : List ℕ) → contains bytes_eq set text ≡ is_among texts.now text) }
{
    let mut set = HashSet::new(alloc);
    for i in 0..texts.len() {
        add_text(&mut set, texts.at(i))?;
    }
    Ok(set)
}

/// The first of some names, if there is one.
fn first_of(names: &ItemList<JsWord>) -> Result<Option<JsWord>, NoMemory>
    ensures { IfOk result (λ first. first ≡ first_item (List ℕ) names.now) }
{
    if names.len() == 0 {
        return Ok(None);
    }
    let name = names.at(0).clone()?;
    Ok(Some(name))
}

fn name_at(names: &ItemList<JsWord>, index: usize) -> Result<JsWord, NoMemory>
    requires { index < length names.now }
    ensures { IfOk result (λ name. slice_get names.now index ≡ Some name) }
{
    let name = names.at(index).clone()?;
    Ok(name)
}

/// The first of some names that is one of the others, if there is one.
fn first_among(
    names: &ItemList<JsWord>,
    others: &ItemList<JsWord>,
    set: &HashSet<JsWord>,
) -> Result<Option<JsWord>, NoMemory>
    requires { (text : List ℕ) → contains bytes_eq set.now text ≡ is_among others.now text }
    ensures { IfOk result (λ first. first ≡ first_among others.now names.now) }
{
    for i in 0..names.len() {
        if set.contains(names.at(i)) {
            let name = name_at(names, i)?;
            return Ok(Some(name));
        }
    }
    Ok(None)
}

/// The first name that is exported in braces and names nothing.
fn first_unbound(
    alloc: Global,
    free: SyntaxContext,
    tree: &Module,
) -> Result<Option<JsWord>, NoMemory>
    ensures { IfOk result (λ first. first ≡ first_unbound free tree.now) }
{
    let names = texts_of(alloc, free, Place::Lists, tree)?;
    first_of(&names)
}

/// The first name that is declared behind `export` and would be captured.
fn first_captured(
    alloc: Global,
    free: SyntaxContext,
    tree: &Module,
) -> Result<Option<JsWord>, NoMemory>
    ensures { IfOk result (λ first. first ≡ first_captured free tree.now) }
{
    let names = texts_of(alloc, free, Place::Declarations, tree)?;
    let others = texts_of(alloc, free, Place::Anywhere, tree)?;
    let set = text_set(alloc, &others)?;
    first_among(&names, &others, &set)
}

fn answer(unbound: Option<JsWord>, captured: Option<JsWord>) -> Result<(), ExportError>
    ensures { Answers result unbound captured }
{
    match unbound {
        Some(name) => Err(ExportError::Unbound { name }),
        None => match captured {
            Some(name) => Err(ExportError::Captured { name }),
            None => Ok(()),
        },
    }
}

/// Tells, of a resolved module in which free names have this context, the first name that it exports in braces and no scope declares; or else the first that it
/// declares behind `export`, `export default` aside, and whose text an identifier has that stays in the output and is free (docs/SCOPES.md). `Ok` comes exactly
/// where there is neither. It is asked of the module without the imports and exports that go (docs/ELISION.md); what goes with the types is not asked.
pub fn check_exports(alloc: Global, free: SyntaxContext, tree: &Module) -> Result<(), ExportError>
    ensures { Answers result (first_unbound free tree.now) (first_captured free tree.now) }
{
    let unbound = first_unbound(alloc, free, tree)?;
    let captured = first_captured(alloc, free, tree)?;
    answer(unbound, captured)
}
