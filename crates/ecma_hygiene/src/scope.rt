//! Scopes by the texts that they declare.
ghost use Rattle.std.specs.Prelude.{◌≡◌, ◌++◌, [], ◌∷◌, List, ℕ, IfSome, IsNone, IfOk, OnOk, bytes_eq, cond, false, filter, not};
ghost use Rattle.ecma_hygiene.specs.Frames.{contexts_by, contexts_in, scopes_of};
ghost use Rattle.ecma_hygiene.specs.Ids.{contexts_of, has_context, innermost, is_block, is_body_block, is_function_body, is_own, own_ids};

use crate::declared::push_declared;
use crate::ids::has_context;
use crate::soughts::push_scope_soughts;
use ecma_scope::Role;
use ecma_tree::{Id, JsWord, Kind, NoMemory, Node, SyntaxContext};
use item_list::ItemList;
use std::alloc::Global;
use std::collections::HashMap;

/// The most ids that a scope keeps as a list; with more it keeps them by their texts.
const FEW: usize = 12;

/// What a scope declares.
#[derive(Drop)]
pub(crate) enum Declared {
    /// These ids.
    Few(ItemList<Id>),
    /// By their texts: ids in these contexts.
    Many(HashMap<JsWord, ItemList<SyntaxContext>>),
}

/// What a scope declares of an id: its text in any context, and in its own.
#[derive(Clone, Copy, Debug)]
pub(crate) struct Match {
    pub(crate) text: bool,
    pub(crate) id: bool,
}

fn match_among(ids: &ItemList<Id>, id: &Id) -> Match
    ensures text { result.text ≡ false → contexts_of ids.now id.now.0 ≡ [] }
    ensures id { result.id ≡ has_context id.now.1 (contexts_of ids.now id.now.0) }
{
    let mut text = false;
    for other in ids.as_slice() {
        if other.0 == id.0 {
            if other.1 == id.1 {
                return Match {
                    text: true,
                    id: true,
                };
            }
            text = true;
        }
    }
    Match { text, id: false }
}

fn match_by(contexts: &HashMap<JsWord, ItemList<SyntaxContext>>, id: &Id) -> Match
    ensures text { result.text ≡ false → contexts_by contexts.now id.now.0 ≡ [] }
    ensures id { result.id ≡ has_context id.now.1 (contexts_by contexts.now id.now.0) }
{
    match contexts.get(&id.0) {
        Some(ctxts) => Match {
            text: true,
            id: has_context(id.1, ctxts),
        },
        None => Match {
            text: false,
            id: false,
        },
    }
}

/// What a scope declares of an id.
pub(crate) fn match_in(scope: &Declared, id: &Id) -> Match
    ensures text { result.text ≡ false → contexts_in scope.now id.now.0 ≡ [] }
    ensures id { result.id ≡ has_context id.now.1 (contexts_in scope.now id.now.0) }
{
    match scope {
        Declared::Few(ids) => match_among(ids, id),
        Declared::Many(contexts) => match_by(contexts, id),
    }
}

/// Whether a scope declares an id.
pub(crate) fn declares_id(scope: &Declared, id: &Id) -> bool
    ensures { result ≡ has_context id.now.1 (contexts_in scope.now id.now.0) }
{
    match_in(scope, id).id
}

fn push_contexts_of(
    ids: &ItemList<Id>,
    text: &JsWord,
    so_far: &mut ItemList<SyntaxContext>,
) -> Result<(), NoMemory>
    ensures { OnOk result (so_far.new ≡ so_far.old ++ contexts_of ids.now text.now) }
{
    for id in ids.as_slice() {
        if id.0 == *text {
            so_far.push(id.1)?;
        }
    }
    Ok(())
}

fn push_contexts_by(
    contexts: &HashMap<JsWord, ItemList<SyntaxContext>>,
    text: &JsWord,
    so_far: &mut ItemList<SyntaxContext>,
) -> Result<(), NoMemory>
    ensures { OnOk result (so_far.new ≡ so_far.old ++ contexts_by contexts.now text.now) }
{
    match contexts.get(text) {
        Some(ctxts) => push_contexts(ctxts, so_far),
        None => Ok(()),
    }
}

/// Puts contexts after those that are there.
fn push_contexts(
    ctxts: &ItemList<SyntaxContext>,
    so_far: &mut ItemList<SyntaxContext>,
) -> Result<(), NoMemory>
    ensures { OnOk result (so_far.new ≡ so_far.old ++ ctxts.now) }
{
    for ctxt in ctxts.as_slice() {
        so_far.push(*ctxt)?;
    }
    Ok(())
}

/// Puts the contexts in which a scope declares a text after those that are there.
pub(crate) fn push_contexts_in(
    scope: &Declared,
    text: &JsWord,
    so_far: &mut ItemList<SyntaxContext>,
) -> Result<(), NoMemory>
    ensures { OnOk result (so_far.new ≡ so_far.old ++ contexts_in scope.now text.now) }
{
    match scope {
        Declared::Few(ids) => push_contexts_of(ids, text, so_far),
        Declared::Many(contexts) => push_contexts_by(contexts, text, so_far),
    }
}

/// The contexts in which a scope declares a text.
pub(crate) fn contexts_in(
    alloc: Global,
    scope: &Declared,
    text: &JsWord,
) -> Result<ItemList<SyntaxContext>, NoMemory>
    ensures { IfOk result (λ ctxts. ctxts ≡ contexts_in scope.now text.now) }
{
    let mut ctxts = ItemList::new(alloc);
    push_contexts_in(scope, text, &mut ctxts)?;
    Ok(ctxts)
}

fn add_context(
    alloc: Global,
    contexts: &mut HashMap<JsWord, ItemList<SyntaxContext>>,
    id: &Id,
) -> Result<(), NoMemory>
    ensures { OnOk result ((text : List ℕ) → contexts_by contexts.new text ≡ contexts_by contexts.old text ++ cond (bytes_eq id.now.0 text) (id.now.1 ∷ []) []) }
{
    let mut ctxts = match contexts.remove(&id.0) {
        Some(ctxts) => ctxts,
        None => ItemList::new(alloc),
    };
    ctxts.push(id.1)?;
    contexts.insert(id.0.clone()?, ctxts)?;
    Ok(())
}

/// The contexts of these ids by their texts.
fn contexts_by_text(
    alloc: Global,
    ids: &ItemList<Id>,
) -> Result<HashMap<JsWord, ItemList<SyntaxContext>>, NoMemory>
    ensures { IfOk result (λ contexts. (text : List ℕ) → contexts_by contexts text ≡ contexts_of ids.now text) }
{
    let mut contexts = HashMap::new(alloc);
    for id in ids.as_slice() {
        add_context(alloc, &mut contexts, id)?;
    }
    Ok(contexts)
}

/// The scope that declares these ids.
pub(crate) fn scope_of(alloc: Global, ids: ItemList<Id>) -> Result<Declared, NoMemory>
    ensures { IfOk result (λ scope. (text : List ℕ) → contexts_in scope text ≡ contexts_of ids text) }
{
    if ids.len() <= FEW {
        return Ok(Declared::Few(ids));
    }
    let contexts = contexts_by_text(alloc, &ids)?;
    Ok(Declared::Many(contexts))
}

fn is_function_body(role: Role) -> bool
    ensures { result ≡ is_function_body role }
{
    matches!(role, Role::Body)
}

fn is_block(kind: &Kind) -> bool
    ensures { result ≡ is_block kind.now }
{
    matches!(kind, Kind::BlockStmt)
}

/// Whether a node of this role and kind is the block that is the body of a function.
pub(crate) fn is_body_block(role: Role, kind: &Kind) -> bool
    ensures { result ≡ is_body_block role kind.now }
{
    is_function_body(role) && is_block(kind)
}

/// Whether an id of the body of a function is none that the parameters declare.
fn is_apart(parameters: &Declared, id: &Id) -> bool
    ensures { result ≡ not (has_context id.now.1 (contexts_in parameters.now id.now.0)) }
{
    !declares_id(parameters, id)
}

/// Takes the ids that the parameters declare out of those of the body of a function.
fn drop_parameters(body: bool, frames: &ItemList<Declared>, ids: &mut ItemList<Id>)
    ensures { ids.new ≡ filter (is_own body (innermost (scopes_of frames.now))) ids.old }
{
    if body {
        drop_innermost(frames, ids);
    }
}

/// Takes the ids that the innermost scope declares out of these.
fn drop_innermost(frames: &ItemList<Declared>, ids: &mut ItemList<Id>)
    ensures { ids.new ≡ filter (λ id. not (has_context id.1 (innermost (scopes_of frames.now) id.0))) ids.old }
{
    let count = frames.len();
    if count > 0 {
        let last = count - 1;
        let parameters = frames.at(last);
        ids.retain(|id| is_apart(parameters, id));
    }
}

/// The ids that the scope of a node declares.
pub(crate) fn own_ids(
    alloc: Global,
    role: Role,
    frames: &ItemList<Declared>,
    node: &Node,
) -> Result<ItemList<Id>, NoMemory>
    ensures { IfOk result (λ ids. ids ≡ own_ids role (innermost (scopes_of frames.now)) node.now) }
{
    let mut soughts = ItemList::new(alloc);
    push_scope_soughts(role, &node.kind, &mut soughts)?;
    let mut ids = ItemList::new(alloc);
    push_declared(alloc, &soughts, node, &mut ids)?;
    drop_parameters(is_body_block(role, &node.kind), frames, &mut ids);
    Ok(ids)
}
