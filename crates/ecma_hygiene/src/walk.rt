//! The identifiers of a tree, and the bindings that meet a name of their text.
ghost use Rattle.std.specs.Prelude.{◌≡◌, ◌++◌, [], ◌∷◌, IfOk, OnOk, None, Some, ℕ, List, cond, false, map, true};
ghost use Rattle.std.specs.List.{list_any};
ghost use Rattle.ecma_tree.specs.declared.node.Node.{out-Node};
ghost use Rattle.ecma_scope.specs.Resolved.{is_name};
ghost use Rattle.ecma_scope.specs.Scopes.{opens};
ghost use Rattle.ecma_hygiene.specs.Frames.{around_children, around_of, around_within, contexts_in, scopes_of};
ghost use Rattle.ecma_hygiene.specs.Ids.{declares, has_context, innermost, is_body_block, own_ids, scope_soughts, soughts_in};
ghost use Rattle.ecma_hygiene.specs.Sights.{Around, beside, around_child, beside_parameters, hidden, hides, meet, meetings, meetings_at, own_scope, sight_by, sights, sights_at, stands_in_source};
ghost use Rattle.ecma_hygiene.specs.Walks.{gathered_from};

use crate::ids::copy_id;
use crate::scope::{
    Declared, contexts_in, declares_id, is_body_block, match_in, own_ids, push_contexts_in,
    scope_of,
};
use crate::sight::{Meeting, Sight};
use crate::soughts::{is_declared, push_scope_soughts, soughts_in};
use ecma_scope::{Role, Sought, covers, is_there, opens, role_by};
use ecma_tree::{Id, Kind, Module, NoMemory, Node, Span, SyntaxContext};
use item_list::ItemList;
use std::alloc::Global;

/// What a walk finds.
#[derive(Drop)]
pub(crate) struct Found {
    pub(crate) sights: ItemList<Sight>,
    pub(crate) meetings: ItemList<Meeting>,
}

fn is_name(role: Role) -> bool
    ensures { result ≡ is_name role }
{
    matches!(role, Role::Name)
}

fn stands_in_source(span: Span) -> bool
    ensures { result ≡ stands_in_source span }
{
    !(span.lo == 0 && span.hi == 0)
}

fn push_sight(
    role: Role,
    soughts: &ItemList<Sought>,
    node: &Node,
    sights: &mut ItemList<Sight>,
) -> Result<(), NoMemory>
    ensures { OnOk result (sights.new ≡ sights.old ++ sight_by (is_name role) (list_any declares soughts.now) (out-Node node.now).span (out-Node node.now).kind) }
{
    if is_name(role) {
        return Ok(());
    }
    if let Kind::Ident { sym, ctxt, .. } = &node.kind {
        sights.push(Sight {
            id: (sym.clone()?, *ctxt),
            in_source: stands_in_source(node.span),
            declares: is_declared(soughts),
        })?;
    }
    Ok(())
}

/// What is shadowed with one scope more further in.
fn pass_scope(
    alloc: Global,
    frame: &Declared,
    id: &Id,
    so_far: &mut ItemList<SyntaxContext>,
) -> Result<(), NoMemory>
    ensures { OnOk result (so_far.new ≡ cond (has_context id.now.1 (contexts_in frame.now id.now.0)) [] (so_far.old ++ contexts_in frame.now id.now.0)) }
{
    if declares_id(frame, id) {
        *so_far = ItemList::new(alloc);
        Ok(())
    } else {
        push_contexts_in(frame, &id.0, so_far)
    }
}

/// Whether a scope may declare the text of this id further in than the one that declares the id.
fn may_hide(frames: &ItemList<Declared>, id: &Id) -> bool
    ensures { result ≡ false → hidden (scopes_of frames.now) id.now [] ≡ [] }
{
    let mut count = frames.len();
    while count > 0 {
        count -= 1;
        let found = match_in(frames.at(count), id);
        if found.text {
            return !found.id;
        }
    }
    false
}

/// The contexts in which scopes declare a text that are further in than the one that declares this id.
fn hidden(
    alloc: Global,
    frames: &ItemList<Declared>,
    id: &Id,
) -> Result<ItemList<SyntaxContext>, NoMemory>
    ensures { IfOk result (λ ctxts. ctxts ≡ hidden (scopes_of frames.now) id.now []) }
{
    let mut so_far = ItemList::new(alloc);
    if !may_hide(frames, id) {
        return Ok(so_far);
    }
    for frame in frames.as_slice() {
        pass_scope(alloc, frame, id, &mut so_far)?;
    }
    Ok(so_far)
}

fn push_meet(
    name: &Id,
    ctxts: &ItemList<SyntaxContext>,
    meetings: &mut ItemList<Meeting>,
) -> Result<(), NoMemory>
    ensures { OnOk result (meetings.new ≡ meetings.old ++ meet name.now ctxts.now) }
{
    for ctxt in ctxts.as_slice() {
        meetings.push(Meeting {
            name: copy_id(name)?,
            binding: (name.0.clone()?, *ctxt),
        })?;
    }
    Ok(())
}

fn push_hides(
    alloc: Global,
    role: Role,
    frames: &ItemList<Declared>,
    kind: &Kind,
    meetings: &mut ItemList<Meeting>,
) -> Result<(), NoMemory>
    ensures { OnOk result (meetings.new ≡ meetings.old ++ hides (is_name role) (scopes_of frames.now) kind.now) }
{
    if is_name(role) {
        return Ok(());
    }
    if let Kind::Ident { sym, ctxt, .. } = kind {
        let id = (sym.clone()?, *ctxt);
        let ctxts = hidden(alloc, frames, &id)?;
        push_meet(&id, &ctxts, meetings)?;
    }
    Ok(())
}

fn push_beside(
    binding: &Id,
    ctxts: &ItemList<SyntaxContext>,
    meetings: &mut ItemList<Meeting>,
) -> Result<(), NoMemory>
    ensures { OnOk result (meetings.new ≡ meetings.old ++ beside binding.now ctxts.now) }
{
    for ctxt in ctxts.as_slice() {
        meetings.push(Meeting {
            name: (binding.0.clone()?, *ctxt),
            binding: copy_id(binding)?,
        })?;
    }
    Ok(())
}

fn push_beside_parameters(
    alloc: Global,
    parameters: &Declared,
    ids: &ItemList<Id>,
    meetings: &mut ItemList<Meeting>,
) -> Result<(), NoMemory>
    ensures { OnOk result (meetings.new ≡ meetings.old ++ beside_parameters (contexts_in parameters.now) ids.now) }
{
    for id in ids.as_slice() {
        let ctxts = contexts_in(alloc, parameters, &id.0)?;
        push_beside(id, &ctxts, meetings)?;
    }
    Ok(())
}

fn push_beside_innermost(
    alloc: Global,
    frames: &ItemList<Declared>,
    ids: &ItemList<Id>,
    meetings: &mut ItemList<Meeting>,
) -> Result<(), NoMemory>
    ensures { OnOk result (meetings.new ≡ meetings.old ++ beside_parameters (innermost (scopes_of frames.now)) ids.now) }
{
    let count = frames.len();
    if count == 0 {
        return Ok(());
    }
    let last = count - 1;
    push_beside_parameters(alloc, frames.at(last), ids, meetings)?;
    Ok(())
}

/// The scope of a node that opens one; what stands beside parameters is put after the meetings that are there.
fn opened_scope(
    alloc: Global,
    role: Role,
    frames: &ItemList<Declared>,
    node: &Node,
    meetings: &mut ItemList<Meeting>,
) -> Result<Declared, NoMemory>
    ensures scope { IfOk result (λ scope. (text : List ℕ) → contexts_in scope text ≡ own_scope role (scopes_of frames.now) node.now text) }
    ensures meetings { OnOk result (meetings.new ≡ meetings.old ++ cond (is_body_block role (out-Node node.now).kind) (beside_parameters (innermost (scopes_of frames.now)) (own_ids role (innermost (scopes_of frames.now)) node.now)) []) }
{
    let ids = own_ids(alloc, role, frames, node)?;
    if is_body_block(role, &node.kind) {
        push_beside_innermost(alloc, frames, &ids, meetings)?;
    }
    scope_of(alloc, ids)
}

/// Puts what is looked for after what is there.
fn push_soughts(soughts: &ItemList<Sought>, inner: &mut ItemList<Sought>) -> Result<(), NoMemory>
    ensures { OnOk result (inner.new ≡ inner.old ++ soughts.now) }
{
    for sought in soughts.as_slice() {
        inner.push(*sought)?;
    }
    Ok(())
}

/// What is looked for in the children of a node that opens a scope.
fn inner_soughts(
    alloc: Global,
    role: Role,
    soughts: &ItemList<Sought>,
    node: &Node,
) -> Result<ItemList<Sought>, NoMemory>
    ensures { IfOk result (λ inner. inner ≡ soughts.now ++ scope_soughts role (out-Node node.now).kind) }
{
    let mut inner = ItemList::new(alloc);
    push_soughts(soughts, &mut inner)?;
    push_scope_soughts(role, &node.kind, &mut inner)?;
    Ok(inner)
}

/// Puts the identifiers of a node, and what meets in it, after those that are there.
#[cycle(walking)]
fn walk(
    alloc: Global,
    role: Role,
    soughts: &ItemList<Sought>,
    frames: &mut ItemList<Declared>,
    node: &Node,
    found: &mut Found,
) -> Result<(), NoMemory>
    ensures sights { OnOk result (found.new.sights ≡ found.old.sights ++ sights_at node.now (around_of role soughts.now frames.old)) }
    ensures meetings { OnOk result (found.new.meetings ≡ found.old.meetings ++ meetings_at node.now (around_of role soughts.now frames.old)) }
    ensures frames { OnOk result (frames.new ≡ frames.old) }
{
    push_sight(role, soughts, node, &mut found.sights)?;
    if opens(role, node) {
        walk_opened(alloc, role, soughts, frames, node, found)?;
        return Ok(());
    }
    push_hides(alloc, role, frames, &node.kind, &mut found.meetings)?;
    walk_children(alloc, role, soughts, frames, node, found)?;
    Ok(())
}

/// The same of a node that opens a scope, but for itself as an identifier.
#[cycle(walking)]
fn walk_opened(
    alloc: Global,
    role: Role,
    soughts: &ItemList<Sought>,
    frames: &mut ItemList<Declared>,
    node: &Node,
    found: &mut Found,
) -> Result<(), NoMemory>
    requires { opens role node.now ≡ true }
    ensures sights { OnOk result (found.new.sights ≡ found.old.sights ++ gathered_from Around Sight (around_child (around_of role soughts.now frames.old) node.now) 0 (map sights_at (out-Node node.now).children)) }
    ensures meetings { OnOk result (found.new.meetings ≡ found.old.meetings ++ meetings_at node.now (around_of role soughts.now frames.old)) }
    ensures frames { OnOk result (frames.new ≡ frames.old) }
{
    let scope = opened_scope(alloc, role, frames, node, &mut found.meetings)?;
    push_hides(alloc, role, frames, &node.kind, &mut found.meetings)?;
    let inner = inner_soughts(alloc, role, soughts, node)?;
    walk_scope(alloc, role, &inner, frames, scope, node, found)?;
    Ok(())
}

/// The same of the children of a node that opens no scope.
#[cycle(walking)]
fn walk_children(
    alloc: Global,
    role: Role,
    soughts: &ItemList<Sought>,
    frames: &mut ItemList<Declared>,
    node: &Node,
    found: &mut Found,
) -> Result<(), NoMemory>
    ensures sights { OnOk result (found.new.sights ≡ found.old.sights ++ gathered_from Around Sight (around_children role soughts.now frames.old None node.now) 0 (map sights_at (out-Node node.now).children)) }
    ensures meetings { OnOk result (found.new.meetings ≡ found.old.meetings ++ gathered_from Around Meeting (around_children role soughts.now frames.old None node.now) 0 (map meetings_at (out-Node node.now).children)) }
    ensures frames { OnOk result (frames.new ≡ frames.old) }
{
    let sourced = is_there(node, 1);
    for i in 0..node.children.len() {
        let inner = role_by(role, &node.kind, sourced, i);
        walk_within(
            alloc,
            inner,
            soughts,
            frames,
            node,
            i,
            node.children.at(i),
            found,
        )?;
    }
    Ok(())
}

/// The same of the child at an index of a node in which this is looked for.
#[cycle(walking)]
fn walk_within(
    alloc: Global,
    role: Role,
    soughts: &ItemList<Sought>,
    frames: &mut ItemList<Declared>,
    node: &Node,
    index: usize,
    child: &Node,
    found: &mut Found,
) -> Result<(), NoMemory>
    ensures sights { OnOk result (found.new.sights ≡ found.old.sights ++ sights_at child.now (around_of role (soughts_in soughts.now node.now index) frames.old)) }
    ensures meetings { OnOk result (found.new.meetings ≡ found.old.meetings ++ meetings_at child.now (around_of role (soughts_in soughts.now node.now index) frames.old)) }
    ensures frames { OnOk result (frames.new ≡ frames.old) }
{
    if soughts.is_empty() {
        walk(alloc, role, soughts, frames, child, found)?;
        return Ok(());
    }
    let within = soughts_in(alloc, soughts, node, index)?;
    walk(alloc, role, &within, frames, child, found)?;
    Ok(())
}

/// The same of the children of a node that opens this scope.
#[cycle(walking)]
fn walk_scope(
    alloc: Global,
    role: Role,
    soughts: &ItemList<Sought>,
    frames: &mut ItemList<Declared>,
    scope: Declared,
    node: &Node,
    found: &mut Found,
) -> Result<(), NoMemory>
    ensures sights { OnOk result (found.new.sights ≡ found.old.sights ++ gathered_from Around Sight (around_children role soughts.now frames.old (Some scope) node.now) 0 (map sights_at (out-Node node.now).children)) }
    ensures meetings { OnOk result (found.new.meetings ≡ found.old.meetings ++ gathered_from Around Meeting (around_children role soughts.now frames.old (Some scope) node.now) 0 (map meetings_at (out-Node node.now).children)) }
    ensures frames { OnOk result (frames.new ≡ frames.old) }
{
    let sourced = is_there(node, 1);
    let mut scope = scope;
    for i in 0..node.children.len() {
        let within = soughts_in(alloc, soughts, node, i)?;
        let covered = covers(role, &node.kind, i);
        let child = node.children.at(i);
        scope = walk_covered(
            alloc,
            role_by(role, &node.kind, sourced, i),
            &within,
            frames,
            scope,
            covered,
            child,
            found,
        )?;
    }
    Ok(())
}

/// The same of a node in one scope more, if that covers the node; gives that scope back.
#[cycle(walking)]
fn walk_covered(
    alloc: Global,
    role: Role,
    soughts: &ItemList<Sought>,
    frames: &mut ItemList<Declared>,
    scope: Declared,
    covered: bool,
    node: &Node,
    found: &mut Found,
) -> Result<Declared, NoMemory>
    ensures sights { OnOk result (found.new.sights ≡ found.old.sights ++ sights_at node.now (around_within role soughts.now frames.old (Some scope) covered)) }
    ensures meetings { OnOk result (found.new.meetings ≡ found.old.meetings ++ meetings_at node.now (around_within role soughts.now frames.old (Some scope) covered)) }
    ensures frames { OnOk result (frames.new ≡ frames.old) }
    ensures scope { IfOk result (λ back. back ≡ scope) }
{
    if !covered {
        walk(alloc, role, soughts, frames, node, found)?;
        return Ok(scope);
    }
    frames.push(scope)?;
    walk(alloc, role, soughts, frames, node, found)?;
    match frames.pop() {
        Some(scope) => Ok(scope),
        None => unreachable!(),
    }
}

/// The identifiers of a module, and what meets in it.
pub(crate) fn walk_module(alloc: Global, tree: &Module) -> Result<Found, NoMemory>
    ensures sights { IfOk result (λ found. found.sights ≡ sights tree.now) }
    ensures meetings { IfOk result (λ found. found.meetings ≡ meetings tree.now) }
{
    let mut found = Found {
        sights: ItemList::new(alloc),
        meetings: ItemList::new(alloc),
    };
    let soughts = ItemList::new(alloc);
    let mut frames = ItemList::new(alloc);
    walk(alloc, Role::Root, &soughts, &mut frames, tree, &mut found)?;
    Ok(found)
}
