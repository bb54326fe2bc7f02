//! Contexts for identifiers, one a scope.
ghost use Rattle.std.specs.Prelude.{◌≡◌, ◌≢◌, ◌+◌, ◌<◌, ◌++◌, [], ◌∷◌, IfOk, OnOk, OnErr, cond, true};
ghost use Rattle.ecma_kind.specs.Sessions.{HasGiven};
ghost use Rattle.ecma_scope.specs.Bindings.{FollowBindings};
ghost use Rattle.ecma_scope.specs.Drawing.{HasGivenAtMost};
ghost use Rattle.ecma_tree.specs.Nodes.{node_of};
ghost use Rattle.ecma_tree.specs.declared.node.Node.{out-Node};
ghost use Rattle.ecma_scope.specs.Scopes.{is_root, opens};
ghost use Rattle.ecma_scope.specs.Resolved.{context_count, contexts, counted, inside, is_name, kind_at, placed, resolved, resolved_at, taken};
ghost use Rattle.ecma_scope.specs.Frames.{children_at, children_below, children_count, place_inside, place_of, plain_places, scope_places, scopes_of, with_children};

use crate::frame::{Frame, context_in, names_inside};
use crate::index::index_of;
use crate::role::{Role, covers, is_root, is_sourced, opens, role_by};
use ecma_tree::{Kind, Mark, Module, NoMemory, Node, PassError, Session, SyntaxContext};
use item_list::ItemList;
use std::alloc::Global;

/// What is the same all the way down.
#[derive(Drop)]
struct Given {
    alloc: Global,
    unresolved: SyntaxContext,
    top: SyntaxContext,
}

/// The context of the scope that a node in this role opens.
fn draw(given: &Given, session: &mut Session, role: Role) -> Result<SyntaxContext, PassError>
    ensures ctxt { IfOk result (λ ctxt. ctxt ≡ cond (is_root role) given.now.top session.old.left) }
    ensures left { OnOk result (session.new.left + cond (is_root role) 0 1 ≡ session.old.left) }
    ensures spent { OnErr result (session.old.left + cond (is_root role) 1 0 ≡ 0) }
    ensures session { HasGivenAtMost (cond (is_root role) 0 1) session.old session.new }
    ensures drained { OnErr result (session.new.left ≡ 0) }
{
    if is_root(role) {
        return Ok(given.top);
    }
    let mark = session.fresh_mark()?;
    Ok(SyntaxContext::empty().apply_mark(mark))
}

fn set_context(given: &Given, frames: &ItemList<Frame>, role: Role, kind: &mut Kind)
    ensures { kind.new ≡ kind_at given.now.unresolved (place_of role frames.now) kind.old }
{
    if let Role::Name = role {
        return;
    }
    if let Kind::Ident { sym, ctxt, .. } = kind {
        *ctxt = context_in(given.unresolved, frames, sym);
    }
}

/// Resolves a node, and all below it.
#[cycle(resolving)]
fn resolve_in(
    given: &Given,
    session: &mut Session,
    frames: &mut ItemList<Frame>,
    role: Role,
    node: &mut Node,
) -> Result<(), PassError>
    ensures node { OnOk result (node.new ≡ resolved_at given.now.unresolved given.now.top node.old (place_of role frames.old) session.old.left) }
    ensures left { OnOk result (session.new.left + context_count node.old role ≡ session.old.left) }
    ensures frames { OnOk result (frames.new ≡ frames.old) }
    ensures spent { result ≡ Err PassError.Spent → session.old.left < context_count node.old role }
    ensures session { HasGivenAtMost (context_count node.old role) session.old session.new }
    ensures drained { result ≡ Err PassError.Spent → session.new.left ≡ 0 }
{
    resolve_below(given, session, frames, role, node)?;
    set_context(given, frames, role, &mut node.kind);
    Ok(())
}

/// Resolves what stands below a node.
#[cycle(resolving)]
fn resolve_below(
    given: &Given,
    session: &mut Session,
    frames: &mut ItemList<Frame>,
    role: Role,
    node: &mut Node,
) -> Result<(), PassError>
    ensures node { OnOk result (node.new ≡ with_children node.old (children_below given.now.unresolved given.now.top (place_of role frames.old) node.old session.old.left)) }
    ensures left { OnOk result (session.new.left + context_count node.old role ≡ session.old.left) }
    ensures frames { OnOk result (frames.new ≡ frames.old) }
    ensures spent { result ≡ Err PassError.Spent → session.old.left < context_count node.old role }
    ensures session { HasGivenAtMost (context_count node.old role) session.old session.new }
    ensures drained { result ≡ Err PassError.Spent → session.new.left ≡ 0 }
{
    if opens(role, node) {
        resolve_opening(given, session, frames, role, node)
    } else {
        resolve_children(given, session, frames, role, node)
    }
}

/// Resolves what stands below a node that opens a scope.
#[cycle(resolving)]
fn resolve_opening(
    given: &Given,
    session: &mut Session,
    frames: &mut ItemList<Frame>,
    role: Role,
    node: &mut Node,
) -> Result<(), PassError>
    requires { opens role node.old ≡ true }
    ensures node { OnOk result (node.new ≡ with_children node.old (children_below given.now.unresolved given.now.top (place_of role frames.old) node.old session.old.left)) }
    ensures left { OnOk result (session.new.left + context_count node.old role ≡ session.old.left) }
    ensures frames { OnOk result (frames.new ≡ frames.old) }
    ensures spent { result ≡ Err PassError.Spent → session.old.left < context_count node.old role }
    ensures session { HasGivenAtMost (context_count node.old role) session.old session.new }
    ensures drained { result ≡ Err PassError.Spent → session.new.left ≡ 0 }
{
    let ctxt = draw(given, session, role)?;
    let names = names_inside(given.alloc, role, frames, node)?;
    let index = index_of(given.alloc, &names)?;
    resolve_scope(given, session, frames, Frame { ctxt, index }, role, node)?;
    Ok(())
}

/// Resolves the children of a node that opens no scope.
#[cycle(resolving)]
fn resolve_children(
    given: &Given,
    session: &mut Session,
    frames: &mut ItemList<Frame>,
    role: Role,
    node: &mut Node,
) -> Result<(), PassError>
    ensures node { OnOk result (node.new ≡ with_children node.old (children_at given.now.unresolved given.now.top (plain_places role frames.old node.old) node.old session.old.left)) }
    ensures left { OnOk result (session.new.left + children_count node.old role ≡ session.old.left) }
    ensures frames { OnOk result (frames.new ≡ frames.old) }
    ensures spent { result ≡ Err PassError.Spent → session.old.left < children_count node.old role }
    ensures session { HasGivenAtMost (children_count node.old role) session.old session.new }
    ensures drained { result ≡ Err PassError.Spent → session.new.left ≡ 0 }
{
    let sourced = is_sourced(node);
    let count = node.children.len();
    for i in 0..count {
        let inner = role_by(role, &node.kind, sourced, i);
        resolve_in(given, session, frames, inner, node.children.get_mut(i))?;
    }
    Ok(())
}

/// Resolves the children of a node that opens a scope.
#[cycle(resolving)]
fn resolve_scope(
    given: &Given,
    session: &mut Session,
    frames: &mut ItemList<Frame>,
    scope: Frame,
    role: Role,
    node: &mut Node,
) -> Result<(), PassError>
    ensures node { OnOk result (node.new ≡ with_children node.old (children_at given.now.unresolved given.now.top (scope_places role frames.old scope node.old) node.old session.old.left)) }
    ensures left { OnOk result (session.new.left + children_count node.old role ≡ session.old.left) }
    ensures frames { OnOk result (frames.new ≡ frames.old) }
    ensures spent { result ≡ Err PassError.Spent → session.old.left < children_count node.old role }
    ensures session { HasGivenAtMost (children_count node.old role) session.old session.new }
    ensures drained { result ≡ Err PassError.Spent → session.new.left ≡ 0 }
{
    let sourced = is_sourced(node);
    let count = node.children.len();
    let mut scope = scope;
    for i in 0..count {
        let inner = role_by(role, &node.kind, sourced, i);
        let covered = covers(role, &node.kind, i);
        scope = resolve_inside(
            given,
            session,
            frames,
            scope,
            covered,
            inner,
            node.children.get_mut(i),
        )?;
    }
    Ok(())
}

/// Resolves a node that stands in one scope more, if that scope covers it.
#[cycle(resolving)]
fn resolve_inside(
    given: &Given,
    session: &mut Session,
    frames: &mut ItemList<Frame>,
    scope: Frame,
    covered: bool,
    role: Role,
    node: &mut Node,
) -> Result<Frame, PassError>
    ensures node { OnOk result (node.new ≡ resolved_at given.now.unresolved given.now.top node.old (place_inside role frames.old scope covered) session.old.left) }
    ensures left { OnOk result (session.new.left + context_count node.old role ≡ session.old.left) }
    ensures frames { OnOk result (frames.new ≡ frames.old) }
    ensures scope { IfOk result (λ back. back ≡ scope) }
    ensures spent { result ≡ Err PassError.Spent → session.old.left < context_count node.old role }
    ensures session { HasGivenAtMost (context_count node.old role) session.old session.new }
    ensures drained { result ≡ Err PassError.Spent → session.new.left ≡ 0 }
{
    if !covered {
        resolve_in(given, session, frames, role, node)?;
        return Ok(scope);
    }
    frames.push(scope)?;
    resolve_in(given, session, frames, role, node)?;
    match frames.pop() {
        Some(scope) => Ok(scope),
        None => unreachable!(),
    }
}

/// Gives each scope of the module a context of its own, in the order of the text, the module's the one of the mark `top`; and
/// each identifier the context of the scope that declares what it names, or that of the mark `unresolved` where it is free.
/// It changes nothing else. So of identifiers in the resolved tree a free one, and it alone, has the context of `unresolved`, and
/// two that are bound have one context exactly where they are bound in one scope.
pub fn resolve(
    alloc: Global,
    session: &mut Session,
    tree: &mut Module,
    unresolved: Mark,
    top: Mark,
) -> Result<(), PassError>
    ensures tree { OnOk result (tree.new ≡ resolved unresolved top session.old.left tree.old) }
    ensures left { OnOk result (session.new.left + contexts tree.old ≡ session.old.left) }
    ensures bindings { OnOk result (HasGiven session.old unresolved → HasGiven session.old top → unresolved ≢ top → FollowBindings unresolved tree.new tree.old) }
    ensures spent { result ≡ Err PassError.Spent → session.old.left < contexts tree.old }
    // Whatever is answered, the session has given contexts, at most one for each scope, and is the same otherwise; where it is spent, none is left.
    ensures session { HasGivenAtMost (contexts tree.old) session.old session.new }
    ensures drained { result ≡ Err PassError.Spent → session.new.left ≡ 0 }
{
    let given = Given {
        alloc,
        unresolved: SyntaxContext::empty().apply_mark(unresolved),
        top: SyntaxContext::empty().apply_mark(top),
    };
    let mut frames = ItemList::new(alloc);
    resolve_in(&given, session, &mut frames, Role::Root, tree)?;
    Ok(())
}
