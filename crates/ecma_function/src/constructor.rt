//! Constructors with expressions behind `super(..)`.
ghost use Rattle.std.specs.Prelude.{◌≡◌, ◌+◌, ◌<◌, ◌≤◌, Err, IfOk, OnOk, length, map};
ghost use Rattle.ecma_kind.specs.declared.error.PassError.TheVariants as pass_error;
ghost use Rattle.ecma_scope.specs.Drawing.{HasGivenAtMost};
ghost use Rattle.ecma_tree.specs.declared.node.Node.{out-Node};
ghost use Rattle.ecma_utils.specs.Directives.{front_length, is_text_stmt};
ghost use Rattle.ecma_utils.specs.Expressions.{expr_stmt_of};
ghost use Rattle.ecma_function.specs.Constructors.{after_super, after_super_draws, behind_texts, block_behind_texts, draws_in, list_behind_texts, made_body, with_exprs};

use crate::injecting::{Written, stmts_of, write};
use crate::place::Place;
use ecma_function_parts::first_or_absent;
use ecma_tree::{DUMMY_SP, Expr, Kind, NoMemory, Node, Nodes, PassError, Session, Stmt};
use ecma_utils::is_maybe_branch_directive;
use std::alloc::Global;

/// How many statements at the beginning are a text literal.
#[tactic(auto, using(ecma_utils::proofs::Fronts::fronts))]
fn texts_in_front(stmts: &[Stmt]) -> usize
    ensures value { result ≡ front_length is_text_stmt stmts.now }
    ensures within { result ≤ length stmts.now }
{
    for i in 0..stmts.len() {
        if !is_maybe_branch_directive(&stmts[i]) {
            return i;
        }
    }
    stmts.len()
}

fn behind_texts(more: Nodes, stmts: Nodes) -> Result<Nodes, NoMemory>
    ensures { IfOk result (λ nodes. nodes ≡ behind_texts more stmts) }
{
    let mut stmts = stmts.into_vec();
    let mut more = more.into_vec();
    let index = texts_in_front(stmts.as_slice());
    let count = more.len();
    stmts.append(&mut more)?;
    stmts[index..].rotate_right(count);
    Ok(Nodes::from_vec(stmts))
}

fn list_behind_texts(more: Nodes, list: Node) -> Result<Node, NoMemory>
    ensures { IfOk result (λ node. node ≡ list_behind_texts more list) }
{
    let Node {
        span,
        kind,
        children,
    } = list;
    Ok(Node::new(span, kind, behind_texts(more, children)?))
}

fn block_behind_texts(alloc: Global, more: Nodes, block: Node) -> Result<Node, NoMemory>
    ensures { IfOk result (λ node. node ≡ block_behind_texts more block) }
{
    let mut block = block;
    if !block.children.is_empty() {
        let list = block.children.replace(0, Node::absent(alloc));
        block.children.set(0, list_behind_texts(more, list)?);
    }
    Ok(block)
}

fn made_body(alloc: Global, body: Node) -> Result<Node, NoMemory>
    ensures { IfOk result (λ node. node ≡ made_body body) }
{
    match body.kind {
        Kind::Absent => Node::block_stmt(alloc, DUMMY_SP, Nodes::new(alloc)),
        _ => Ok(body),
    }
}

/// The body with the expressions, which are some.
fn with_exprs(
    alloc: Global,
    session: &mut Session,
    exprs: Nodes,
    body: Node,
) -> Result<Node, PassError>
    ensures body { IfOk result (λ node. node ≡ with_exprs exprs body session.old.left) }
    ensures left { OnOk result (session.new.left + draws_in exprs body session.old.left ≡ session.old.left) }
    ensures spent { result ≡ Err pass_error.Spent → session.old.left < draws_in exprs body session.old.left }
    ensures session { HasGivenAtMost (draws_in exprs body session.old.left) session.old session.new }
{
    if exprs.is_empty() {
        return Ok(body);
    }
    let Written { nodes, found, .. } = write(
        alloc,
        session,
        exprs.as_slice(),
        Place::Inside,
        body,
    )?;
    let body = first_or_absent(alloc, nodes);
    if found {
        return Ok(body);
    }
    Ok(block_behind_texts(alloc, stmts_of(alloc, exprs)?, body)?)
}

/// Puts expressions behind each `super(..)` of a constructor's body, in arrow functions too, but in no function and of classes only in what they extend and in
/// keys. Behind a statement `super(..);` of a list they stand as statements. Any other becomes `_temp = super(..), exprs, _temp` with a `_temp` of its own, and
/// `var _temp;` stands before the statement of the nearest list around it. Where there is none, the expressions stand before the first statement that is no text
/// literal. A missing body is made, also without expressions.
///
/// `Spent` comes only where the session has not as many contexts as there are such names; after a refusal nothing is promised of the constructor.
pub fn inject_after_super(
    alloc: Global,
    session: &mut Session,
    constructor: &mut Node,
    exprs: Nodes,
) -> Result<(), PassError>
    ensures tree { OnOk result (constructor.new ≡ after_super exprs session.old.left constructor.old) }
    ensures left { OnOk result (session.new.left + after_super_draws exprs session.old.left constructor.old ≡ session.old.left) }
    ensures spent { result ≡ Err pass_error.Spent → session.old.left < after_super_draws exprs session.old.left constructor.old }
    ensures session { HasGivenAtMost (after_super_draws exprs session.old.left constructor.old) session.old session.new }
{
    if constructor.children.len() != 3 {
        return Ok(());
    }
    let body = constructor.children.replace(2, Node::absent(alloc));
    let body = made_body(alloc, body)?;
    let body = with_exprs(alloc, session, exprs, body)?;
    constructor.children.set(2, body);
    Ok(())
}
