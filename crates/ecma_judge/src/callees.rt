//! Callees whose call has no effects of its own.
ghost use Rattle.std.specs.Prelude.{◌≡◌};
ghost use Rattle.ecma_tree.specs.declared.node.Node.{out-Node};
ghost use Rattle.ecma_judge.specs.PureCallees.{are_plain_params, has_pure_key, is_idle, is_math, is_plain_param, is_pure_callee, is_pure_member, is_pure_member_of, pure_callee_by};
ghost use Rattle.ecma_judge.specs.Parts.{is_empty_block, passes_at};
ghost use Rattle.ecma_judge.specs.Judged.{judged};
ghost use Rattle.ecma_judge.specs.PureCallees as callees;
ghost use Rattle.ecma_judge.specs.Contexts as contexts;

use crate::ctx::ExprCtx;
use crate::globals::is_among;
use crate::parts::{is_declared_name, is_empty_block, is_text_literal};
use ecma_tree::{Kind, Node, SyntaxContext};
use short_texts::is_same;

/// The methods of a text that only read it.
const READING_METHODS: [&str; 21] = [
    "charAt",
    "charCodeAt",
    "concat",
    "endsWith",
    "includes",
    "indexOf",
    "lastIndexOf",
    "localeCompare",
    "slice",
    "split",
    "startsWith",
    "substr",
    "substring",
    "toLocaleLowerCase",
    "toLocaleUpperCase",
    "toLowerCase",
    "toString",
    "toUpperCase",
    "trim",
    "trimEnd",
    "trimStart",
];

fn is_reading_method(text: &str) -> bool
    ensures { result ≡ contexts.is_among text.now callees.reading_methods }
{
    let methods: [&str; 21] = READING_METHODS;
    is_among(text, methods.as_slice())
}

fn is_math(ctx: &ExprCtx, kind: &Kind) -> bool
    ensures { result ≡ is_math ctx.now kind.now }
{
    match kind {
        Kind::Ident { sym, ctxt, .. } => {
            (*ctxt == ctx.unresolved_ctxt || *ctxt == SyntaxContext::empty())
                && is_same(sym.as_str(), "Math")
        }
        _ => false,
    }
}

fn is_pure_member(ctx: &ExprCtx, object: &Kind, key: &Kind) -> bool
    ensures { result ≡ is_pure_member ctx.now object.now key.now }
{
    match key {
        Kind::IdentName { sym } => {
            is_math(ctx, object) || (is_text_literal(object) && is_reading_method(sym.as_str()))
        }
        _ => false,
    }
}

/// Whether a member of this object has a key by which a call of it has no effects of its own.
fn has_pure_key(ctx: &ExprCtx, member: &Node, object: &Node) -> bool
    ensures { result ≡ has_pure_key ctx.now member.now object.now }
{
    match member.children.get(1) {
        Some(key) => is_pure_member(ctx, &object.kind, &key.kind),
        None => false,
    }
}

fn is_pure_member_expr(ctx: &ExprCtx, member: &Node) -> bool
    ensures { result ≡ passes_at (has_pure_key ctx.now member.now) 0 member.now }
{
    match member.children.get(0) {
        Some(object) => has_pure_key(ctx, member, object),
        None => false,
    }
}

fn is_plain_param(param: &Node) -> bool
    ensures { result ≡ is_plain_param param.now }
{
    match param.children.get(0) {
        Some(pattern) => is_declared_name(&pattern.kind),
        None => false,
    }
}

fn are_plain_params(params: &Node) -> bool
    ensures { result ≡ are_plain_params params.now }
{
    for param in params.children.as_slice() {
        if !is_plain_param(param) {
            return false;
        }
    }
    true
}

fn has_plain_params(function: &Node) -> bool
    ensures { result ≡ passes_at are_plain_params 0 function.now }
{
    match function.children.get(0) {
        Some(params) => are_plain_params(params),
        None => false,
    }
}

fn has_empty_body(function: &Node) -> bool
    ensures { result ≡ passes_at is_empty_block 1 function.now }
{
    match function.children.get(1) {
        Some(body) => is_empty_block(body),
        None => false,
    }
}

fn is_idle(function: &Node) -> bool
    ensures { result ≡ is_idle function.now }
{
    has_plain_params(function) && has_empty_body(function)
}

fn is_idle_expr(node: &Node) -> bool
    ensures { result ≡ passes_at is_idle 1 node.now }
{
    match node.children.get(1) {
        Some(function) => is_idle(function),
        None => false,
    }
}

/// Whether a call of the node's value has no effects of its own: `Date`, a member of `Math` by its name, a method of a text literal that
/// only reads it, or a function expression that does nothing.
#[tactic(auto, unfolding(crate::specs::PureCallees::pure_callee_by))]
pub(crate) fn is_pure_callee(ctx: &ExprCtx, node: &Node) -> bool
    ensures { result ≡ is_pure_callee ctx.now node.now }
{
    match &node.kind {
        Kind::Ident { sym, ctxt, .. } => {
            *ctxt == ctx.unresolved_ctxt && is_same(sym.as_str(), "Date")
        }
        Kind::MemberExpr => is_pure_member_expr(ctx, node),
        Kind::FnExpr => is_idle_expr(node),
        _ => false,
    }
}

/// The same, as what is judged of the node.
#[tactic(auto, using(crate::proofs::Judging::callees))]
pub(crate) fn is_pure_callee_here(ctx: &ExprCtx, node: &Node) -> bool
    ensures { result ≡ (judged ctx.now node.now).pure_callee }
{
    is_pure_callee(ctx, node)
}
