//! Names, texts and members that are written out: what the macros of this crate call.
ghost use Rattle.std.specs.Prelude.{◌≡◌, ◌↔◌, Err, IfOk, IsOk, OnOk};
ghost use Rattle.ecma_kind.specs.Sessions.{drawn};
ghost use Rattle.ecma_kind.specs.declared.error.PassError.TheVariants as pass_error;
ghost use Rattle.ecma_utils.specs.Expressions.{key_of, member_of};
ghost use Rattle.ecma_utils.specs.Quotes.{name_of, null_of, quoted_ident, text_of};

use crate::expr_factory::key_of;
use ecma_tree::{
    DUMMY_SP, Expr, Ident, JsWord, Kind, NoMemory, Node, PassError, Session, Span, SyntaxContext,
};
use std::alloc::Global;

/// An identifier of this text and context.
pub fn ident_of_text(
    alloc: Global,
    ctxt: SyntaxContext,
    span: Span,
    text: &str,
) -> Result<Ident, NoMemory>
    ensures { IfOk result (λ ident. ident ≡ quoted_ident ctxt span text.now) }
{
    Ok(Ident {
        span,
        ctxt,
        sym: JsWord::new(alloc, text)?,
        optional: false,
    })
}

/// An identifier of this text, in the context of a mark that the session gives. `Spent` comes exactly where the session has none left.
pub fn fresh_ident(
    alloc: Global,
    session: &mut Session,
    span: Span,
    text: &str,
) -> Result<Ident, PassError>
    ensures ident { IfOk result (λ ident. ident ≡ quoted_ident session.old.left span text.now) }
    ensures spent { (result ≡ Err pass_error.Spent) ↔ (session.old.left ≡ 0) }
    ensures session { session.new ≡ drawn session.old }
{
    let mark = session.fresh_mark()?;
    let ctxt = SyntaxContext::empty().apply_mark(mark);
    Ok(ident_of_text(alloc, ctxt, span, text)?)
}

/// A key of this text.
pub fn key_of_text(alloc: Global, span: Span, text: &str) -> Result<Node, NoMemory>
    ensures { IfOk result (λ node. node ≡ key_of span text.now) }
{
    key_of(alloc, span, text)
}

/// A text literal, without source text.
pub fn literal_of_text(alloc: Global, span: Span, text: &str) -> Result<Expr, NoMemory>
    ensures { IfOk result (λ node. node ≡ text_of span text.now) }
{
    let value = JsWord::new(alloc, text)?;
    Ok(Node::leaf(alloc, span, Kind::Str { value, raw: None }))
}

/// `null`. It takes no memory.
pub fn null_literal(alloc: Global, span: Span) -> Expr
    ensures { result ≡ null_of span }
{
    Node::leaf(alloc, span, Kind::Null)
}

/// A name as an expression.
pub fn name_of_text(
    alloc: Global,
    ctxt: SyntaxContext,
    span: Span,
    text: &str,
) -> Result<Expr, NoMemory>
    ensures { IfOk result (λ node. node ≡ name_of ctxt span text.now) }
{
    Ok(Node::of_ident(alloc, ident_of_text(alloc, ctxt, span, text)?))
}

/// A member of what is written before it, by its name; where there was no memory for that, there is none for the member.
pub fn member_of_text(
    alloc: Global,
    span: Span,
    object: Result<Expr, NoMemory>,
    text: &str,
) -> Result<Expr, NoMemory>
    ensures made { IfOk result
        (λ node. IfOk object (λ e. node ≡ member_of e (key_of span text.now))) }
    ensures object { OnOk result (IsOk object) }
{
    let e = object?;
    let key = key_of(alloc, span, text)?;
    Node::member_expr(alloc, DUMMY_SP, e, key)
}
