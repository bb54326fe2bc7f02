//! Numbers: what of them needs nothing but a node's own data and what is known of its parts.
ghost use Rattle.std.specs.Prelude.{◌≡◌};
ghost use Rattle.ecma_number.specs.StringToNumber.{known_of};
ghost use Rattle.ecma_judge.specs.Parts.{passes_at};
ghost use Rattle.ecma_judge.specs.Numbers as table;
ghost use Rattle.ecma_judge.specs.Truths.{with_purity};
ghost use Rattle.ecma_number.specs.declared.types.Purity.TheVariants.{MayBeImpure};

use crate::ctx::ExprCtx;
use crate::globals::is_global;
use ecma_number::{BoolValue, JsNumber, Purity, Value, num_from_str};
use ecma_tree::{JsWord, Node, SyntaxContext};
use short_texts::is_same;

/// What is known of a Number, and the purity of what tells it.
pub(crate) type Numbered = (Purity, Value<JsNumber>);

pub(crate) fn bool_number(value: bool) -> JsNumber
    ensures { result ≡ table.bool_number value }
{
    if value {
        return JsNumber::from(1u32);
    }
    JsNumber::from(0u32)
}

pub(crate) fn literal_number(number: &Option<JsNumber>) -> Value<JsNumber>
    ensures { result ≡ known_of number.now }
{
    match number {
        Some(number) => Value::Known(*number),
        None => Value::Unknown,
    }
}

fn is_nan_name(sym: &str) -> bool
    ensures { result ≡ table.is_nan_name sym.now }
{
    is_same(sym, "undefined") || is_same(sym, "NaN")
}

pub(crate) fn name_number(ctx: &ExprCtx, own: Purity, sym: &str, ctxt: SyntaxContext) -> Numbered
    ensures { result ≡ table.name_number ctx.now own sym.now ctxt }
{
    if ctxt == ctx.unresolved_ctxt && is_nan_name(sym) {
        return (Purity::Pure, Value::Known(JsNumber::NaN));
    }
    if ctxt == ctx.unresolved_ctxt && is_same(sym, "Infinity") {
        return (Purity::Pure, Value::Known(JsNumber::Infinity));
    }
    (own, Value::Unknown)
}

/// Of an array that is this text.
pub(crate) fn array_number(own: Purity, text: Value<JsWord>) -> Numbered
    ensures { result ≡ table.array_number own text }
{
    match text {
        Value::Known(text) => (Purity::Pure, num_from_str(text.as_str())),
        Value::Unknown => (own, Value::Unknown),
    }
}

pub(crate) fn not_number(value: BoolValue) -> Numbered
    ensures { result ≡ table.not_number_by value }
{
    match value {
        Value::Known(value) => (Purity::Pure, Value::Known(bool_number(!value))),
        Value::Unknown => (Purity::MayBeImpure, Value::Unknown),
    }
}

fn is_infinity(ctx: &ExprCtx, node: &Node) -> bool
    ensures { result ≡ table.is_infinity ctx.now node.now }
{
    is_global(ctx, "Infinity", &node.kind)
}

fn negates_infinity(ctx: &ExprCtx, node: &Node) -> bool
    ensures { result ≡ passes_at (table.is_infinity ctx.now) 0 node.now }
{
    match node.children.get(0) {
        Some(arg) => is_infinity(ctx, arg),
        None => false,
    }
}

/// Of `-` with what it stands before.
pub(crate) fn minus_number(ctx: &ExprCtx, node: &Node) -> Numbered
    ensures { result ≡ table.minus_number (passes_at (table.is_infinity ctx.now) 0 node.now) }
{
    if negates_infinity(ctx, node) {
        return (Purity::Pure, Value::Known(JsNumber::NegInfinity));
    }
    (Purity::MayBeImpure, Value::Unknown)
}

/// What is known, whatever is done to know it.
pub(crate) fn impure(number: Numbered) -> Numbered
    ensures { result ≡ with_purity MayBeImpure number }
{
    let (_, known) = number;
    (Purity::MayBeImpure, known)
}
