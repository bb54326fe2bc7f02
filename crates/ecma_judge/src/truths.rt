//! Truths: what of them needs nothing but a node's own data and what is known of its parts.
ghost use Rattle.std.specs.Prelude.{◌≡◌, not};
ghost use Rattle.std.specs.Option.{option_map_or};
ghost use Rattle.ecma_judge.specs.Parts.{passes_at};
ghost use Rattle.ecma_judge.specs.Truths as table;

use crate::ctx::ExprCtx;
use crate::numbers::Numbered;
use ecma_number::{BoolValue, JsNumber, JsType, Purity, Value};
use ecma_tree::{Kind, Node, SyntaxContext};
use short_texts::is_same;

/// What is known of a truth, and the purity of what tells it.
pub(crate) type Truth = (Purity, BoolValue);

fn number_truth(number: JsNumber) -> bool
    ensures { result ≡ table.number_truth number }
{
    !(number.is_nan() || number.is_zero())
}

pub(crate) fn known_number_truth(number: &Option<JsNumber>) -> BoolValue
    ensures { result ≡ table.known_number_truth number.now }
{
    match number {
        Some(number) => Value::Known(number_truth(*number)),
        None => Value::Unknown,
    }
}

pub(crate) fn negated_truth(number: Value<JsNumber>) -> BoolValue
    ensures { result ≡ table.negated_truth number }
{
    match number {
        Value::Known(number) => Value::Known(number_truth(number)),
        Value::Unknown => Value::Unknown,
    }
}

fn is_prefix_letter(c: u8) -> bool
    ensures { result ≡ table.is_prefix_letter c }
{
    c == b'x' || c == b'X' || c == b'o' || c == b'O' || c == b'b' || c == b'B'
}

fn has_prefix(digits: &[u8]) -> bool
    ensures { result ≡ table.has_prefix digits.now }
{
    digits.len() > 1 && digits[0] == b'0' && is_prefix_letter(digits[1])
}

fn is_digit_above_0(c: u8) -> bool
    ensures { result ≡ table.is_digit_above_0 c }
{
    (b'1' <= c && c <= b'9') || (b'a' <= c && c <= b'f') || (b'A' <= c && c <= b'F')
}

fn any_digit_above_0(digits: &[u8]) -> bool
    ensures { result ≡ table.any_digit_above_0 digits.now }
{
    for digit in digits {
        if is_digit_above_0(*digit) {
            return true;
        }
    }
    false
}

/// Whether a BigInt of these digits counts as true.
pub(crate) fn big_int_truth(digits: &str) -> bool
    ensures { result ≡ table.big_int_truth digits.now }
{
    let digits = digits.as_bytes();
    if has_prefix(digits) {
        return any_digit_above_0(&digits[2..]);
    }
    any_digit_above_0(digits)
}

fn is_false_name(sym: &str) -> bool
    ensures { result ≡ table.is_false_name sym.now }
{
    is_same(sym, "undefined") || is_same(sym, "NaN")
}

pub(crate) fn name_truth(ctx: &ExprCtx, own: Purity, sym: &str, ctxt: SyntaxContext) -> Truth
    ensures { result ≡ table.name_truth ctx.now own sym.now ctxt }
{
    if ctxt == ctx.unresolved_ctxt && is_false_name(sym) {
        return (Purity::Pure, Value::Known(false));
    }
    (own, Value::Unknown)
}

fn difference_truth(left: Value<JsNumber>, right: Value<JsNumber>) -> BoolValue
    ensures { result ≡ table.difference_truth left right }
{
    let Value::Known(first) = left else {
        return Value::Unknown;
    };
    let Value::Known(second) = right else {
        return Value::Unknown;
    };
    Value::Known(!(first.num_eq(&second) || first.is_nan() || second.is_nan()))
}

fn quotient_truth(left: Value<JsNumber>, right: Value<JsNumber>) -> BoolValue
    ensures { result ≡ table.quotient_truth left right }
{
    let Value::Known(first) = left else {
        return Value::Unknown;
    };
    let Value::Known(second) = right else {
        return Value::Unknown;
    };
    let gives_nan = first.is_nan() || second.is_nan();
    Value::Known(!(gives_nan || first.is_zero() || second.is_infinite()))
}

pub(crate) fn is_bool(kind: Value<JsType>) -> bool
    ensures { result ≡ table.is_bool kind }
{
    matches!(kind, Value::Known(JsType::Bool))
}

/// `left - right`
pub(crate) fn difference(left: Numbered, right: Numbered) -> Truth
    ensures { result ≡ table.difference left right }
{
    let (own, first) = left;
    let (other, second) = right;
    (own + other, difference_truth(first, second))
}

/// `left / right`
pub(crate) fn quotient(left: Numbered, right: Numbered) -> Truth
    ensures { result ≡ table.quotient left right }
{
    let (own, _) = left;
    let (other, _) = right;
    (
        own + other,
        quotient_truth(pure_number(left), pure_number(right)),
    )
}

/// `!truth`
pub(crate) fn negation(truth: Truth) -> Truth
    ensures { result ≡ table.negation truth }
{
    let (own, known) = truth;
    (own, !known)
}

/// What is known, with another purity.
pub(crate) fn with_purity(own: Purity, truth: Truth) -> Truth
    ensures { result ≡ table.with_purity own truth }
{
    let (_, known) = truth;
    (own, known)
}

fn if_bools(bools: bool, known: BoolValue) -> BoolValue
    ensures { result ≡ table.if_bools bools known }
{
    if bools {
        return known;
    }
    Value::Unknown
}

/// `left & right`, of two truth values or not.
pub(crate) fn bit_and(bools: bool, left: Truth, right: Truth) -> Truth
    ensures { result ≡ table.bit_and bools left right }
{
    let (own, first) = left;
    let (other, second) = right;
    (own + other, if_bools(bools, first.and(second)))
}

/// `left | right`, of two truth values or not.
pub(crate) fn bit_or(bools: bool, left: Truth, right: Truth) -> Truth
    ensures { result ≡ table.bit_or bools left right }
{
    let (own, first) = left;
    let (other, second) = right;
    (own + other, if_bools(bools, first.or(second)))
}

/// `left || right`
pub(crate) fn or_truth(left: Truth, right: Truth) -> Truth
    ensures { result ≡ table.or_truth left right }
{
    let (own, first) = left;
    let (other, second) = right;
    match (first, second) {
        (Value::Known(true), _) => (own, Value::Known(true)),
        (_, Value::Known(true)) => (own + other, Value::Known(true)),
        _ => (own + other, Value::Unknown),
    }
}

/// `left && right`
pub(crate) fn and_truth(left: Truth, right: Truth) -> Truth
    ensures { result ≡ table.and_truth left right }
{
    let (own, first) = left;
    let (other, second) = right;
    match (first, second) {
        (Value::Known(false), _) => (own, Value::Known(false)),
        (_, Value::Known(false)) => (own + other, Value::Known(false)),
        _ => (own + other, Value::Unknown),
    }
}

fn is_filled(node: &Node) -> bool
    ensures { result ≡ table.is_filled node.now }
{
    match &node.kind {
        Kind::Str { value, .. } => !value.as_str().is_empty(),
        _ => false,
    }
}

fn is_filled_at(node: &Node, index: usize) -> bool
    ensures { result ≡ passes_at table.is_filled index node.now }
{
    match node.children.get(index) {
        Some(side) => is_filled(side),
        None => false,
    }
}

/// Of a sum: a text literal in it that is not empty makes it a text that is not.
pub(crate) fn sum_truth(node: &Node) -> BoolValue
    ensures { result ≡ table.sum_truth node.now }
{
    if is_filled_at(node, 0) || is_filled_at(node, 1) {
        return Value::Known(true);
    }
    Value::Unknown
}

/// What is known of a truth, if nothing has to be done to know it.
pub(crate) fn pure_truth(truth: Truth) -> BoolValue
    ensures { result ≡ table.if_pure truth }
{
    let (own, known) = truth;
    if own.is_pure() {
        return known;
    }
    Value::Unknown
}

/// What is known of a Number, if nothing has to be done to know it.
pub(crate) fn pure_number(number: Numbered) -> Value<JsNumber>
    ensures { result ≡ table.if_pure number }
{
    let (own, known) = number;
    if own.is_pure() {
        return known;
    }
    Value::Unknown
}
