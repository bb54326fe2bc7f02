//! What is known of the value of an enum's member.
ghost use Rattle.std.specs.Prelude.{◌≡◌, IfOk, None, Some, [], ◌∷◌};
ghost use Rattle.ecma_kind.specs.declared.operators.BinaryOp.TheVariants as binary;
ghost use Rattle.ecma_kind.specs.declared.operators.UnaryOp.TheVariants as unary;
ghost use Rattle.ecma_enums.specs.Values as table;
ghost use Rattle.ecma_enums.specs.Values.{divided_by_zero, expression, has_value, increased, is_constant, is_text, minus, number_expression, numeral, text_literal, undefined, whole_expression};

use ecma_number::{JsNumber, SafeInt};
use ecma_tree::{BinaryOp, DUMMY_SP, Expr, JsWord, Kind, NoMemory, Node, UnaryOp};
use std::alloc::{AllocError, Global};

/// What is known of the value of an enum's member before the program runs.
#[derive(Debug, Drop)]
pub enum TsEnumRecordValue {
    /// This text.
    String(JsWord),
    /// This number.
    Number(JsNumber),
    /// That of the initialiser, which is not known.
    Opaque,
    /// `undefined`: there is no initialiser, and the member before has no known number.
    Void,
}

/// A clone equals what it was cloned from; its only refusal is want of memory.
impl Clone for TsEnumRecordValue {
    ghost is_clone = { λ value copy. copy ≡ value };

    fn clone(&self) -> Result<TsEnumRecordValue, AllocError> {
        Ok(match self {
            TsEnumRecordValue::String(text) => TsEnumRecordValue::String(text.clone()?),
            TsEnumRecordValue::Number(number) => TsEnumRecordValue::Number(*number),
            TsEnumRecordValue::Opaque => TsEnumRecordValue::Opaque,
            TsEnumRecordValue::Void => TsEnumRecordValue::Void,
        })
    }
}

/// A number as a literal without source text.
fn numeral(alloc: Global, value: Option<JsNumber>) -> Expr
    ensures { result ≡ numeral value }
{
    Node::leaf(alloc, DUMMY_SP, Kind::Number { value, raw: None })
}

/// `-e`
fn minus(alloc: Global, e: Expr) -> Result<Expr, NoMemory>
    ensures { IfOk result (λ node. node ≡ minus e) }
{
    Node::unary_expr(alloc, DUMMY_SP, UnaryOp::Minus, e)
}

/// `e / 0`
fn divided_by_zero(alloc: Global, e: Expr) -> Result<Expr, NoMemory>
    ensures { IfOk result (λ node. node ≡ divided_by_zero e) }
{
    let zero = numeral(alloc, Some(JsNumber::from(0u32)));
    Node::bin_expr(alloc, DUMMY_SP, BinaryOp::Div, e, zero)
}

/// `void 0`
fn undefined(alloc: Global) -> Result<Expr, NoMemory>
    ensures { IfOk result (λ node. node ≡ undefined) }
{
    let zero = numeral(alloc, Some(JsNumber::from(0u32)));
    Node::unary_expr(alloc, DUMMY_SP, UnaryOp::Void, zero)
}

/// A whole number as a literal, behind `-` below 0.
fn whole_expression(alloc: Global, number: SafeInt) -> Result<Expr, NoMemory>
    ensures { IfOk result (λ node. node ≡ whole_expression number) }
{
    let whole = JsNumber::Whole(number);
    if number.get() < 0 {
        return minus(alloc, numeral(alloc, whole.neg()));
    }
    Ok(numeral(alloc, Some(whole)))
}

/// `0`
fn zero(alloc: Global) -> Expr
    ensures { result ≡ numeral (Some table.zero) }
{
    numeral(alloc, Some(JsNumber::from(0u32)))
}

/// `1`
fn one(alloc: Global) -> Expr
    ensures { result ≡ numeral (Some table.one) }
{
    numeral(alloc, Some(JsNumber::from(1u32)))
}

/// `-1 / 0`
fn minus_infinity(alloc: Global) -> Result<Expr, NoMemory>
    ensures { IfOk result (λ node. node ≡ divided_by_zero (minus (numeral (Some table.one)))) }
{
    let e = minus(alloc, one(alloc))?;
    divided_by_zero(alloc, e)
}

/// A number as an expression of literals and operators.
fn number_expression(alloc: Global, number: JsNumber) -> Result<Expr, NoMemory>
    ensures { IfOk result (λ node. node ≡ number_expression number) }
{
    match number {
        JsNumber::Whole(number) => whole_expression(alloc, number),
        JsNumber::NegZero => minus(alloc, zero(alloc)),
        JsNumber::NaN => divided_by_zero(alloc, zero(alloc)),
        JsNumber::Infinity => divided_by_zero(alloc, one(alloc)),
        JsNumber::NegInfinity => minus_infinity(alloc),
    }
}

impl TsEnumRecordValue {
    /// Whether it is known: a text or a number.
    pub fn is_const(&self) -> bool
        ensures { result ≡ is_constant self.now }
    {
        matches!(
            self,
            TsEnumRecordValue::String(_) | TsEnumRecordValue::Number(_)
        )
    }

    /// Whether it is a text.
    pub fn is_string(&self) -> bool
        ensures { result ≡ is_text self.now }
    {
        matches!(self, TsEnumRecordValue::String(_))
    }

    /// Whether it has an initialiser or a number: all but `Void`.
    pub fn has_value(&self) -> bool
        ensures { result ≡ has_value self.now }
    {
        !matches!(self, TsEnumRecordValue::Void)
    }

    /// The value of a member without initialiser behind one of this value (TypeScript handbook, "Numeric enums"): the number plus one, and
    /// `Void` behind what is no number. `None` comes exactly where the sum is beyond the numbers that are computed.
    pub fn inc(&self) -> Option<TsEnumRecordValue>
        ensures { result ≡ increased self.now }
    {
        match self {
            TsEnumRecordValue::Number(number) => {
                let next = (*number).add(JsNumber::from(1u32))?;
                Some(TsEnumRecordValue::Number(next))
            }
            _ => Some(TsEnumRecordValue::Void),
        }
    }

    /// The expression that a value is written as, at no place in the text: a text literal; a number behind `-` below 0, with `-0`, `0 / 0` for
    /// NaN, `1 / 0` and `-1 / 0` for the infinities; `void 0`. `None` comes exactly for an opaque value, whose initialiser stands where it
    /// stood. The only refusal is want of memory.
    pub fn into_expr(self, alloc: Global) -> Result<Option<Expr>, NoMemory>
        ensures { IfOk result (λ expr. expr ≡ expression self) }
    {
        match self {
            TsEnumRecordValue::String(value) => {
                let kind = Kind::Str { value, raw: None };
                Ok(Some(Node::leaf(alloc, DUMMY_SP, kind)))
            }
            TsEnumRecordValue::Number(number) => Ok(Some(number_expression(alloc, number)?)),
            TsEnumRecordValue::Opaque => Ok(None),
            TsEnumRecordValue::Void => Ok(Some(undefined(alloc)?)),
        }
    }
}
