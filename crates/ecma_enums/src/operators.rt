//! Operators on what is known of their sides.
ghost use Rattle.std.specs.Prelude.{◌≡◌, IfOk};
ghost use Rattle.ecma_number.specs.Arithmetic.{unary_minus_of};
ghost use Rattle.ecma_number.specs.Bits.{complement_of};
ghost use Rattle.ecma_enums.specs.Folded as table;
ghost use Rattle.ecma_enums.specs.Folded.{of_number, sides_by, texts_by};

use crate::folded::{Folded, number_or_beyond};
use crate::joined::Joined;
use ecma_number::JsNumber;
use ecma_tree::{BinaryOp, NoMemory};
use std::alloc::Global;

/// `+e`
pub(crate) fn plus(operand: &Folded) -> Folded
    ensures { result ≡ of_number (λ n. n) operand.now }
{
    match operand {
        Folded::Number(number) => Folded::Number(*number),
        Folded::Beyond(at) => Folded::Beyond(*at),
        _ => Folded::Opaque,
    }
}

/// `-e`
pub(crate) fn minus(operand: &Folded) -> Folded
    ensures { result ≡ of_number unary_minus_of operand.now }
{
    match operand {
        Folded::Number(number) => number_or_beyond(0, (*number).neg()),
        Folded::Beyond(at) => Folded::Beyond(*at),
        _ => Folded::Opaque,
    }
}

/// `~e`
pub(crate) fn complement(operand: &Folded) -> Folded
    ensures { result ≡ of_number complement_of operand.now }
{
    match operand {
        Folded::Number(number) => number_or_beyond(0, (*number).not()),
        Folded::Beyond(at) => Folded::Beyond(*at),
        _ => Folded::Opaque,
    }
}

/// Whether the sides of an operator are looked at.
pub(crate) fn is_arithmetic(op: BinaryOp) -> bool
    ensures { result ≡ table.is_arithmetic op }
{
    matches!(
        op,
        BinaryOp::Add
            | BinaryOp::Sub
            | BinaryOp::Mul
            | BinaryOp::Div
            | BinaryOp::Mod
            | BinaryOp::Exp
            | BinaryOp::LShift
            | BinaryOp::RShift
            | BinaryOp::ZeroFillRShift
            | BinaryOp::BitAnd
            | BinaryOp::BitOr
            | BinaryOp::BitXor
    )
}

/// Of two numbers, where it is one of those that are computed.
fn result_of(op: BinaryOp, left: JsNumber, right: JsNumber) -> Option<JsNumber>
    ensures { result ≡ table.result_of op left right }
{
    match op {
        BinaryOp::Add => left.add(right),
        BinaryOp::Sub => left.sub(right),
        BinaryOp::Mul => left.mul(right),
        BinaryOp::Div => left.div(right),
        BinaryOp::Mod => left.rem(right),
        BinaryOp::Exp => left.pow(right),
        BinaryOp::LShift => left.shl(right),
        BinaryOp::RShift => left.shr(right),
        BinaryOp::ZeroFillRShift => left.unsigned_shr(right),
        BinaryOp::BitAnd => left.bit_and(right),
        BinaryOp::BitOr => left.bit_or(right),
        BinaryOp::BitXor => left.bit_xor(right),
        _ => None,
    }
}

/// `+` with a text on one side; of sides that are not known, which of them is beyond the numbers that are computed.
#[tactic(auto, using(crate::proofs::Joining::joining))]
fn texts(alloc: Global, op: BinaryOp, left: &Folded, right: &Folded) -> Result<Folded, NoMemory>
    ensures { IfOk result (λ known. known ≡ texts_by op left.now right.now) }
{
    match op {
        BinaryOp::Add => {
            let text = Joined::new(alloc).with(alloc, left)?;
            text.with(alloc, right)?.into_folded(alloc)
        }
        _ => Joined::Opaque.with(alloc, right)?.into_folded(alloc),
    }
}

/// Of an expression that begins at an offset.
pub(crate) fn sides(
    alloc: Global,
    at: u32,
    op: BinaryOp,
    left: &Folded,
    right: &Folded,
) -> Result<Folded, NoMemory>
    ensures { IfOk result (λ known. known ≡ sides_by at op left.now right.now) }
{
    match (left, right) {
        (Folded::Beyond(place), _) => Ok(Folded::Beyond(*place)),
        (Folded::Number(left), Folded::Number(right)) => {
            Ok(number_or_beyond(at, result_of(op, *left, *right)))
        }
        _ => texts(alloc, op, left, right),
    }
}
