//! Operators: their words and their precedences.
ghost use Rattle.std.specs.Prelude.{◌≡◌};
ghost use Rattle.ecma_print.specs.Operators.{unary_word, unary_sign, update_word, update_sign, binary_word, binary_level, left_level, right_level, under, assign_word};

use crate::place::Beside;
use crate::precedence;
use ecma_tree::{AssignOp, BinaryOp, UnaryOp, UpdateOp};

/// What a unary operator puts before its operand.
pub(crate) fn unary_word(op: UnaryOp) -> &'static str
    ensures { result.now ≡ unary_word op }
{
    match op {
        UnaryOp::Minus => "-",
        UnaryOp::Plus => "+",
        UnaryOp::Bang => "!",
        UnaryOp::Tilde => "~",
        UnaryOp::TypeOf => "typeof ",
        UnaryOp::Void => "void ",
        UnaryOp::Delete => "delete ",
    }
}

/// The sign that it ends with.
pub(crate) fn unary_sign(op: UnaryOp) -> Beside
    ensures { result ≡ unary_sign op }
{
    match op {
        UnaryOp::Minus => Beside::BehindMinus,
        UnaryOp::Plus => Beside::BehindPlus,
        _ => Beside::NoNeighbor,
    }
}

/// `++` or `--`.
pub(crate) fn update_word(op: UpdateOp) -> &'static str
    ensures { result.now ≡ update_word op }
{
    match op {
        UpdateOp::PlusPlus => "++",
        UpdateOp::MinusMinus => "--",
    }
}

/// The sign that it begins and ends with.
pub(crate) fn update_sign(op: UpdateOp) -> Beside
    ensures { result ≡ update_sign op }
{
    match op {
        UpdateOp::PlusPlus => Beside::BehindPlus,
        UpdateOp::MinusMinus => Beside::BehindMinus,
    }
}

/// A binary operator, with its blanks.
pub(crate) fn binary_word(op: BinaryOp) -> &'static str
    ensures { result.now ≡ binary_word op }
{
    match op {
        BinaryOp::EqEq => " == ",
        BinaryOp::NotEq => " != ",
        BinaryOp::EqEqEq => " === ",
        BinaryOp::NotEqEq => " !== ",
        BinaryOp::Lt => " < ",
        BinaryOp::LtEq => " <= ",
        BinaryOp::Gt => " > ",
        BinaryOp::GtEq => " >= ",
        BinaryOp::LShift => " << ",
        BinaryOp::RShift => " >> ",
        BinaryOp::ZeroFillRShift => " >>> ",
        BinaryOp::Add => " + ",
        BinaryOp::Sub => " - ",
        BinaryOp::Mul => " * ",
        BinaryOp::Div => " / ",
        BinaryOp::Mod => " % ",
        BinaryOp::BitOr => " | ",
        BinaryOp::BitXor => " ^ ",
        BinaryOp::BitAnd => " & ",
        BinaryOp::LogicalOr => " || ",
        BinaryOp::LogicalAnd => " && ",
        BinaryOp::In => " in ",
        BinaryOp::InstanceOf => " instanceof ",
        BinaryOp::Exp => " ** ",
        BinaryOp::NullishCoalescing => " ?? ",
    }
}

/// The precedence of an expression with this operator.
pub(crate) fn binary_level(op: BinaryOp) -> u8
    ensures { result ≡ binary_level op }
{
    match op {
        BinaryOp::NullishCoalescing | BinaryOp::LogicalOr => precedence::SHORT_CIRCUIT,
        BinaryOp::LogicalAnd => precedence::LOGICAL_AND,
        BinaryOp::BitOr => precedence::BITWISE_OR,
        BinaryOp::BitXor => precedence::BITWISE_XOR,
        BinaryOp::BitAnd => precedence::BITWISE_AND,
        BinaryOp::EqEq | BinaryOp::NotEq | BinaryOp::EqEqEq | BinaryOp::NotEqEq =>
            precedence::EQUALITY,
        BinaryOp::Lt
        | BinaryOp::LtEq
        | BinaryOp::Gt
        | BinaryOp::GtEq
        | BinaryOp::In
        | BinaryOp::InstanceOf => precedence::RELATIONAL,
        BinaryOp::LShift | BinaryOp::RShift | BinaryOp::ZeroFillRShift => precedence::SHIFT,
        BinaryOp::Add | BinaryOp::Sub => precedence::ADDITIVE,
        BinaryOp::Mul | BinaryOp::Div | BinaryOp::Mod => precedence::MULTIPLICATIVE,
        BinaryOp::Exp => precedence::EXPONENTIATION,
    }
}

/// The least precedence of its left operand: operators group to the left, and on the left of `**` stands no unary operator.
pub(crate) fn left_level(op: BinaryOp) -> u8
    ensures { result ≡ left_level op }
{
    match op {
        BinaryOp::Exp => precedence::UPDATE,
        _ => binary_level(op),
    }
}

/// The least precedence of its right operand: one more than its own, but `**` groups to the right.
pub(crate) fn right_level(op: BinaryOp) -> u8
    ensures { result ≡ right_level op }
{
    match op {
        BinaryOp::NullishCoalescing | BinaryOp::LogicalOr => precedence::LOGICAL_AND,
        BinaryOp::LogicalAnd => precedence::BITWISE_OR,
        BinaryOp::BitOr => precedence::BITWISE_XOR,
        BinaryOp::BitXor => precedence::BITWISE_AND,
        BinaryOp::BitAnd => precedence::EQUALITY,
        BinaryOp::EqEq | BinaryOp::NotEq | BinaryOp::EqEqEq | BinaryOp::NotEqEq =>
            precedence::RELATIONAL,
        BinaryOp::Lt
        | BinaryOp::LtEq
        | BinaryOp::Gt
        | BinaryOp::GtEq
        | BinaryOp::In
        | BinaryOp::InstanceOf => precedence::SHIFT,
        BinaryOp::LShift | BinaryOp::RShift | BinaryOp::ZeroFillRShift => precedence::ADDITIVE,
        BinaryOp::Add | BinaryOp::Sub => precedence::MULTIPLICATIVE,
        BinaryOp::Mul | BinaryOp::Div | BinaryOp::Mod => precedence::EXPONENTIATION,
        BinaryOp::Exp => precedence::EXPONENTIATION,
    }
}

/// What it is for its operands: `??` does not go with `||` and `&&`.
pub(crate) fn under(op: BinaryOp) -> Beside
    ensures { result ≡ under op }
{
    match op {
        BinaryOp::NullishCoalescing => Beside::UnderNullish,
        BinaryOp::LogicalOr | BinaryOp::LogicalAnd => Beside::UnderLogical,
        _ => Beside::NoNeighbor,
    }
}

/// An assignment operator, with its blanks.
pub(crate) fn assign_word(op: AssignOp) -> &'static str
    ensures { result.now ≡ assign_word op }
{
    match op {
        AssignOp::Assign => " = ",
        AssignOp::AddAssign => " += ",
        AssignOp::SubAssign => " -= ",
        AssignOp::MulAssign => " *= ",
        AssignOp::DivAssign => " /= ",
        AssignOp::ModAssign => " %= ",
        AssignOp::LShiftAssign => " <<= ",
        AssignOp::RShiftAssign => " >>= ",
        AssignOp::ZeroFillRShiftAssign => " >>>= ",
        AssignOp::BitOrAssign => " |= ",
        AssignOp::BitXorAssign => " ^= ",
        AssignOp::BitAndAssign => " &= ",
        AssignOp::ExpAssign => " **= ",
        AssignOp::AndAssign => " &&= ",
        AssignOp::OrAssign => " ||= ",
        AssignOp::NullishAssign => " ??= ",
    }
}
