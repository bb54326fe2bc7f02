//! Precedences: how tight an expression binds, by the names of ECMAScript's productions (13). A greater one binds tighter, and an
//! expression stands in parentheses where its place asks for a greater one than its own.

/// `a, b`
pub(crate) const EXPRESSION: u8 = 0;
/// `a = b`, `(a) => b`, `yield a`
pub(crate) const ASSIGNMENT: u8 = 1;
/// `a ? b : c`
pub(crate) const CONDITIONAL: u8 = 2;
/// `a ?? b`, `a || b`
pub(crate) const SHORT_CIRCUIT: u8 = 3;
/// `a && b`
pub(crate) const LOGICAL_AND: u8 = 4;
/// `a | b`
pub(crate) const BITWISE_OR: u8 = 5;
/// `a ^ b`
pub(crate) const BITWISE_XOR: u8 = 6;
/// `a & b`
pub(crate) const BITWISE_AND: u8 = 7;
/// `a === b`
pub(crate) const EQUALITY: u8 = 8;
/// `a < b`, `a in b`, `a instanceof b`
pub(crate) const RELATIONAL: u8 = 9;
/// `a << b`
pub(crate) const SHIFT: u8 = 10;
/// `a + b`
pub(crate) const ADDITIVE: u8 = 11;
/// `a * b`
pub(crate) const MULTIPLICATIVE: u8 = 12;
/// `a ** b`
pub(crate) const EXPONENTIATION: u8 = 13;
/// `-a`, `typeof a`, `await a`
pub(crate) const UNARY: u8 = 14;
/// `++a`, `a++`
pub(crate) const UPDATE: u8 = 15;
/// `a(b)`, `a?.b`
pub(crate) const LEFT_HAND_SIDE: u8 = 16;
/// `a.b`, `new a(b)`, `(a)`, `[a]`
pub(crate) const MEMBER: u8 = 17;
