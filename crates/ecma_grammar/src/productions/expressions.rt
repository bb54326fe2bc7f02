//! Conditional expressions, assignments, yield (ECMAScript, 13.14, 13.15, 15.5).
ghost use Rattle.std.specs.Prelude.{◌≡◌, false};
ghost use Rattle.ecma_grammar.specs.Rules.{expression_rule};
ghost use Rattle.ecma_grammar.specs.Written.{is_name, written};

use super::*;

/// A production of this topic that has a name.
#[derive(Clone, Copy, Debug)]
pub enum ExpressionRule {
    Conditional { no_in: bool, middle: bool },
    Assignments { no_in: bool, middle: bool },
}

/// The production of a name.
#[tactic(auto, unfolding(crate::specs::productions::Expressions::conditional, crate::specs::productions::Expressions::assignments))]
pub(super) fn expression_rule(rule: ExpressionRule) -> &'static Production
    ensures says { written result.now ≡ expression_rule rule }
    ensures unnamed { is_name result.now ≡ false }
{
    match rule {
        ExpressionRule::Conditional {
            no_in: false,
            middle: false,
        } => &CONDITIONAL_BODY,
        ExpressionRule::Conditional {
            no_in: false,
            middle: true,
        } => &CONDITIONAL_MIDDLE_BODY,
        ExpressionRule::Conditional {
            no_in: true,
            middle: false,
        } => &CONDITIONAL_NO_IN_BODY,
        ExpressionRule::Conditional {
            no_in: true,
            middle: true,
        } => &CONDITIONAL_NO_IN_MIDDLE_BODY,
        ExpressionRule::Assignments {
            no_in: false,
            middle: false,
        } => &ASSIGNMENTS_BODY,
        ExpressionRule::Assignments {
            no_in: false,
            middle: true,
        } => &ASSIGNMENTS_MIDDLE_BODY,
        ExpressionRule::Assignments {
            no_in: true,
            middle: false,
        } => &ASSIGNMENTS_NO_IN_BODY,
        ExpressionRule::Assignments {
            no_in: true,
            middle: true,
        } => &ASSIGNMENTS_NO_IN_MIDDLE_BODY,
    }
}

// ('?' Assign ':' Assign)?, where `in` is an operator in the middle
macro_rules! choice {
    ($no_in:tt, $middle:tt) => { optional!(item!(Plain::CondExpr, all!(punct!("?"), assign_at!(false, true), punct!(":"), assign_at!($no_in, $middle)))) };
}

pub(super) use choice;

// Cond = Short ('?' Assign ':' Assign)?
macro_rules! conditional {
    ($no_in:tt, $middle:tt) => { The(Rule::Expression(ExpressionRule::Conditional { no_in: $no_in, middle: $middle })) };
}

pub(super) use conditional;

macro_rules! conditional_body {
    ($no_in:tt, $middle:tt) => { Build(Form::Chain, &all!(short_circuit!($no_in), choice!($no_in, $middle))) };
}

static CONDITIONAL_BODY: Production = conditional_body!(false, false);

static CONDITIONAL_MIDDLE_BODY: Production = conditional_body!(false, true);

static CONDITIONAL_NO_IN_BODY: Production = conditional_body!(true, false);

static CONDITIONAL_NO_IN_MIDDLE_BODY: Production = conditional_body!(true, true);

// 'yield' (~'*' Assign / ~Assign)?
macro_rules! yield_ {
    ($no_in:tt, $middle:tt) => { Build(Form::Yield, &all!(word!("yield"), first_of!(all!(SameLine, punct!("*"), Put(Flag::Present), assign_at!($no_in, $middle)), all!(Put(Flag::Absent), maybe!(all!(SameLine, assign_at!($no_in, $middle))))))) };
}

pub(super) use yield_;

macro_rules! assignment {
    ($sign:expr, $op:expr, $no_in:tt, $middle:tt) => { item!(Plain::AssignExpr($op), all!(punct!($sign), assign_at!($no_in, $middle))) };
}

pub(super) use assignment;

// AssignOp Assign
macro_rules! assignments {
    ($no_in:tt, $middle:tt) => { The(Rule::Expression(ExpressionRule::Assignments { no_in: $no_in, middle: $middle })) };
}

pub(super) use assignments;

macro_rules! assignments_body {
    ($no_in:tt, $middle:tt) => { first_of!(assignment!("=", AssignOp::Assign, $no_in, $middle), assignment!("+=", AssignOp::AddAssign, $no_in, $middle), assignment!("-=", AssignOp::SubAssign, $no_in, $middle), assignment!("*=", AssignOp::MulAssign, $no_in, $middle), assignment!("/=", AssignOp::DivAssign, $no_in, $middle), assignment!("%=", AssignOp::ModAssign, $no_in, $middle), assignment!("**=", AssignOp::ExpAssign, $no_in, $middle), assignment!("<<=", AssignOp::LShiftAssign, $no_in, $middle), assignment!(">>=", AssignOp::RShiftAssign, $no_in, $middle), assignment!(">>>=", AssignOp::ZeroFillRShiftAssign, $no_in, $middle), assignment!("&=", AssignOp::BitAndAssign, $no_in, $middle), assignment!("|=", AssignOp::BitOrAssign, $no_in, $middle), assignment!("^=", AssignOp::BitXorAssign, $no_in, $middle), assignment!("&&=", AssignOp::AndAssign, $no_in, $middle), assignment!("||=", AssignOp::OrAssign, $no_in, $middle), assignment!("??=", AssignOp::NullishAssign, $no_in, $middle), Nothing) };
}

static ASSIGNMENTS_BODY: Production = assignments_body!(false, false);

static ASSIGNMENTS_MIDDLE_BODY: Production = assignments_body!(false, true);

static ASSIGNMENTS_NO_IN_BODY: Production = assignments_body!(true, false);

static ASSIGNMENTS_NO_IN_MIDDLE_BODY: Production = assignments_body!(true, true);

// Assign = Arrow / 'yield' .. / Cond (AssignOp Assign)?
macro_rules! assign_body {
    ($no_in:tt, $middle:tt) => { first_of!(arrow!($no_in, $middle), yield_!($no_in, $middle), Build(Form::Chain, &all!(conditional!($no_in, $middle), assignments!($no_in, $middle)))) };
}

pub(super) use assign_body;
