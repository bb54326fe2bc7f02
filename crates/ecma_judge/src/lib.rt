//! What is known of an expression before a program runs: whether it may have effects, its truth, its Number, its text and its type.
#![tactic(auto)]

mod callees;
mod casts;
mod ctx;
mod effects;
mod expr_ext;
mod extraction;
mod forms;
mod globals;
mod literals;
mod members;
mod numbers;
mod parts;
mod simple;
mod texts;
mod truths;
mod types;
mod ways;

pub use ctx::ExprCtx;
pub use effects::class_has_side_effect;
pub use expr_ext::ExprExt;
pub use literals::{LiteralVisitor, calc_literal_cost, is_literal};
pub use simple::{is_simple_pure_expr, is_simple_pure_member_expr};
