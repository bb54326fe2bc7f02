//! The context rules of ECMAScript and TypeScript over raw trees, and the finished tree with its patterns.
//!
//! A raw tree is what the grammar alone gives: an expression stands where something is assigned to. docs/RULES.md says
//! which rules are asked of it, and what becomes of it.
#![tactic(auto)]

mod broken;
mod children;
mod failing;
mod jumps;
mod labels;
mod laws;
mod lists;
mod members;
mod patterns;
mod standing;
mod statements;
mod strays;
mod supers;
mod target;
mod types;

pub use broken::{fails_list, fails_member, fails_statement, first_broken};
pub use children::{has_child, items_at};
pub use failing::{failing_here, least};
pub use jumps::first_stray;
pub use laws::{finishing_keeps_all_but_patterns, the_first_broken_is_the_least};
pub use members::second_constructor;
pub use patterns::finish;
pub use standing::{Around, Standing, around_in, at_root};
pub use strays::Strays;
pub use target::{Target, is_simple_target};
pub use types::bare_types;
