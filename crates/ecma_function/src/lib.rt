//! What is done to functions as trees: what stands behind `super(..)`.
//!
//! Each call equals a definition in specs/. Nothing here speaks of runs.
#![tactic(auto)]

mod call;
mod constructor;
mod injecting;
mod laws;
mod place;
mod this;

pub use constructor::inject_after_super;
pub use laws::at_most_one_context_is_drawn_for_a_call;
pub use this::init_this;
