//! Functions in the place of functions: each calls the one that it stands for.
//!
//! Each call equals a definition in specs/. Nothing here speaks of runs.
#![tactic(auto)]

mod counting;
mod laws;
mod parts;
mod wrapper;
mod written;

pub use laws::{
    at_most_one_context_is_drawn_for_a_parameter_or_a_wrapper,
    each_parameter_that_counts_has_a_stand_in,
};
pub use wrapper::{FnWrapperResult, FunctionWrapper};
