//! A module as it is read, without the imports and exports that stand for types alone, or that nothing uses.
//!
//! Which those are is asked of the module with its bindings (docs/ELISION.md), and contexts are dropped again: what is left could have been read.
#![tactic(auto)]

mod asking;
mod clearing;
mod eliding;
mod laws;

pub use eliding::elide_source;
pub use laws::{
    elided_sources_are_read, elided_sources_are_taken, elided_sources_need_no_lowering,
    elided_sources_take_as_many_contexts, eliding_keeps_names_short, eliding_makes_no_names,
    kept_sources_stay,
};
