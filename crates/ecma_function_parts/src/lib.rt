//! What the crates on functions have in common: nodes that several of them write, and contexts that are drawn where they are wanted.
#![tactic(auto)]

mod drawing;
mod written;

pub use drawing::draw_if;
pub use written::{arguments_node, binding_of, first_or_absent, this_node};
