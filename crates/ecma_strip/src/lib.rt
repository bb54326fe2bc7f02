//! Takes the types out of a tree.
#![tactic(auto)]

mod laws;
mod plain;
mod staying;
mod stripper;

pub use laws::{no_types_are_left, sorts_are_kept, trees_without_types_stay};
pub use staying::stays;
pub use stripper::{TypeStripper, strip_type};
