//! The nodes of expressions: chains of operators, members and calls, templates, constructions, lists, sequences, assertions.
#![tactic(auto)]

mod chains;
mod lists;

pub use chains::{chained, construction, links, logical, template};
pub use lists::{assertion, elements, only, sequence, swapped};
