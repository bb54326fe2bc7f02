//! Writing enums, and stripping types: which of the two is done first does not matter.
//!
//! Each function carries one law over the definitions, and does nothing. The laws are stated in `specs/Laws.antt`.
#![tactic(auto)]

mod laws;

pub use laws::{enums_before_or_after, enums_before_or_after_alike, enums_lowered_before_or_after};
