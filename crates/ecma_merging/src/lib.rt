//! Declarations that merge: of enums and namespaces with classes, functions, enums and namespaces of their name before them in one list of items.
#![tactic(auto)]

mod asked;
mod check;
mod error;
mod finding;
mod given;
mod items;
mod list;
mod walk;

pub use check::check_merging;
pub use error::MergeError;
