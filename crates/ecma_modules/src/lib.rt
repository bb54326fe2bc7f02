//! What it is to be a module: the reading of a text by the grammar, which keeps the context rules, and is finished.
#![tactic(auto)]

mod error;

pub use error::ReadError;
