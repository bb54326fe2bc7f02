//! The machine that reads a text by the grammar, which is data, and the reader that it moves: where that stands in the text, and what it has kept.
#![tactic(auto)]

mod failure;
mod machine;
mod raw;
mod reader;

pub use raw::read_raw;
