//! Texts by number: each distinct text has one, in the order in which they came.
#![tactic(auto)]

mod table;

pub use table::SymbolTable;

#[cfg(test)]
mod tests;
