//! A list that owns its items and that contracts see as the plain list of them.
//!
//! A recursive type may hold itself through an [`ItemList`], and its value has then no pointer
//! and no capacity in it: so a contract can say that a copy equals what it copies.
#![tactic(auto)]

mod list;

pub use list::ItemList;

#[cfg(test)]
mod tests;
