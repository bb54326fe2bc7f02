//! What names a variable: values that have an id, a text and a context, and that are made of an identifier.
#![tactic(auto)]

mod ident_like;

pub use ident_like::{IdentLike, id, ids_come_back};
