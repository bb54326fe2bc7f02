//! The nodes of classes and of their members.
#![tactic(auto)]

mod classes;

pub use classes::{class, field, index_signature, member, method, new_signature, type_signature};
