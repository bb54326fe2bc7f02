//! Renamers: other contexts, other ids, another identifier, and no spans. Types are never entered.
#![tactic(auto)]

mod expand;
mod laws;
mod renamers;
mod rule;
mod spans;
mod spot;
mod walk;

pub use laws::{dropping_spans_twice_is_dropping_them_once, replacing_leaves_none};
pub use renamers::{IdentRenamer, IdentReplacer, Remapper, replace_ident};
pub use spans::{DropSpan, drop_span};
