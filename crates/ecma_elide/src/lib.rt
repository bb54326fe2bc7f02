//! Imports and exports that stand for types alone, or that nothing uses, taken out of a module.
//!
//! Which those are is decided of a resolved tree, in which every import counts (docs/ELISION.md).
#![tactic(auto)]

mod declared;
mod eliding;
mod going;
mod known;
mod laws;
mod seat;
mod typed;

pub use eliding::{StripImportExport, elide};
pub use laws::{elided_modules_are_sorted, trees_without_imports_and_exports_stay};
pub use seat::Seat;
pub use typed::Typed;
