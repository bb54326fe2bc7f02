//! Checks on the exports of a resolved module: that each names something, and that no exported name has to change its text.
#![tactic(auto)]

mod check;
mod error;
mod names;
mod place;

pub use check::check_exports;
pub use error::ExportError;
pub use place::Place;
