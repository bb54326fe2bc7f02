//! Prints a tree in this project's layout: `specs/Layout.antt`.
#![tactic(auto)]

mod escapes;
mod inside;
mod kinds;
mod operators;
mod out;
pub mod place;
mod precedence;
mod show;

pub use show::print_module;
