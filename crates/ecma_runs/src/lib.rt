//! What a module does when it runs: the plain data of scripts and observations, the definition of
//! `observe` in `specs/`, and its laws, each the contract of a function of [`laws`].
//!
//! No code here runs a module. docs/RUNS.md explains the definitions.
#![tactic(auto)]

pub mod laws;
mod observation;
mod script;
mod shown;

pub use ecma_config::Config;
pub use observation::{Ending, Event};
pub use script::{
    Action, Actions, Answer, Answers, FreeValue, FreeValues, ImportValue, ImportValues, Script,
};
pub use shown::{ErrorKind, Shown, Shows};
