//! From a program of TypeScript to one of ECMAScript in one pass: what elision drops, the types, the assignments, and `export {}`. With the law that assignments
//! may be written before types are stripped or after.
#![tactic(auto)]

mod error;
mod laws;
mod pass;

pub use error::TypeScriptError;
pub use laws::assignments_before_or_after;
pub use pass::{TypeScriptPass, strip, typescript};
