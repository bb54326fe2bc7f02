//! What the nodes of several families are made with: lists of so many nodes, modifiers, signatures.
#![tactic(auto)]

mod frames;
mod modifiers;
mod presence;
mod signatures;

pub use frames::{five, four, nine, one, seven, six, three, two};
pub use modifiers::{accessibility_of, has_word};
pub use presence::{is_absent, is_present, let_go};
pub use signatures::{Signature, function_of, parameters};
