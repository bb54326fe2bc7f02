//! Lowers enums: what does something of them when it runs, as ECMAScript; and writes the values of members where these are read.
//!
//! What a tree becomes is one definition, a rewriting by seats: `writing` in specs/Writing.antt.
#![tactic(auto)]

mod answer;
mod around;
mod form;
mod forms;
mod known;
mod names;
mod parts;
mod pass;
mod place;
mod writing;

pub use answer::Answer;
pub use form::{Form, Told};
pub use known::{Around, EnumName, KnownEnums, Part};
pub use pass::{InlineEnum, lower_enums};
pub use place::Place;
