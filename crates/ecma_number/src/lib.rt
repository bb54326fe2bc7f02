//! ECMAScript's Numbers, cut to the whole numbers that a double holds exactly and the four special
//! values, and what is known of values before a program runs.
#![tactic(auto)]

mod arithmetic;
mod bits;
mod blanks;
pub mod derived;
mod equality;
mod error;
mod js_number;
mod numerals;
mod safe_int;
mod string_to_number;
mod text;
mod types;
mod value;

pub use bits::to_int32;
pub use blanks::{is_blank, is_line_terminator, is_white_space};
pub use error::NoMemory;
pub use js_number::JsNumber;
pub use numerals::{big_int_literal_length, numeral_value, numeric_literal_length};
pub use safe_int::SafeInt;
pub use string_to_number::num_from_str;
pub use text::{JsText, ToJsString};
pub use types::{JsType, Purity};
pub use value::{BoolValue, UnknownError, Value};

#[cfg(test)]
mod tests;
