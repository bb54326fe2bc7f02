//! The texts of Numbers.
ghost use Rattle.std.specs.Prelude.{◌≡◌, ℕ, List, IfOk, string_bytes};

use crate::{JsNumber, NoMemory};
use std::alloc::Global;
use std::marker::Model;

/// An owned text. Contracts see it as its bytes.
#[derive(Debug, Drop)]
pub struct JsText {
    text: String,
}

impl Model for JsText {
    ghost Value = { List ℕ };

    ghost view = { λ owned. string_bytes owned.text };
}

impl JsText {
    /// The text.
    pub fn as_str(&self) -> &str
        ensures { result.now ≡ self.now }
    {
        self.text.as_str()
    }
}

/// What has a text of its own, as ECMAScript's ToString gives it (7.1.17).
pub trait ToJsString {
    ghost text_of: { Self → List ℕ };

    /// The text. The only refusal is want of memory.
    fn to_js_string(&self, alloc: Global) -> Result<JsText, NoMemory>
        ensures { IfOk result (λ text. text ≡ text_of self.now) };
}

/// The text of a Number (6.1.6.1.20 Number::toString): its decimal digits, after a minus below 0;
/// both zeros are `0`.
impl ToJsString for JsNumber {
    ghost use Rattle.ecma_number.specs.Text.{text_of};

    ghost text_of = { text_of };

    fn to_js_string(&self, alloc: Global) -> Result<JsText, NoMemory> {
        let text = match self {
            JsNumber::NaN => String::from_str(alloc, "NaN")?,
            JsNumber::NegZero => String::from_str(alloc, "0")?,
            JsNumber::Infinity => String::from_str(alloc, "Infinity")?,
            JsNumber::NegInfinity => String::from_str(alloc, "-Infinity")?,
            JsNumber::Whole(number) => number.get().to_string(alloc)?,
        };
        Ok(JsText { text })
    }
}
