//! The Number that a text stands for (ECMAScript, 7.1.4.1.1 StringToNumber).
ghost use Rattle.std.specs.Prelude.{◌≡◌};
ghost use Rattle.ecma_number.specs.Blanks.{front_trimmed, end_trimmed};
ghost use Rattle.ecma_number.specs.StringToNumber.{known_of, unsigned_text_number_of, trimmed_text_number_of, text_number_of};

use crate::blanks::is_blank;
use crate::numerals::{NumeralForm, decimal_literal, non_decimal_integer, number, sign};
use crate::{JsNumber, Value};

/// The Number of a text, with white space and line terminators round it left out: 0 for no text, a
/// decimal numeral with or without a sign, `Infinity` with or without one, or digits after `0x`,
/// `0o` or `0b`; NaN for any other text. Unknown exactly where the exact value is no whole number
/// within 2^53 - 1.
pub fn num_from_str(text: &str) -> Value<JsNumber>
    ensures { result ≡ text_number_of text.now }
{
    trimmed_text_number(end_trimmed(front_trimmed(text)).as_bytes())
}

#[tactic(auto, unfolding(crate::specs::StringToNumber::trimmed_text_number_of))]
fn trimmed_text_number(text: &[u8]) -> Value<JsNumber>
    ensures { result ≡ trimmed_text_number_of text.now }
{
    if text.is_empty() {
        return Value::Known(JsNumber::zero(false));
    }
    if let Some((size, end)) = non_decimal_integer(NumeralForm::Text, text) {
        if end == text.len() {
            return known(number(false, Some(size)));
        }
    }
    let (is_negative, start) = sign(text, 0);
    unsigned_text_number(is_negative, &text[start..])
}

#[tactic(auto, unfolding(crate::specs::StringToNumber::unsigned_text_number_of))]
fn unsigned_text_number(is_negative: bool, text: &[u8]) -> Value<JsNumber>
    ensures { result ≡ unsigned_text_number_of is_negative text.now }
{
    if text == b"Infinity".as_slice() {
        return Value::Known(JsNumber::infinity(is_negative));
    }
    if let Some((size, end)) = decimal_literal(NumeralForm::Text, text) {
        if end == text.len() {
            return known(number(is_negative, size));
        }
    }
    Value::Known(JsNumber::NaN)
}

fn known(number: Option<JsNumber>) -> Value<JsNumber>
    ensures { result ≡ known_of number }
{
    match number {
        Some(number) => Value::Known(number),
        None => Value::Unknown,
    }
}

fn front_trimmed(text: &str) -> &str
    ensures { result.now ≡ front_trimmed text.now }
{
    let mut kept = text;
    let mut characters = text.chars();
    while let Some(character) = characters.next() {
        if !is_blank(character) {
            return kept;
        }
        kept = characters.as_str();
    }
    kept
}

fn end_trimmed(text: &str) -> &str
    ensures { result.now ≡ end_trimmed text.now }
{
    let mut kept = text;
    let mut characters = text.chars();
    while let Some(character) = characters.next_back() {
        if !is_blank(character) {
            return kept;
        }
        kept = characters.as_str();
    }
    kept
}
