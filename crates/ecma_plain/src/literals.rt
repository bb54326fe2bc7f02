//! Literals without source text: whether what is written for them can be read.
ghost use Rattle.std.specs.Prelude.{◌≡◌, ◌≤◌, ◌↔◌, IsTrue, length};
ghost use Rattle.ecma_number.specs.JsNumber.{value_of};
ghost use Rattle.ecma_number.specs.SafeInt.{IsSafe};
ghost use Rattle.ecma_leaves.specs.Words.{is_readable};
ghost use Rattle.ecma_print.specs.Escapes.{begins_with_separator, behind_unit, escape, made_text, unit};
ghost use Rattle.ecma_plain.specs.Writable.{IsWritable, big_text};

use ecma_number::JsNumber;
use ecma_tree::{JsWord, Kind};

/// So many bytes are not read.
const TOO_MANY: u64 = 4_294_967_296;

/// How many bytes are written for a byte.
fn escape_length(byte: u8) -> u64
    ensures length { result ≡ length (escape byte) }
    ensures small { result ≤ 2 }
{
    match byte {
        b'"' => 2,
        b'\\' => 2,
        b'\n' => 2,
        b'\r' => 2,
        _ => 1,
    }
}

/// Whether one of the two characters that end a line, but no text, stands at the front.
fn begins_with_separator(text: &[u8]) -> bool
    ensures { result ≡ begins_with_separator text.now }
{
    match text {
        [a, b, c, ..] => *a == 226 && *b == 128 && (*c == 168 || *c == 169),
        _ => false,
    }
}

/// How many bytes are written for what stands at the front.
fn unit_length(text: &[u8]) -> u64
    ensures length { result ≡ length (unit text.now) }
    ensures small { result ≤ 6 }
{
    match (begins_with_separator(text), text) {
        (true, [_, _, _, ..]) => 6,
        (false, [byte, ..]) => escape_length(*byte),
        _ => 0,
    }
}

/// What stands behind that.
fn behind_unit(text: &[u8]) -> &[u8]
    ensures { result.now ≡ behind_unit text.now }
{
    match (begins_with_separator(text), text) {
        (true, [_, _, _, behind @ ..]) => behind,
        (false, [_, behind @ ..]) => behind,
        _ => text,
    }
}

/// Whether the text that is made for these bytes can be read: its bytes are counted, and it is not made.
fn is_quoted_readable(text: &[u8]) -> bool
    ensures { result ≡ is_readable (made_text text.now) }
{
    let mut left = text;
    let mut written = 2u64;
    while !left.is_empty() {
        if written >= TOO_MANY {
            return false;
        }
        let more = unit_length(left);
        written += more;
        left = behind_unit(left);
    }
    written < TOO_MANY
}

/// Whether the text that is made for a value can be read.
fn is_made_readable(value: &str) -> bool
    ensures { result ≡ is_readable (made_text value.now) }
{
    is_quoted_readable(value.as_bytes())
}

/// Whether digits and `n` can be read.
fn is_big_readable(value: &str) -> bool
    ensures { result ≡ is_readable (big_text value.now) }
{
    value.len() + 1 < 4_294_967_296
}

/// A Number is in the domain.
fn numbers_are_safe(value: JsNumber)
    ensures { IsSafe (value_of value) }
{
    match value {
        JsNumber::Whole(number) => {
            number.get();
        }
        JsNumber::NegZero | JsNumber::NaN | JsNumber::Infinity | JsNumber::NegInfinity => {}
    }
}

/// Whether a text has its source text, or one that can be read is made for it.
fn is_writable_text(value: &JsWord, raw: &Option<JsWord>) -> bool
    ensures { IsTrue result ↔ IsWritable (Kind.Str value.now raw.now) }
{
    match raw {
        Some(_) => true,
        None => is_made_readable(value.as_str()),
    }
}

/// Whether a BigInt has its source text, or one that can be read is made for it.
fn is_writable_big_int(value: &JsWord, raw: &Option<JsWord>) -> bool
    ensures { IsTrue result ↔ IsWritable (Kind.BigInt value.now raw.now) }
{
    match raw {
        Some(_) => true,
        None => is_big_readable(value.as_str()),
    }
}

/// A Number is written as it is in the domain.
fn numbers_are_writable(value: &Option<JsNumber>, raw: &Option<JsWord>)
    ensures { IsWritable (Kind.Number value.now raw.now) }
{
    match raw {
        Some(_) => {}
        None => match value {
            Some(value) => numbers_are_safe(*value),
            None => {}
        },
    }
}

/// Whether a node is no literal without source text, or what is written for it can be read.
pub(crate) fn is_writable(kind: &Kind) -> bool
    ensures { IsTrue result ↔ IsWritable kind.now }
{
    match kind {
        Kind::Str { value, raw } => is_writable_text(value, raw),
        Kind::BigInt { value, raw } => is_writable_big_int(value, raw),
        Kind::Number { value, raw } => {
            numbers_are_writable(value, raw);
            true
        }
        _ => true,
    }
}
