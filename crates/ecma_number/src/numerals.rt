//! Numeric literals (ECMAScript, 12.9.3), each production with its value. A place is an offset in bytes
//! from 0; what is read comes with the place where it ends.
ghost use Rattle.std.specs.Prelude.{◌≡◌, ◌+◌, ◌*◌, ◌^◌, ◌<◌, ◌≤◌, ◌&&◌, ◌==◌, ℤ, pos, false, Some, drop, length, option_and_then, slice_index, IfSome};
ghost use Rattle.std.specs.Char.{is_digit};
ghost use Rattle.ecma_number.specs.DigitRun.{Holds, HoldsInteger, HoldsMantissa, HoldsSigned, HoldsSize, IsShort, Reads, ReadsTo, digits_of_radix};
ghost use Rattle.ecma_number.specs.Saturated.{saturated};
ghost use Rattle.ecma_number.specs.Numeral.{Digits, MathematicalValue, begins, big_int_literal, code_point, decimal_integer, decimal_literal, digits, exponent_part, fraction_behind, has_separators, mantissa, integer_literal, letter, maybe, more_digits, non_decimal_integer_literal, numeral_of, numeric_literal, radix_and_digits, sign, signed_number_of, taken, times_power};

use crate::JsNumber;

/// Where a numeral stands: as a literal of a program, or in a text that is converted to a Number
/// (7.1.4.1), which has no separators and may begin with zeros.
#[derive(Clone, Copy)]
pub(crate) enum NumeralForm {
    Literal,
    Text,
}

/// Digits that were read, whose value is `size` times the radix to the power of `zeros`: the zeros at
/// their end are counted apart, so that a size past 64 bits is known to be no whole number once it is
/// divided. `size` is the largest of 64 bits where it is more.
#[derive(Clone, Copy)]
pub(crate) struct DigitRun {
    size: u64,
    zeros: u64,
    count: u64,
}

/// A signed integer, whose `size` is the largest of 64 bits where it is more.
#[derive(Clone, Copy)]
struct SignedSize {
    is_negative: bool,
    size: u64,
}

/// The exact value of a numeral: decimal with fraction and exponent, or after `0x`, `0o` or `0b` in
/// either case, with `_` between digits, of any length. `None` exactly where the text is no such
/// numeral, as one with a zero before another digit or one of a BigInt, or where its value is no
/// whole number up to 2^53 - 1.
#[tactic(auto, unfolding(crate::specs::Numeral::numeral_of))]
pub fn numeral_value(text: &str) -> Option<JsNumber>
    ensures { result ≡ numeral_of text.now }
{
    let text = text.as_bytes();
    let (size, end) = numeric_literal(text)?;
    if end != text.len() {
        return None;
    }
    number(false, size)
}

/// How many bytes the NumericLiteral of a Number has that stands at the front of a text (12.9.3): the
/// longest, with no zero before another digit. `None` exactly where none stands there.
pub fn numeric_literal_length(text: &[u8]) -> Option<usize>
    ensures { result ≡ taken numeric_literal text.now }
{
    let (_, end) = numeric_literal(text)?;
    Some(end)
}

/// How many bytes the NumericLiteral of a BigInt has that stands at the front of a text (12.9.3), with
/// the `n` at its end. `None` exactly where none stands there.
pub fn big_int_literal_length(text: &[u8]) -> Option<usize>
    ensures { result ≡ taken big_int_literal text.now }
{
    let end = integer_end(text)?;
    if stands(text, end, b'n') {
        Some(end + 1)
    } else {
        None
    }
}

// The end of the digits of a BigInt.
fn integer_end(text: &[u8]) -> Option<usize>
    ensures { ReadsTo text.now result (integer_literal text.now) }
{
    if let Some((_, end)) = non_decimal_integer(NumeralForm::Literal, text) {
        return Some(end);
    }
    let (_, end) = decimal_integer(NumeralForm::Literal, text)?;
    Some(end)
}

// ---- Numbers

// The Number of a size, where there is one.
pub(crate) fn number(is_negative: bool, size: Option<u64>) -> Option<JsNumber>
    ensures { result ≡ option_and_then (signed_number_of is_negative) size }
{
    match size {
        Some(size) => signed_number(is_negative, size),
        None => None,
    }
}

fn signed_number(is_negative: bool, size: u64) -> Option<JsNumber>
    ensures { result ≡ signed_number_of is_negative size }
{
    match i64::try_from(size) {
        Ok(number) => JsNumber::signed_whole(
            is_negative,
            if is_negative { -number } else { number },
        ),
        Err(_) => None,
    }
}

// ---- literals

// The literal of a Number at the front of a text: its value where that is whole, or 2^64 - 1 where it
// is more.
fn numeric_literal(text: &[u8]) -> Option<(Option<u64>, usize)>
    ensures { Reads HoldsSize text.now result (numeric_literal text.now) }
{
    if let Some((size, end)) = non_decimal_integer(NumeralForm::Literal, text) {
        return Some((Some(size), end));
    }
    decimal_literal(NumeralForm::Literal, text)
}

// Digits after `0x`, `0o` or `0b`: their value, or 2^64 - 1 where it is more.
pub(crate) fn non_decimal_integer(form: NumeralForm, text: &[u8]) -> Option<(u64, usize)>
    ensures { Reads HoldsInteger text.now result (non_decimal_integer_literal form text.now) }
{
    if !stands(text, 0, b'0') {
        return None;
    }
    let radix = radix_named(text, 1)?;
    let (run, end) = digits(form, radix, text, 2)?;
    Some((run.value(radix), end))
}

// The radix that a letter names in either case.
fn radix_named(text: &[u8], at: usize) -> Option<u32>
    ensures radix { (form : NumeralForm) → radix_and_digits form (drop at text.now) ≡ digits_of_radix form result (drop (at + 1) text.now) }
    ensures within { IfSome result (λ radix. (2 ≤ radix) × (radix ≤ 16)) }
{
    if at >= text.len() {
        return None;
    }
    match text[at] {
        b'x' | b'X' => Some(16),
        b'o' | b'O' => Some(8),
        b'b' | b'B' => Some(2),
        _ => None,
    }
}

// A decimal literal: its value where that is whole, or 2^64 - 1 where it is more.
pub(crate) fn decimal_literal(form: NumeralForm, text: &[u8]) -> Option<(Option<u64>, usize)>
    ensures { Reads HoldsSize text.now result (decimal_literal form text.now) }
{
    let (run, end) = mantissa(form, text)?;
    let (exponent, end) = exponent(form, text, end);
    Some((whole_size(run, exponent), end))
}

// The digits before the exponent, of which `count` stand after the point.
fn mantissa(form: NumeralForm, text: &[u8]) -> Option<(DigitRun, usize)>
    ensures read { Reads HoldsMantissa text.now result (mantissa form text.now) }
    ensures short { IfSome result IsShort }
{
    if let Some((whole, end)) = decimal_integer(form, text) {
        return Some(fraction(form, whole, text, end));
    }
    if !stands(text, 0, b'.') {
        return None;
    }
    digits(form, 10, text, 1)
}

fn decimal_integer(form: NumeralForm, text: &[u8]) -> Option<(DigitRun, usize)>
    ensures read { Reads (Holds 10) text.now result (decimal_integer form text.now) }
    ensures short { IfSome result IsShort }
{
    match form {
        NumeralForm::Literal => {
            if stands(text, 0, b'0') {
                return Some((DigitRun::NONE, 1));
            }
            digits(form, 10, text, 0)
        }
        NumeralForm::Text => digits(form, 10, text, 0),
    }
}

// The digits before a point with those after it, if there are any; only these are counted.
fn fraction(form: NumeralForm, whole: DigitRun, text: &[u8], at: usize) -> (DigitRun, usize)
    requires within { at ≤ length text.now }
    requires short { IsShort (whole, at) }
    ensures read { (exact : Digits) → Holds 10 whole exact → Reads HoldsMantissa text.now (Some result) (fraction_behind form exact (drop at text.now)) }
    ensures short { IsShort result }
{
    let start = DigitRun { count: 0, ..whole };
    if !stands(text, at, b'.') {
        return (start, at);
    }
    if !digit_stands(10, text, at + 1) {
        return (start, at + 1);
    }
    more_digits(form, 10, start, text, at + 1)
}

// The exponent after a mantissa, which may be missing.
fn exponent(form: NumeralForm, text: &[u8], at: usize) -> (SignedSize, usize)
    requires { at ≤ length text.now }
    ensures { Reads HoldsSigned text.now (Some result) (maybe (pos 0) (exponent_part form) (drop at text.now)) }
{
    let none = SignedSize {
        is_negative: false,
        size: 0,
    };
    exponent_part(form, text, at).unwrap_or((none, at))
}

fn exponent_part(form: NumeralForm, text: &[u8], at: usize) -> Option<(SignedSize, usize)>
    ensures { Reads HoldsSigned text.now result (exponent_part form (drop at text.now)) }
{
    if !letter_stands(text, at, b'e') {
        return None;
    }
    let (is_negative, start) = sign(text, at + 1);
    let (run, end) = digits(form, 10, text, start)?;
    Some((
        SignedSize {
            is_negative,
            size: run.value(10),
        },
        end,
    ))
}

// Whether a minus stands there, and the place after a sign.
pub(crate) fn sign(text: &[u8], at: usize) -> (bool, usize)
    requires { at ≤ length text.now }
    ensures read { maybe false sign (drop at text.now) ≡ Some (result.0, drop result.1 text.now) }
    ensures within { result.1 ≤ length text.now }
{
    if stands(text, at, b'+') {
        return (false, at + 1);
    }
    if stands(text, at, b'-') {
        return (true, at + 1);
    }
    (false, at)
}

// size * 10 ^ (zeros + exponent - count), where it is whole, or 2^64 - 1 where it is more.
fn whole_size(run: DigitRun, exponent: SignedSize) -> Option<u64>
    requires zeros { run.zeros < 2 ^ 63 }
    requires count { run.count < 2 ^ 63 }
    ensures { (value : MathematicalValue) (power : ℤ) → HoldsMantissa run value → HoldsSigned exponent power → HoldsSize result (times_power value power) }
{
    if run.size == 0 {
        return Some(0);
    }
    let (up, down) = if exponent.is_negative {
        (run.zeros, run.count.saturating_add(exponent.size))
    } else {
        (run.zeros.saturating_add(exponent.size), run.count)
    };
    if up < down {
        return None;
    }
    Some(with_zeros(10, run.size, up - down))
}

// ---- digits

fn digits(form: NumeralForm, radix: u32, text: &[u8], at: usize) -> Option<(DigitRun, usize)>
    requires least { 2 ≤ radix }
    requires most { radix ≤ 36 }
    ensures read { Reads (Holds radix) text.now result (digits form radix (drop at text.now)) }
    ensures short { IfSome result IsShort }
{
    if !digit_stands(radix, text, at) {
        return None;
    }
    Some(more_digits(form, radix, DigitRun::NONE, text, at))
}

fn more_digits(
    form: NumeralForm,
    radix: u32,
    before: DigitRun,
    text: &[u8],
    at: usize,
) -> (DigitRun, usize)
    requires least { 2 ≤ radix }
    requires most { radix ≤ 36 }
    requires within { at ≤ length text.now }
    requires short { IsShort (before, at) }
    ensures read { (exact : Digits) → Holds radix before exact → Reads (Holds radix) text.now (Some result) (Some (more_digits form radix exact (drop at text.now))) }
    ensures short { IsShort result }
{
    let mut run = before;
    let mut end = at;
    while end < text.len() {
        match char::from(text[end]).to_digit(radix) {
            Some(digit) => run = run.with(radix, digit),
            None => {
                if !is_separator(form, radix, text, end) {
                    return (run, end);
                }
            }
        }
        end += 1;
    }
    (run, end)
}

fn is_separator(form: NumeralForm, radix: u32, text: &[u8], at: usize) -> bool
    requires least { 2 ≤ radix }
    requires most { radix ≤ 36 }
    requires within { at < length text.now }
    ensures { result ≡ (has_separators form && (slice_index text.now at == 95 && begins (λ next. is_digit next radix) (drop (at + 1) text.now))) }
{
    has_separators(form) && text[at] == b'_' && digit_stands(radix, text, at + 1)
}

fn has_separators(form: NumeralForm) -> bool
    ensures { result ≡ has_separators form }
{
    matches!(form, NumeralForm::Literal)
}

fn digit_stands(radix: u32, text: &[u8], at: usize) -> bool
    requires least { 2 ≤ radix }
    requires most { radix ≤ 36 }
    ensures { result ≡ begins (λ first. is_digit first radix) (drop at text.now) }
{
    at < text.len() && char::from(text[at]).is_digit(radix)
}

pub(crate) fn stands(text: &[u8], at: usize, byte: u8) -> bool
    ensures { result ≡ begins (code_point byte) (drop at text.now) }
{
    at < text.len() && text[at] == byte
}

fn letter_stands(text: &[u8], at: usize, byte: u8) -> bool
    ensures { result ≡ begins (letter byte) (drop at text.now) }
{
    at < text.len() && text[at].eq_ignore_ascii_case(&byte)
}

impl DigitRun {
    const NONE: DigitRun = DigitRun {
        size: 0,
        zeros: 0,
        count: 0,
    };

    // One more digit after these.
    fn with(self, radix: u32, digit: u32) -> DigitRun
        requires least { 2 ≤ radix }
        requires small { digit < radix }
        requires zeros { self.zeros < 2 ^ 63 }
        requires count { self.count < 2 ^ 63 }
        ensures value { (exact : Digits) → Holds radix self exact → Holds radix result (record { mv = exact.mv * radix + digit; count = exact.count + 1 }) }
        ensures zeros { result.zeros ≤ self.zeros + 1 }
        ensures count { result.count ≡ self.count + 1 }
    {
        if digit == 0 {
            return DigitRun {
                size: self.size,
                zeros: self.zeros + 1,
                count: self.count + 1,
            };
        }
        DigitRun {
            size: with_zeros(radix, self.size, self.zeros + 1).saturating_add(u64::from(digit)),
            zeros: 0,
            count: self.count + 1,
        }
    }

    // The value, or 2^64 - 1 where it is more.
    fn value(self, radix: u32) -> u64
        requires least { 2 ≤ radix }
        ensures { (exact : Digits) → Holds radix self exact → result ≡ saturated exact.mv }
    {
        with_zeros(radix, self.size, self.zeros)
    }
}

// From 64 zeros on, every number but 0 is more than 2^64 - 1.
fn with_zeros(radix: u32, value: u64, zeros: u64) -> u64
    requires least { 2 ≤ radix }
    ensures { result ≡ saturated (value * radix ^ zeros) }
{
    let power = u64::from(radix).saturating_pow(zeros.min(64) as u32);
    value.saturating_mul(power)
}
