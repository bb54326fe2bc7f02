ghost use Rattle.std.specs.Prelude.{◌≡◌, ◌+◌, ◌^◌, ◌<◌, ◌≤◌, ◌++◌, length, IfOk, IfSome, MatchOption, Some, None, option_map, is_some, true};
ghost use Rattle.std.specs.String.{string_bytes};
ghost use Rattle.std.specs.Char.Utf16.{is_high_surrogate, is_low_surrogate, surrogate_pair_char};
ghost use Rattle.ecma_lex.specs.Text.{IsPiece};
ghost use Rattle.ecma_lex.specs.Escapes.{listed};
ghost use Rattle.ecma_lex.specs.Values.{FindsPlain, IsHigh, Joins, Steps, bytes_of, literal_part, literal_value, part_value, string_part};

use crate::chars::char_at;
use crate::escapes::{escape_end, escape_value, line_terminator_sequence_end};
use crate::parts::code_point_end;
use ecma_number::NoMemory;
use std::alloc::Global;

/// The character of ASCII at a place, if it says itself in each literal.
pub(crate) fn plain_at(text: &str, at: u32) -> Option<char>
    ensures value { FindsPlain text.now at result }
    ensures piece { IfSome result (λ _. IsPiece text.now at (at + 1)) }
{
    let c = char_at(text, at)?;
    if c < '\u{80}' && !matches!(c, '\n' | '\r' | '"' | '$' | '\'' | '\\' | '`') {
        Some(c)
    } else {
        None
    }
}

/// The place behind a character, or behind an escape with its backslash.
#[tactic(auto, unfolding(crate::specs::Values::string_part))]
fn string_part_end(text: &str, from: u32) -> Option<u32>
    requires { length text.now < 2 ^ 32 }
    ensures value { result ≡ string_part text.now from }
    ensures piece { IfSome result (λ next. (from < next) × IsPiece text.now from next) }
{
    let c = char_at(text, from)?;
    if c != '\\' {
        return Some(from + c.len_utf8() as u32);
    }
    escape_end(text, from + 1)
}

/// The place behind a part of a literal's text.
#[tactic(auto, unfolding(crate::specs::Values::literal_part))]
pub(crate) fn literal_part_end(text: &str, from: u32, in_template: bool) -> Option<u32>
    requires { length text.now < 2 ^ 32 }
    ensures value { result ≡ literal_part in_template text.now from }
    ensures piece { IfSome result (λ next. (from < next) × IsPiece text.now from next) }
{
    if !in_template {
        return string_part_end(text, from);
    }
    match line_terminator_sequence_end(text, from) {
        Some(next) => Some(next),
        None => string_part_end(text, from),
    }
}

/// The code point of the part of a literal's text that stands from one place to another.
#[tactic(auto, unfolding(crate::specs::Values::part_value))]
fn part_value(text: &str, from: u32, next: u32, in_template: bool) -> Option<u32>
    requires small { length text.now < 2 ^ 32 }
    requires stands { literal_part in_template text.now from ≡ Some next }
    ensures value { listed result ≡ part_value in_template text.now from next }
    ensures small { IfSome result (λ code. code ≤ 0x10FFFF) }
{
    let c = char_at(text, from)?;
    if c == '\\' {
        return escape_value(text, from + 1, next);
    }
    if in_template && c == '\r' {
        return Some(10);
    }
    Some(c as u32)
}

/// Whether a code point is the first half of a pair of surrogates.
fn is_high(code: u32) -> bool
    ensures { result ≡ is_high_surrogate code }
{
    0xd800 <= code && code < 0xdc00
}

/// Whether a code point is the second half of a pair of surrogates.
fn is_low(code: u32) -> bool
    ensures { result ≡ is_low_surrogate code }
{
    0xdc00 <= code && code < 0xe000
}

/// The character of a pair of surrogates.
fn paired(high: u32, low: u32) -> char
    requires high { is_high_surrogate high ≡ true }
    requires low { is_low_surrogate low ≡ true }
    ensures { result ≡ surrogate_pair_char high low }
{
    char::from_u32(0x1_0000 + (high - 0xd800) * 0x400 + (low - 0xdc00)).unwrap()
}

/// What is known behind a code point.
#[derive(Clone, Copy)]
pub struct Joined {
    /// The character that it completes, if it does.
    pub says: Option<char>,
    /// The high surrogate that a low one still has to follow.
    pub high: Option<u32>,
}

/// Joins a code point to the high surrogate before it, if one waits there; none where a surrogate is in no pair.
#[tactic(auto, using(crate::proofs::Sayings::joining))]
fn join(high: Option<u32>, code: Option<u32>) -> Option<Joined>
    requires high { IsHigh high }
    requires small { IfSome code (λ code. code ≤ 0x10FFFF) }
    ensures value { Joins high code result }
    ensures high { IfSome result (λ joined. IsHigh joined.high) }
{
    let code = match code {
        Some(code) => code,
        None => return Some(Joined { says: None, high }),
    };
    match high {
        Some(high) => {
            if !is_low(code) {
                return None;
            }
            Some(Joined {
                says: Some(paired(high, code)),
                high: None,
            })
        }
        None => {
            if is_high(code) {
                return Some(Joined {
                    says: None,
                    high: Some(code),
                });
            }
            Some(Joined {
                says: Some(char::from_u32(code)?),
                high: None,
            })
        }
    }
}

/// How far the reading of a literal's text came with one part.
#[derive(Clone, Copy)]
pub struct LiteralStep {
    /// The place behind the part.
    pub next: u32,
    /// What is known behind its code point.
    pub joined: Joined,
}

/// Reads the part of a literal's text at a place, behind a high surrogate if one waits; none where nothing well-formed stands there, or a
/// surrogate is in no pair.
#[tactic(auto, using(crate::proofs::Plain::saying))]
pub fn read_literal_part(
    text: &str,
    at: u32,
    high: Option<u32>,
    in_template: bool,
) -> Option<LiteralStep>
    requires small { length text.now < 2 ^ 32 }
    requires high { IsHigh high }
    requires more { at < length text.now }
    ensures value { Steps high in_template text.now at result }
    ensures forward { IfSome result (λ step. (at < step.next) × (step.next ≤ length text.now)) }
    ensures high { IfSome result (λ step. IsHigh step.joined.high) }
{
    if high.is_none() {
        if let Some(c) = plain_at(text, at) {
            return Some(LiteralStep {
                next: at + 1,
                joined: Joined {
                    says: Some(c),
                    high: None,
                },
            });
        }
    }
    let next = literal_part_end(text, at, in_template)?;
    let joined = join(high, part_value(text, at, next, in_template))?;
    Some(LiteralStep { next, joined })
}

/// Whether the text of a literal says something: each part of it is well-formed, and each surrogate is in a pair.
#[tactic(auto, unfolding(crate::specs::Values::literal_value), using(crate::proofs::Sayings::valuing))]
pub fn has_literal_value(text: &str, in_template: bool) -> bool
    requires { length text.now < 2 ^ 32 }
    ensures { result ≡ is_some (literal_value in_template text.now) }
{
    let mut high = None;
    let mut i = 0;
    while (i as usize) < text.len() {
        match read_literal_part(text, i, high, in_template) {
            Some(step) => {
                high = step.joined.high;
                i = step.next;
            }
            None => return false,
        }
    }
    high.is_none()
}

/// Puts what is said to the end of a text.
pub(crate) fn push(text: &mut String, says: Option<char>) -> Result<(), NoMemory>
    ensures { IfOk result (λ _. string_bytes text.new ≡ string_bytes text.old ++ bytes_of says) }
{
    match says {
        Some(c) => Ok(text.push(c)?),
        None => Ok(()),
    }
}

/// What the text of a literal says; none where a part of it is not well-formed, or a surrogate is in no pair.
#[tactic(auto, unfolding(crate::specs::Values::literal_value), using(crate::proofs::Sayings::valuing))]
pub(crate) fn literal_value(
    alloc: Global,
    text: &str,
    in_template: bool,
) -> Result<Option<String>, NoMemory>
    requires { length text.now < 2 ^ 32 }
    ensures { IfOk result (λ value. option_map string_bytes value ≡ literal_value in_template text.now) }
{
    let mut value = String::new(alloc);
    let mut high = None;
    let mut i = 0;
    while (i as usize) < text.len() {
        match read_literal_part(text, i, high, in_template) {
            Some(step) => {
                push(&mut value, step.joined.says)?;
                high = step.joined.high;
                i = step.next;
            }
            None => return Ok(None),
        }
    }
    match high {
        Some(_) => Ok(None),
        None => Ok(Some(value)),
    }
}
