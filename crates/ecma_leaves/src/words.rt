//! How leaves are spelled.
ghost use Rattle.std.specs.Prelude.{◌≡◌, ◌-◌, ◌^◌, ◌<◌, ◌&&◌, IsSome, bytes_eq, false, filter, length};
ghost use Rattle.std.specs.Bool.{OnTrue};
ghost use Rattle.std.specs.Char.{is_ascii_digit};
ghost use Rattle.std.specs.List.{list_all, list_any};
ghost use Rattle.std.specs.Str.{chars};
ghost use Rattle.ecma_number.specs.Blanks.{is_line_terminator};
ghost use Rattle.ecma_lex.specs.Values.{literal_value};
ghost use Rattle.ecma_leaves.specs.Sayings.{is_said};
ghost use Rattle.ecma_lex.specs.Strings.{str_lit, str_value};
ghost use Rattle.ecma_lex.specs.Templates.{template_value};
ghost use Rattle.ecma_lex.specs.Text.{piece};
ghost use Rattle.ecma_lex.specs.Tokens.{big, key, num};
ghost use Rattle.ecma_leaves.specs.Words.{digits_of, is_big_int, is_cooked, is_decimal, is_hashbang, is_natural, is_no_return, is_no_separator, is_number, is_one, is_one_line, is_readable, is_regex, is_same_whole, is_spelled, is_string, is_text_part, is_value, is_whole};

use crate::regexes::{are_flags, is_body};
use crate::says::says;
use crate::templates::stands_in_template;
use ecma_kind::{JsWord, Kind};
use ecma_lex::{NoToken, Token, big, has_literal_value, key, num, piece, str_lit};
use ecma_number::{JsNumber, is_line_terminator, numeral_value};

/// Whether a token is the whole text.
fn is_whole(text: &str, reading: Result<Token, NoToken>) -> bool
    ensures { result ≡ is_whole text.now reading }
{
    match reading {
        Ok(token) => token.start == 0 && token.next as usize == text.len(),
        Err(_) => false,
    }
}

/// Whether a text can be read: no place in it is above `u32::MAX`.
fn is_readable(text: &str) -> bool
    ensures { result ≡ is_readable text.now }
{
    text.len() < 4_294_967_296
}

fn is_key(text: &str) -> bool
    ensures { result ≡ is_one key text.now }
{
    is_readable(text) && is_whole(text, key(text, 0))
}

fn is_numeral(text: &str) -> bool
    ensures { result ≡ is_one num text.now }
{
    is_readable(text) && is_whole(text, num(text, 0))
}

fn is_big_numeral(text: &str) -> bool
    ensures { result ≡ is_one big text.now }
{
    is_readable(text) && is_whole(text, big(text, 0))
}

/// Whether a text is a string literal, which then says something.
fn is_string_literal(raw: &str) -> bool
    requires { length raw.now < 2 ^ 32 }
    ensures value { result ≡ is_whole raw.now (str_lit raw.now 0) }
    ensures says { OnTrue result (IsSome (literal_value false (piece raw.now 1 (length raw.now - 1)))) }
{
    match str_lit(raw, 0) {
        Ok(token) => token.start == 0 && token.next as usize == raw.len(),
        Err(_) => false,
    }
}

/// Whether what stands between the quotes of a literal says a text.
#[tactic(auto, using(crate::proofs::Characters::piece_within))]
fn inside_says(raw: &str, value: &str) -> bool
    requires { length raw.now < 2 ^ 32 }
    ensures { result ≡ is_said (literal_value false (piece raw.now 1 (length raw.now - 1))) value.now }
{
    let end = (raw.len() as u32).saturating_sub(1);
    says(piece(raw, 1, end), value, false)
}

/// Whether a text is a string literal that says this.
#[tactic(auto, using(crate::proofs::Matching::valued))]
fn is_literal_of(raw: &str, value: &str) -> bool
    requires { length raw.now < 2 ^ 32 }
    ensures { result ≡ (is_whole raw.now (str_lit raw.now 0) && bytes_eq (str_value (piece raw.now 1 (length raw.now - 1))) value.now) }
{
    is_string_literal(raw) && inside_says(raw, value)
}

fn is_string(value: &str, raw: &Option<JsWord>) -> bool
    ensures { result ≡ is_string value.now raw.now }
{
    match raw {
        Some(raw) => is_readable(raw.as_str()) && is_literal_of(raw.as_str(), value),
        None => true,
    }
}

/// Whether two are one whole number.
fn is_same_whole(one: &JsNumber, other: &JsNumber) -> bool
    ensures { result ≡ is_same_whole one.now other.now }
{
    match one {
        JsNumber::Whole(a) => match other {
            JsNumber::Whole(b) => !(a.get() < b.get()) && !(b.get() < a.get()),
            _ => false,
        },
        _ => false,
    }
}

/// Whether two are the same whole number, or both lie outside of the domain.
fn is_value(value: &Option<JsNumber>, said: &Option<JsNumber>) -> bool
    ensures { result ≡ is_value value.now said.now }
{
    match value {
        None => said.is_none(),
        Some(value) => match said {
            None => false,
            Some(said) => is_same_whole(value, said),
        },
    }
}

fn is_natural(value: &JsNumber) -> bool
    ensures { result ≡ is_natural value.now }
{
    match value {
        JsNumber::Whole(value) => !(value.get() < 0),
        _ => false,
    }
}

/// Whether a number is what its source text says; without one it is whole and not negative.
fn is_number(value: &Option<JsNumber>, raw: &Option<JsWord>) -> bool
    ensures { result ≡ is_number value.now raw.now }
{
    match raw {
        Some(raw) => is_numeral(raw.as_str()) && is_value(value, &numeral_value(raw.as_str())),
        None => match value {
            Some(value) => is_natural(value),
            None => false,
        },
    }
}

/// Whether digits without their separators are these.
pub(crate) fn are_digits(digits: &[u8], value: &[u8]) -> bool
    ensures { result ≡ bytes_eq value.now (filter is_no_separator digits.now) }
{
    let mut rest = value;
    for digit in digits {
        if *digit != b'_' {
            match rest {
                [first, more @ ..] => {
                    if *first != *digit {
                        return false;
                    }
                    rest = more;
                }
                [] => return false,
            }
        }
    }
    rest.is_empty()
}

/// Whether a text is the digits of a numeral of a BigInt, which ends with `n`.
fn says_digits(raw: &str, value: &str) -> bool
    ensures { result ≡ bytes_eq value.now (digits_of raw.now) }
{
    let digits = raw.as_bytes();
    are_digits(&digits[..digits.len().saturating_sub(1)], value.as_bytes())
}

fn are_decimal_digits(text: &[u8]) -> bool
    ensures { result ≡ list_all is_ascii_digit text.now }
{
    text.iter().all(|digit| digit.is_ascii_digit())
}

pub(crate) fn is_decimal(text: &[u8]) -> bool
    ensures { result ≡ is_decimal text.now }
{
    match text {
        [] => false,
        [first, others @ ..] => are_decimal_digits(text) && (*first != b'0' || others.is_empty()),
    }
}

/// Whether the value of a BigInt is the digits of its source text; without one it is decimal digits.
fn is_big_int(value: &str, raw: &Option<JsWord>) -> bool
    ensures { result ≡ is_big_int value.now raw.now }
{
    match raw {
        Some(raw) => is_big_numeral(raw.as_str()) && says_digits(raw.as_str(), value),
        None => is_decimal(value.as_bytes()),
    }
}

/// Whether a regular expression of this body and these flags is one token.
fn is_regex(exp: &str, flags: &str) -> bool
    ensures { result ≡ is_regex exp.now flags.now }
{
    is_readable(exp) && is_body(exp) && are_flags(flags)
}

/// Whether a text part says this, or nothing behind a tag.
#[tactic(auto, unfolding(ecma_lex::specs::Templates::template_value))]
fn is_cooked(raw: &str, cooked: &Option<JsWord>, tagged: bool) -> bool
    requires { length raw.now < 2 ^ 32 }
    ensures { result ≡ is_cooked tagged (template_value raw.now) cooked.now }
{
    match cooked {
        Some(cooked) => says(raw, cooked.as_str(), true),
        None => tagged && !has_literal_value(raw, true),
    }
}

fn has_no_return(text: &[u8]) -> bool
    ensures { result ≡ list_all is_no_return text.now }
{
    text.iter().all(|byte| *byte != b'\r')
}

/// Whether the text part of a template may stand there, and says what it is to say.
fn is_text_part(raw: &str, cooked: &Option<JsWord>, tagged: bool) -> bool
    ensures { result ≡ is_text_part tagged raw.now cooked.now }
{
    is_readable(raw)
        && has_no_return(raw.as_bytes())
        && stands_in_template(raw, tagged)
        && is_cooked(raw, cooked, tagged)
}

fn has_line_terminator(text: &str) -> bool
    ensures { result ≡ list_any is_line_terminator (chars text.now) }
{
    text.chars().any(|c| is_line_terminator(c))
}

fn is_one_line(text: &str) -> bool
    ensures { result ≡ is_one_line text.now }
{
    !has_line_terminator(text)
}

fn is_hashbang(shebang: &Option<JsWord>) -> bool
    ensures { result ≡ is_hashbang shebang.now }
{
    match shebang {
        Some(text) => is_one_line(text.as_str()),
        None => true,
    }
}

/// Whether a leaf is spelled as its terminal reads it, and says what that says; a text part perhaps behind a tag.
pub fn is_spelled(kind: &Kind, tagged: bool) -> bool
    ensures { result ≡ is_spelled tagged kind.now }
{
    match kind {
        Kind::Module { shebang } => is_hashbang(shebang),
        Kind::Script { shebang } => is_hashbang(shebang),
        Kind::Ident { sym, .. } => is_key(sym.as_str()),
        Kind::IdentName { sym } => is_key(sym.as_str()),
        Kind::PrivateName { name } => is_key(name.as_str()),
        Kind::Str { value, raw } => is_string(value.as_str(), raw),
        Kind::Number { value, raw } => is_number(value, raw),
        Kind::BigInt { value, raw } => is_big_int(value.as_str(), raw),
        Kind::Regex { exp, flags } => is_regex(exp.as_str(), flags.as_str()),
        Kind::TplElement { raw, cooked, .. } => is_text_part(raw.as_str(), cooked, tagged),
        _ => true,
    }
}
