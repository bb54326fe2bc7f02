//! Bodies and flags of regular expressions (ECMAScript, 12.9.5), without the `/` around them.
ghost use Rattle.std.specs.Prelude.{◌≡◌, ◌^◌, ◌<◌, length};
ghost use Rattle.ecma_leaves.specs.Words.{are_flags, is_body};

use ecma_lex::{is_valid_continue, regular_expression_body_end};

/// Whether a whole text is a body.
pub(crate) fn is_body(text: &str) -> bool
    requires { length text.now < 2 ^ 32 }
    ensures { result ≡ is_body text.now }
{
    match regular_expression_body_end(text, 0) {
        Some(end) => end as usize == text.len(),
        None => false,
    }
}

/// Whether a text is flags.
pub(crate) fn are_flags(text: &str) -> bool
    ensures { result ≡ are_flags text.now }
{
    text.chars().all(|c| is_valid_continue(c))
}
