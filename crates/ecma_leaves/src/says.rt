//! Whether a literal says a text, without making that text.
ghost use Rattle.std.specs.Prelude.{◌≡◌, ◌≢◌, ℕ, ◌^◌, ◌<◌, ◌++◌, List, length, MatchOption};
ghost use Rattle.ecma_lex.specs.Values.{bytes_of, literal_value};
ghost use Rattle.ecma_leaves.specs.Sayings.{is_said, said_behind_all};

use ecma_lex::read_literal_part;

/// What stands behind a character at the front of a text, if it stands there.
fn behind(text: &[u8], says: Option<char>) -> Option<&[u8]>
    ensures { MatchOption result ((more : List ℕ) → text.now ≢ bytes_of says ++ more) (λ more. text.now ≡ bytes_of says ++ more.now) }
{
    match says {
        Some(c) => text.strip_prefix(c.encode_utf8(&mut [0; 4]).as_bytes()),
        None => Some(text),
    }
}

/// Whether all of a text is said where all parts of a literal were read.
fn is_over(high: Option<u32>, rest: &[u8]) -> bool
    ensures { result ≡ is_said (said_behind_all high) rest.now }
{
    match high {
        Some(_) => false,
        None => rest.is_empty(),
    }
}

/// Whether what stands in a literal says a text: each part of it is well-formed, each surrogate in a pair, and the text is what they say.
#[tactic(auto, unfolding(ecma_lex::specs::Values::literal_value), using(crate::proofs::Matching::matching))]
pub(crate) fn says(inside: &str, value: &str, in_template: bool) -> bool
    requires { length inside.now < 2 ^ 32 }
    ensures { result ≡ is_said (literal_value in_template inside.now) value.now }
{
    let mut rest = value.as_bytes();
    let mut high = None;
    let mut i = 0;
    while (i as usize) < inside.len() {
        let Some(step) = read_literal_part(inside, i, high, in_template) else {
            return false;
        };
        let Some(more) = behind(rest, step.joined.says) else {
            return false;
        };
        rest = more;
        high = step.joined.high;
        i = step.next;
    }
    is_over(high, rest)
}
