//! Lists of tokens: the terminals read the text of such a list as its tokens.
//!
//! Each function carries one law, and does nothing. The laws are stated in `specs/Laws.antt`.
#![tactic(auto)]

ghost use Rattle.ecma_print_tokens.specs.Laws.{JoinedTokensAreGood, TerminalsReadTokens};

/// Where the text of a good list of tokens stands, each terminal, each leaf and the test of line breaks reads it as these
/// tokens say.
#[tactic(auto, using(crate::proofs::Leaves::lexes))]
pub fn terminals_read_tokens()
    ensures { TerminalsReadTokens }
{}

/// A list of tokens is good where each may stand directly before the next, by their kinds and the texts of signs.
#[tactic(auto, using(crate::proofs::Joining::joined_good))]
pub fn joined_tokens_are_good()
    ensures { JoinedTokensAreGood }
{}
