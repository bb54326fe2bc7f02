//! What is read of a text needs few contexts: their number is bounded by the bytes of the text.
//!
//! The function carries one law over the definitions, and does nothing. The law is stated in `specs/Laws.antt`.
#![tactic(auto)]

ghost use Rattle.ecma_text_contexts.specs.Laws.{NeededIsBoundedByTheText};

/// What is read as a module, in either mode and with any number of levels, of a UTF-8 text needs a hundred contexts for each of its bytes, and twenty more, at most.
#[tactic(auto, using(crate::proofs::Few::needed_is_bounded))]
pub fn needed_is_bounded_by_the_text()
    ensures { NeededIsBoundedByTheText }
{}
