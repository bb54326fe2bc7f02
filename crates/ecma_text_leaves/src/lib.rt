//! What is read is spelled: each leaf of the tree of a text is, by its own text, a whole token of its kind, and says what that token says.
//!
//! A law over the definitions of the grammar alone; the function carries it, and does nothing.
#![tactic(auto)]

ghost use Rattle.ecma_text_leaves.specs.Laws.{LeavesAreSpelled};

/// The leaves of what the grammar reads of a text are spelled as tokens, in every mode and at every number of levels.
#[tactic(auto, using(crate::proofs::Readings::leaves_are_spelled))]
pub fn leaves_are_spelled()
    ensures { LeavesAreSpelled }
{}
