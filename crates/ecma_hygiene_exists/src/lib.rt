//! Laws of the final texts of a tree: there are some, and there are no others; and of how many contexts it needs.
//!
//! Each function carries one law over the definitions, and does nothing. The laws are stated in `specs/Laws.antt`.
#![tactic(auto)]

ghost use Rattle.ecma_hygiene_exists.specs.Laws.{FinalTextsAreUnique, FinalTextsExist, NeededLeaveSixteen};

/// A tree with fewer identifiers than 2^64 has final texts: behind each text there is a number that makes it a text that none has.
pub fn final_texts_exist()
    ensures { FinalTextsExist }
{}

/// No tree has two trees with its final texts.
pub fn final_texts_are_unique()
    ensures { FinalTextsAreUnique }
{}

/// Of the contexts that are needed for all that becomes of a tree, its scopes leave 16.
pub fn needed_contexts_leave_sixteen()
    ensures { NeededLeaveSixteen }
{}
