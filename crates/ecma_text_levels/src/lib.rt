//! More levels change nothing of what is read, but that a text may no longer be too deep.
//!
//! Each function carries one law over the definitions, and does nothing. The laws are stated in `specs/Laws.antt`.
#![tactic(auto)]

ghost use Rattle.ecma_text_levels.specs.Laws.{MoreLevelsAnswerTheSame, MoreLevelsReadTheSame};

/// What is read of a text as a module with some number of levels is read with any larger one.
#[tactic(auto, using(crate::proofs::Levels::more_levels_read_the_same))]
pub fn more_levels_read_the_same()
    ensures { MoreLevelsReadTheSame }
{}

/// A text that is not too deep with some number of levels is answered the same with any larger one: its tree, or the place at which it is no module.
#[tactic(auto, using(crate::proofs::Levels::more_levels_answer_the_same))]
pub fn more_levels_answer_the_same()
    ensures { MoreLevelsAnswerTheSame }
{}
