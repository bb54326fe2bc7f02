//! What holds of every production: laws of the grammar and of what it reads, over their definitions alone.
//!
//! Each function carries one law, and does nothing. The laws are stated in `specs/Laws.antt`.
#![tactic(auto)]

ghost use Rattle.ecma_grammar_laws.specs.Laws.{ModulesAreSorted, ReadingsMoveOn, RepetitionsEnd};

/// A reading goes on, in the text; it ends further on where the grammar reads only by taking a token.
pub fn readings_move_on()
    ensures { ReadingsMoveOn }
{}

/// No repetition of the grammar is ended by its bound: with more turns it reads the same.
pub fn repetitions_end_themselves()
    ensures { RepetitionsEnd }
{}

/// What is read as a module has the sort of one, all the way down: that of the tables, but for what the grammar alone
/// cannot tell.
pub fn modules_are_sorted()
    ensures { ModulesAreSorted }
{}
