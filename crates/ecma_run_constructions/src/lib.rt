//! What the functions of a program construct are objects, by the definitions of `ecma_runs`.
//!
//! The function carries one law, and does nothing. It is stated in `specs/Laws.antt`.
#![tactic(auto)]

ghost use Rattle.ecma_run_constructions.specs.Laws.{ConstructionsGiveObjects};

/// A construction that gives a value gives an object, from whatever state, in the contexts in which the code of a module runs and in those of the functions that it calls: also that of a class
/// with a parent, which has the object that `super(..)` gave it.
pub fn constructions_give_objects()
    ensures { ConstructionsGiveObjects }
{}
