//! Laws of what types hold in a raw tree: the context rules are asked of it, and then it goes, so that what is left is the reading where types hold nothing.
//!
//! Each function carries one law over the definitions, and does nothing. The laws are stated in `specs/Laws.antt`.
#![tactic(auto)]

ghost use Rattle.ecma_text_types.specs.Laws.{ModulesAreReadWithoutTypes, PlainModulesHoldNoTypes};

/// What is read as a module is what is read where types hold nothing, which breaks no context rule, finished.
#[tactic(auto, using(crate::proofs::Raws::without_types))]
pub fn modules_are_read_without_types()
    ensures { ModulesAreReadWithoutTypes }
{}

/// In plain reading what breaks no rule where types hold nothing is read.
#[tactic(auto, using(crate::proofs::Plain::no_types))]
pub fn plain_modules_hold_no_types()
    ensures { PlainModulesHoldNoTypes }
{}
