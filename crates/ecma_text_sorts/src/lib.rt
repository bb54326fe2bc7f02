//! Laws of the trees that `read_module` and `read_plain` of `ecma_text` give, over the definitions alone.
//!
//! Each function carries one law, and does nothing. The laws are stated in `specs/Laws.antt`.
#![tactic(auto)]

ghost use Rattle.ecma_text_sorts.specs.Laws.{FinishedModulesAreSorted, ReadModulesAreSorted};

/// What is made of a raw module that keeps the context rules has the sort of a module, all the way down.
pub fn finished_modules_are_sorted()
    ensures { FinishedModulesAreSorted }
{}

/// What is read as a module, in either mode and with any number of levels, has the sort of one, all the way down.
pub fn modules_that_are_read_are_sorted()
    ensures { ReadModulesAreSorted }
{}
