//! Laws of modules that are read: what they do without their types.
//!
//! Each function carries one law over the definitions, and does nothing. The laws are stated in `specs/Laws.antt`.
#![tactic(auto)]

ghost use Rattle.ecma_text_runs.specs.Laws.{ReadModulesHaveUsualBodies, ReadModulesRunStripped};

/// In what is read as a module no statement has a declaration but a `var` as its body.
pub fn read_modules_have_usual_bodies()
    ensures { ReadModulesHaveUsualBodies }
{}

/// What is read as a module, and in which no enum stays, is observed to do without its types what it does with them.
pub fn read_modules_run_stripped()
    ensures { ReadModulesRunStripped }
{}
