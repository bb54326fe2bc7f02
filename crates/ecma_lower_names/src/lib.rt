//! No id that a ready tree declares when it runs has the context of free names.
//!
//! The function carries one law over the definitions, and does nothing. The law is stated in `specs/Laws.antt`.
#![tactic(auto)]

ghost use Rattle.ecma_lower_names.specs.Laws.{ScopesDeclareWhatRunsDeclare};

/// No id that a ready tree declares when it runs has the context of free names.
pub fn scopes_declare_what_runs_declare()
    ensures { ScopesDeclareWhatRunsDeclare }
{}
