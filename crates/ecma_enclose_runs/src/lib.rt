//! What is observed of a module with the parentheses that keep what is written from being read as something else is what is observed of the module,
//! over the definitions alone.
//!
//! Each function carries one law, and does nothing. The laws are stated in `specs/Laws.antt`.
#![tactic(auto)]

ghost use Rattle.ecma_enclose_runs.specs.Laws.{EnclosedTreesRunAlike};

/// A module with its parentheses, resolved, runs as the resolved module does, where each form of both is taken.
pub fn enclosed_trees_run_alike()
    ensures { EnclosedTreesRunAlike }
{}
