//! What is observed of a tree with bound names is what is observed of the tree, over the definitions alone.
//!
//! Each function carries one law, and does nothing. The laws are stated in `specs/Laws.antt`.
#![tactic(auto)]

ghost use Rattle.ecma_bind_runs.specs.Laws.{BoundNamesRunAlike};

/// A module runs as it does with its names bound, where no enum stays in either.
pub fn bound_names_run_alike()
    ensures { BoundNamesRunAlike }
{}
