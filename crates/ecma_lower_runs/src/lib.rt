//! A module with its assignments lowered is observed to do what it did.
//!
//! Each function carries one law over the definitions, and does nothing. The laws are stated in `specs/Laws.antt`.
#![tactic(auto)]

ghost use Rattle.ecma_lower_runs.specs.Laws.{LoweredTreesDeclareAlike, LoweredTreesRunAlike};

/// A module in which no enum stays runs with its assignments lowered as it does, where it declares no name in the context of free names.
pub fn lowered_trees_run_alike()
    ensures { LoweredTreesRunAlike }
{}

/// It declares the ids that it did.
pub fn lowered_trees_declare_alike()
    ensures { LoweredTreesDeclareAlike }
{}
