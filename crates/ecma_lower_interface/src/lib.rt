//! A module with its assignments lowered imports and exports what it did before.
//!
//! The function carries one law over the definitions, and does nothing. The law is stated in `specs/Laws.antt`.
#![tactic(auto)]

ghost use Rattle.ecma_lower_interface.specs.Laws.{LoweredTreesHaveTheirInterface};

/// What a module imports and exports stays as it is when its assignments are lowered.
pub fn lowered_trees_have_their_interface()
    ensures { LoweredTreesHaveTheirInterface }
{}
