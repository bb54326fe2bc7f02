//! Scopes declare in a module with its assignments lowered what they declared, and no name is declared again.
//!
//! Each function carries one law over the definitions, and does nothing. The laws are stated in `specs/Laws.antt`.
#![tactic(auto)]

ghost use Rattle.ecma_lower_scopes.specs.Laws.{LoweredTreesAreNotRedeclared, LoweredTreesHaveOwnContexts, LoweredTreesSayTheirScopes};

/// Where the ids of a tree say which scope declares each name, they do with its assignments lowered.
pub fn lowered_trees_say_their_scopes()
    ensures { LoweredTreesSayTheirScopes }
{}

/// Where each scope of a tree declares its names in a context of its own, each does with its assignments lowered.
pub fn lowered_trees_have_own_contexts()
    ensures { LoweredTreesHaveOwnContexts }
{}

/// Where no name of a tree is declared again where it may not be, none is with its assignments lowered.
pub fn lowered_trees_are_not_redeclared()
    ensures { LoweredTreesAreNotRedeclared }
{}
