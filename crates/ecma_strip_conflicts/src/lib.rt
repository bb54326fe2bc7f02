//! Which names are declared again where they may not be, in the tree without types: over the definitions of `ecma_scope`, `ecma_strip` and `ecma_strip_scopes`.
//!
//! Each function carries one law, and does nothing. The laws are stated in `specs/Laws.antt`.
#![tactic(auto)]

ghost use Rattle.ecma_strip_conflicts.specs.Laws.{StrippedIsNotRedeclared, StrippedModulesAreNotRedeclared};

/// In a module in which no name is declared again where it may not be, none is without its types, where each scope that stays is not ambient, and it is clear
/// what it declares, also where parameters `this` go.
pub fn stripped_trees_are_not_redeclared()
    ensures { StrippedIsNotRedeclared }
{}

/// So it is in a module that is resolved, and stripped of its types then.
pub fn stripped_modules_are_not_redeclared()
    ensures { StrippedModulesAreNotRedeclared }
{}
