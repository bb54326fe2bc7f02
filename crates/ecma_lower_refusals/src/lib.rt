//! Which assignments of a module are refused does not change on the way to where they are lowered.
//!
//! Each function carries one law over the definitions, and does nothing. The laws are stated in `specs/Laws.antt`.
#![tactic(auto)]

ghost use Rattle.ecma_lower_refusals.specs.Laws.{BoundTreesAreRefusedAlike, ContextsDoNotMatterToRefusals, EnclosedTreesAreRefusedAlike};

/// The same assignments of a module are refused with its names bound.
pub fn bound_trees_are_refused_alike()
    ensures { BoundTreesAreRefusedAlike }
{}

/// The same assignments of a module are refused with the parentheses that keep it from being read as something else.
pub fn enclosed_trees_are_refused_alike()
    ensures { EnclosedTreesAreRefusedAlike }
{}

/// The same assignments of a tree are refused whatever its contexts are.
pub fn contexts_do_not_matter_to_refusals()
    ensures { ContextsDoNotMatterToRefusals }
{}
