//! Names with types round them, bound where names are bound: the tree in which a pattern that is assigned to, and the head of a loop, binds a name as
//! finishing binds it, and the laws of that tree, over the definitions alone.
//!
//! Each function carries one law, and does nothing. The laws are stated in `specs/Laws.antt`.
#![tactic(auto)]

ghost use Rattle.ecma_bind_fits.specs.Laws.{BoundNamesArePlain, BoundNamesFit, BoundNamesStay, WhatFitsFitsWithoutTypes};

/// A tree that fits, fits with its names bound.
pub fn bound_names_fit()
    ensures { BoundNamesFit }
{}

/// Where it fits, no name is bound with a type round it then.
pub fn bound_names_are_plain()
    ensures { BoundNamesArePlain }
{}

/// So it fits without its types, once its names are bound.
pub fn what_fits_fits_without_types()
    ensures { WhatFitsFitsWithoutTypes }
{}

/// A tree in which no name is bound with a type round it stays as it is.
pub fn trees_with_plain_targets_stay()
    ensures { BoundNamesStay }
{}
