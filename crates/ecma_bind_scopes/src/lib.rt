//! Names with types round them, bound where names are bound, do not matter to scopes: the contexts of identifiers, and which names are declared again
//! where they may not be.
//!
//! Each function carries laws over the definitions, and does nothing. The laws are stated in `specs/Laws.antt`.
#![tactic(auto)]

ghost use Rattle.ecma_bind_scopes.specs.Laws.{BoundNamesDeclareAlike, BoundNamesResolveAlike};

/// A sorted tree with its names bound takes as many contexts, is with its contexts the tree with its contexts whose names are bound, and declares the same names again.
pub fn bound_names_do_not_matter_to_scopes()
    ensures contexts { BoundNamesResolveAlike }
    ensures conflicts { BoundNamesDeclareAlike }
{}
