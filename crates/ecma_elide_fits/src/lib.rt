//! What fits, without imports and exports that stand for types alone or that nothing uses: which clauses the tree keeps, over the definitions alone.
//!
//! Each function carries laws, and does nothing. The laws are stated in `specs/Laws.antt`.
#![tactic(auto)]

ghost use Rattle.ecma_elide_fits.specs.Laws.{ElidedTreesFit, FitsWithoutItems};

/// Where a tree fits, it fits without any items of its modules and namespaces, and without any specifiers of its imports and exports.
pub fn what_fits_fits_without_items<S>()
    ensures { FitsWithoutItems S }
{}

/// Where a module fits, it fits without what the options drop of its imports and exports.
pub fn elided_trees_fit()
    ensures { ElidedTreesFit }
{}
