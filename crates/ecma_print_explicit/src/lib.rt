//! Laws: what fits, fits with explicit parentheses.
//!
//! Each function carries one law over the definitions, and does nothing. The laws are stated in `specs/Laws.antt`.
#![tactic(auto)]

ghost use Rattle.ecma_print_explicit.specs.Laws.{ExplicitTreesFit};

/// The tree with explicit parentheses of a tree that fits, fits.
pub fn explicit_trees_fit()
    ensures { ExplicitTreesFit }
{}
