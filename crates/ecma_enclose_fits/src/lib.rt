//! A tree that fits, fits with the parentheses that keep what is written from being read as something else, over the definitions alone.
//!
//! Each function carries one law, and does nothing. The laws are stated in `specs/Laws.antt`.
#![tactic(auto)]

ghost use Rattle.ecma_enclose_fits.specs.Laws.{EnclosedTreesAreSorted, EnclosedTreesFit};

/// A module by its sorts is one with its parentheses.
pub fn enclosed_trees_are_sorted()
    ensures { EnclosedTreesAreSorted }
{}

/// A tree that fits, fits with its parentheses.
pub fn enclosed_trees_fit()
    ensures { EnclosedTreesFit }
{}
