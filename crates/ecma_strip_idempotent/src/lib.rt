//! Laws that stripping twice is stripping once.
//!
//! Each function carries one law, and does nothing. The laws are stated in `specs/Laws.antt`.
#![tactic(auto)]

ghost use Rattle.ecma_strip_idempotent.specs.Laws.{SortedTreesStripOnce, StrippingTwiceIsStrippingOnce};

/// A tree without its types stays as it is when it is stripped again, where nothing is left in it that goes then: no namespace
/// without values, and no name `this` in a list.
pub fn stripping_twice_is_stripping_once()
    ensures { StrippingTwiceIsStrippingOnce }
{}

/// So does a sorted tree without its types, where no namespace without values is left in it.
pub fn sorted_trees_strip_once()
    ensures { SortedTreesStripOnce }
{}
