//! What is read as a module is so with the parentheses that keep what is written from being read as something else, and each of its forms is still taken, or needs
//! no lowering.
//!
//! Each function carries one law over the definitions, and does nothing but to call upon another law. The laws are stated in `specs/Laws.antt`.
#![tactic(auto)]

ghost use Rattle.ecma_enclose_sources.specs.Laws.{EnclosedTreesAreRead, EnclosedTreesAreTaken, EnclosedTreesNeedNoLowering};

use ecma_enclose_fits::enclosed_trees_fit;

/// A tree as it is read, by its leaves too, is one with its parentheses.
pub fn enclosed_trees_are_read()
    ensures { EnclosedTreesAreRead }
{
    enclosed_trees_fit();
}

/// Where each form of a sorted module is taken, each form of it is with its parentheses.
pub fn enclosed_trees_are_taken()
    ensures { EnclosedTreesAreTaken }
{}

/// Where no form of a sorted module has to be lowered first by another pass, none has with its parentheses.
pub fn enclosed_trees_need_no_lowering()
    ensures { EnclosedTreesNeedNoLowering }
{}
