//! What is read as a module is so with its names bound, each of its forms is still taken, or needs no lowering, and
//! the source of a module that is written is still one.
//!
//! Each function carries one law over the definitions, and does nothing. The laws are stated in `specs/Laws.antt`.
#![tactic(auto)]

ghost use Rattle.ecma_bind_sources.specs.Laws.{BoundSourcesAreSources, BoundTreesAreRead, BoundTreesAreTaken, BoundTreesNeedNoLowering};

use ecma_bind_fits::bound_names_fit;

/// A tree as it is read, by its leaves too, is one with its names bound.
pub fn bound_trees_are_read()
    ensures { BoundTreesAreRead }
{
    bound_names_fit();
}

/// Where each form of a tree is taken, each form of it is with its names bound.
pub fn bound_trees_are_taken()
    ensures { BoundTreesAreTaken }
{}

/// Where no form of a tree has to be lowered first by another pass, none has with its names bound.
pub fn bound_trees_need_no_lowering()
    ensures { BoundTreesNeedNoLowering }
{}

/// A source of a module that is written is one with its names bound.
pub fn bound_sources_are_sources()
    ensures { BoundSourcesAreSources }
{}
