//! `export {}`, which says that a text is a module where nothing else does: it may come before types go, and does nothing.
//!
//! Each function carries a law over the definitions, and does nothing. The laws are stated in `specs/Laws.antt`.
#![tactic(auto)]

ghost use Rattle.ecma_marks.specs.Laws.{MarkedBeforeOrAfter, MarkedTreesAreReady, MarkedTreesCaptureAlike, MarkedTreesHaveNoOtherNames, MarkedTreesHaveOwnContexts, MarkedTreesHaveTheirInterface, MarkedTreesRunAlike};

/// To put `export {}` in and strip is to strip and put it in.
pub fn marked_before_or_after()
    ensures { MarkedBeforeOrAfter }
{}

/// A tree that is ready is ready with it.
pub fn marked_trees_are_ready()
    ensures { MarkedTreesAreReady }
{}

/// Each scope has its ids in a context of its own as before.
pub fn marked_trees_have_own_contexts()
    ensures { MarkedTreesHaveOwnContexts }
{}

/// No identifier is in it.
pub fn marked_trees_have_no_other_names()
    ensures { MarkedTreesHaveNoOtherNames }
{}

/// The first exported name that would be captured is the same.
pub fn marked_trees_capture_alike()
    ensures { MarkedTreesCaptureAlike }
{}

/// It does nothing: a module runs as before.
pub fn marked_trees_run_alike()
    ensures { MarkedTreesRunAlike }
{}

/// It exports nothing: a module has its interface.
pub fn marked_trees_have_their_interface()
    ensures { MarkedTreesHaveTheirInterface }
{}
