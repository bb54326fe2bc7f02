//! The raw trees of finished ones: in the place of each pattern that is assigned to stands the literal that covers it.
//!
//! Each function carries one law over the definitions, and does nothing. The laws are stated in `specs/Laws.antt`.
#![tactic(auto)]

ghost use Rattle.ecma_covers.specs.Laws.{FinishingUncovers};

/// The raw tree of a finished one, finished, is that tree up to spans, where its patterns stand where patterns may.
pub fn finishing_uncovers()
    ensures { FinishingUncovers }
{}
