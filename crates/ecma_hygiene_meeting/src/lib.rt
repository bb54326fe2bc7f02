//! Names that share a text may become one name: over the definitions of `ecma_hygiene`, `ecma_scope` and `ecma_runs`.
//!
//! Each function carries one law, and does nothing. The laws are stated in `specs/Laws.antt`.
#![tactic(auto)]

ghost use Rattle.ecma_hygiene_meeting.specs.Laws.{FinalTextsMeet, WhatIsNotCapturedMeets, WhatMeetsMayMeet};

/// In a module in which each scope for which the evaluator makes a record is that record, texts by which nothing is captured, with one map of contexts that
/// keeps free names apart, are a map under which names may meet, but for keys: scopes may share contexts, as those of a parameter and of the variable outside do
/// that an enum is written with. What the module exports are variables of its own, names that it looks up, and free ones, of which those that are exported under their
/// own names keep their texts.
pub fn what_is_not_captured_meets()
    ensures { WhatIsNotCapturedMeets }
{}

/// So are the final texts of such a module.
pub fn final_texts_meet()
    ensures { FinalTextsMeet }
{}

/// Where such a map keeps the texts of keys, too, names may meet under it.
pub fn what_meets_may_meet()
    ensures { WhatMeetsMayMeet }
{}
