//! Trees run as they do with texts and contexts under which names may meet, and stay plain with them.
//!
//! Each function carries one law over the definitions, and does nothing. The laws are stated in `specs/Laws.antt`.
#![tactic(auto)]

ghost use Rattle.ecma_meeting_runs.specs.Laws.{ContextsDoNotMatterToPlain, MeetingTextsKeepRuns, PlainTreesStayPlain};

use ecma_runs::laws::names_may_meet;

/// A tree is observed to do what it does with these texts, and with its contexts mapped, where names may meet under both, and no name that has the empty context changes.
pub fn meeting_texts_keep_runs()
    ensures { MeetingTextsKeepRuns }
{
    names_may_meet();
}

/// Contexts do not matter to whether a tree is plain.
pub fn contexts_do_not_matter_to_plain()
    ensures { ContextsDoNotMatterToPlain }
{}

/// Nor do the texts of a module, where no name that has the empty context changes, and none becomes `this` or is no more.
pub fn plain_trees_stay_plain()
    ensures { PlainTreesStayPlain }
{}
