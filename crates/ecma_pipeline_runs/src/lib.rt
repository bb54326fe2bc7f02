//! Laws of a tree's way from where it is ready: stripped of its types, given its final texts, written, read again and resolved.
//!
//! Each function carries one law over the definitions, and does nothing. The laws are stated in `specs/Laws.antt`.
#![tactic(auto)]

ghost use Rattle.ecma_pipeline_runs.specs.Laws.{ModulesAreClear, PassesKeepRuns, StrippedModulesArePlain};

use ecma_hygiene_runs::sorted_names_are_outer;
use ecma_meeting_runs::{
    contexts_do_not_matter_to_plain, meeting_texts_keep_runs, plain_trees_stay_plain,
};
use ecma_pipeline_meeting::{plain_final_texts_meet, plain_own_texts_meet};
use ecma_print_parentheses::it_runs_alike;

/// In a module that fits, and in which all that is TypeScript is types, it is clear what each scope that stays declares without types.
pub fn modules_are_clear()
    ensures { ModulesAreClear }
{}

/// Without its types such a module is plain.
pub fn stripped_modules_are_plain()
    ensures { StrippedModulesArePlain }
{}

/// A tree that is ready, and each of whose scopes declares a text once but for names that were made, is observed to do what it does once it is stripped of its types, given its final texts, read
/// again from its layout and resolved, whichever scopes share contexts: where declarations that are exported keep their texts, the tree with final texts fits and declares no name again where it
/// may not be, and there were contexts enough for what is read.
pub fn passes_keep_runs()
    ensures { PassesKeepRuns }
{
    it_runs_alike();
    sorted_names_are_outer();
    meeting_texts_keep_runs();
    contexts_do_not_matter_to_plain();
    plain_trees_stay_plain();
    plain_final_texts_meet();
    plain_own_texts_meet();
}
