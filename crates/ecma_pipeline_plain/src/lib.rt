//! Laws of the tree that is written for a module: it is plain where its source needs no lowering; and of what contexts do not matter to.
//!
//! Each function carries one law over the definitions, and does nothing. The laws are stated in `specs/Laws.antt`.
#![tactic(auto)]

ghost use Rattle.ecma_pipeline_plain.specs.Laws.{ContextsDoNotMatterToForms, FinalTreesArePlain, ReadyTreesArePlain, ResolvedTreesAreTaken, TreesWithoutContextsSayWhatIsReady};

/// A module of which no form has to be lowered first by another pass, resolved, stripped of its types and given its final texts, is plain where it fits.
pub fn final_trees_are_plain()
    ensures { FinalTreesArePlain }
{}

/// A tree that is ready, stripped of its types and given its final texts, is plain: whether or not its literals have source texts.
pub fn ready_trees_are_plain()
    ensures { ReadyTreesArePlain }
{}

/// Contexts do not matter to which forms of a tree are taken, nor to which have to be lowered.
pub fn contexts_do_not_matter_to_forms()
    ensures { ContextsDoNotMatterToForms }
{}

/// Where each form of a tree is taken, each is once it is resolved.
pub fn resolved_trees_are_taken()
    ensures { ResolvedTreesAreTaken }
{}

/// What is read without its contexts, and needs no lowering then, has what a tree that is ready has, but for what is asked of its ids.
pub fn trees_without_contexts_say_what_is_ready()
    ensures { TreesWithoutContextsSayWhatIsReady }
{}
