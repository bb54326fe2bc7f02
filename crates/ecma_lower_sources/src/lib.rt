//! What is read as a module stays what is read as a module with its assignments lowered, and no form of it has to be lowered then.
//!
//! Each function carries one law over the definitions, and does nothing. The laws are stated in `specs/Laws.antt`.
#![tactic(auto)]

ghost use Rattle.ecma_lower_sources.specs.Laws.{ContextsDoNotMatterToLowering, LoweredSourcesAreRead, LoweredSourcesNeedNoLowering, LoweringKeepsNamesShort, LoweringKeepsPlainTargets, LoweringMakesFreeNamesAlone, TakenTreesMakeNoRequire};

/// A tree as it is read, each form of which is taken, is one with its assignments lowered.
pub fn lowered_sources_are_read()
    ensures { LoweredSourcesAreRead }
{}

/// Where each form of a tree is taken, and no assignment is refused, no form of it has to be lowered once its assignments are.
pub fn lowered_sources_need_no_lowering()
    ensures { LoweredSourcesNeedNoLowering }
{}

/// No identifier that is made has a long text.
pub fn lowering_keeps_names_short()
    ensures { LoweringKeepsNamesShort }
{}

/// No name is bound with a type round it that was not.
pub fn lowering_keeps_plain_targets()
    ensures { LoweringKeepsPlainTargets }
{}

/// Each identifier that is made is free.
pub fn lowering_makes_free_names_alone()
    ensures { LoweringMakesFreeNamesAlone }
{}

/// To lower a tree and drop its contexts is to drop them and lower it.
pub fn contexts_do_not_matter_to_lowering()
    ensures { ContextsDoNotMatterToLowering }
{}

/// No `require` is made for a tree each form of which is taken.
pub fn taken_trees_make_no_require()
    ensures { TakenTreesMakeNoRequire }
{}
