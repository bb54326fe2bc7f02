//! Which names are declared again where they may not be, in a tree with its final texts: over the definitions of scopes and of final texts.
//!
//! The functions carry the laws, and do nothing. The laws are stated in `specs/Laws.antt`.
#![tactic(auto)]

ghost use Rattle.ecma_hygiene_conflicts.specs.Laws.{FinalTextsAreNotRedeclared, PlainTreesMergeNothing};

/// Where the ids of a tree say which scopes declare its names, whichever scopes share contexts, what merges is one variable, and no name is declared
/// again where it may not be, none is with its final texts.
pub fn final_texts_are_not_redeclared()
    ensures { FinalTextsAreNotRedeclared }
{}

/// Nothing merges in a tree without enums and namespaces, so that all that merges in it is one variable.
pub fn plain_trees_merge_nothing()
    ensures { PlainTreesMergeNothing }
{}
