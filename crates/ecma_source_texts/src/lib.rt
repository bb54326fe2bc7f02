//! Laws of the tree whose literals have the source texts that are written for them: these matter neither to parentheses, nor to the contexts of identifiers, nor
//! to which names are declared twice, nor to what a module does.
//!
//! Each function carries laws over the definitions, and does nothing. The laws are stated in `specs/Laws.antt`.
#![tactic(auto)]

ghost use Rattle.ecma_source_texts.specs.Laws.{SourcesDoNotMatterToConflicts, SourcesDoNotMatterToContexts, SourcesDoNotMatterToParentheses, SourcesDoNotMatterToRuns};

/// The same parentheses are nodes in the tree with source texts.
pub fn source_texts_do_not_matter_to_parentheses()
    ensures { SourcesDoNotMatterToParentheses }
{}

/// It takes as many contexts, and with them it is the tree with its contexts that has source texts.
pub fn source_texts_do_not_matter_to_contexts()
    ensures { SourcesDoNotMatterToContexts }
{}

/// The same names are declared again in it where they may not be.
pub fn source_texts_do_not_matter_to_conflicts()
    ensures { SourcesDoNotMatterToConflicts }
{}

/// It is observed to do what the tree does, for every script of the host and every number of turns.
pub fn source_texts_do_not_matter_to_runs()
    ensures { SourcesDoNotMatterToRuns }
{}
