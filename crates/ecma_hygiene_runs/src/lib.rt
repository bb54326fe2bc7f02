//! What a module with its shorthands written out, and one with its final texts, does when it runs: over the definitions of `ecma_hygiene`, `ecma_scope`
//! and `ecma_runs`.
//!
//! Each function carries one law, and does nothing. The laws are stated in `specs/Laws.antt`.
#![tactic(auto)]

ghost use Rattle.ecma_hygiene_runs.specs.Laws.{BindingsAreDeclared, FinalTextsKeepRuns, PlainModulesAreResolved, ReadingAgainKeepsRuns, ShorthandsDoNotMatter, SortedNamesAreOuter, WrittenOutShorthandsDoNotMatter};

/// A module without enums is observed to do with its shorthands written out what it does with them, for every such tree, every script of the host and every
/// number of turns.
pub fn written_out_shorthands_do_not_matter()
    ensures { WrittenOutShorthandsDoNotMatter }
{}

/// So such trees that are equal with their shorthands written out run alike, whichever of them each writes out.
pub fn shorthands_do_not_matter()
    ensures { ShorthandsDoNotMatter }
{}

/// A resolved module with its final texts, and with its contexts, is observed to do what it does with its own, where declarations that it exports keep
/// their texts.
pub fn final_texts_keep_runs()
    ensures { FinalTextsKeepRuns }
{}

/// So it is with the contexts that its final texts get where they are read again: the texts alone say what the module does.
pub fn reading_again_keeps_runs()
    ensures { ReadingAgainKeepsRuns }
{}

/// In a tree with the sort of a module that exports no import, in which what is no name of a variable has the empty context, shorthand patterns have names, and with the
/// shorthands written out, and apart from the variables that it exports, the keys that are names have the empty context.
pub fn sorted_names_are_outer()
    ensures { SortedNamesAreOuter }
{}

/// In a module without types, enums and namespaces each binding is declared where the module runs: `ecma_scope` and `ecma_runs` mean the same names.
pub fn bindings_are_declared()
    ensures { BindingsAreDeclared }
{}

/// So such a module, with its sort, is resolved in the sense of the laws above where its contexts tell variables from other names.
pub fn plain_modules_are_resolved()
    ensures { PlainModulesAreResolved }
{}
