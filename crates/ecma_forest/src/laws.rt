//! Laws of summaries and of roots, over definitions alone.
//!
//! Each function carries one law or several, and does nothing. The laws are stated in `specs/Laws.antt`.
ghost use Rattle.ecma_forest.specs.Laws.{ChangesPassOver, OpeningUndoesWrapping, RewritingsPassOver, SearchesPassOver, SummariesAreFound};

/// What the summary of a tree says is what a search of the whole tree finds.
pub fn summaries_are_what_a_search_finds()
    ensures { SummariesAreFound }
{}

/// In a tree whose summary says no of what is looked for, changed or rewritten there is nothing to do. So a walk may pass it over.
pub fn trees_with_nothing_to_do_are_passed_over()
    ensures searches { SearchesPassOver }
    ensures changes { ChangesPassOver }
    ensures rewritings { RewritingsPassOver }
{}

/// Roots that are wrapped, and opened then, are what they were.
pub fn opening_undoes_wrapping()
    ensures { OpeningUndoesWrapping }
{}
