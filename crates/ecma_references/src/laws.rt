//! Laws of references, over their definitions alone. Each function carries one law, and does nothing.
ghost use Rattle.ecma_references.specs.Laws.{AnsweredTreesKeepTheirSorts, WithoutAnswersNothingChanges};

/// Where a query answers nothing, nothing changes.
pub fn without_answers_nothing_changes()
    ensures { WithoutAnswersNothingChanges }
{}

/// Where expressions stand for names that are read, and members for names that are written to, modules, statements, expressions and patterns
/// stay what they are by their sorts.
pub fn answered_trees_keep_their_sorts()
    ensures { AnsweredTreesKeepTheirSorts }
{}
