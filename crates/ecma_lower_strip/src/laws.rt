//! A law of lowering and stripping, over their definitions alone. The function carries it, and does nothing.
ghost use Rattle.ecma_lower_strip.specs.Laws.{AssignmentsBeforeOrAfter};

/// Writing the assignments of what is stripped is stripping what has its assignments written.
pub fn assignments_before_or_after()
    ensures { AssignmentsBeforeOrAfter }
{}
