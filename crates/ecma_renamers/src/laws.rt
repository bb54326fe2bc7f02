//! Laws of renamers, over their definitions alone. Each function carries one law, and does nothing.
ghost use Rattle.ecma_renamers.specs.Laws.{DroppingSpansTwiceIsDroppingThemOnce, ReplacingLeavesNone};

/// To drop spans twice is to drop them once; so the result of [`drop_span`](crate::drop_span) equals its argument up to spans.
pub fn dropping_spans_twice_is_dropping_them_once()
    ensures { DroppingSpansTwiceIsDroppingThemOnce }
{}

/// Where an identifier of another id is put in the place of each of an id, none of that id stands outside types.
pub fn replacing_leaves_none()
    ensures { ReplacingLeavesNone }
{}
