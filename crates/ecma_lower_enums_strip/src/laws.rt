//! The laws, over the definitions alone: their functions do nothing.
ghost use Rattle.ecma_lower_enums_strip.specs.Laws.{EnumsBeforeOrAfter, EnumsBeforeOrAfterAlike, EnumsLoweredBeforeOrAfter};

/// Writing the enums of what is stripped is stripping what has its enums written, whatever is known of the enums. Of a tree without types every item is kept.
pub fn enums_before_or_after()
    ensures { EnumsBeforeOrAfter }
{}

/// The same where enums are written in one way before and after, in a module in which no type is left.
pub fn enums_before_or_after_alike()
    ensures { EnumsBeforeOrAfterAlike }
{}

/// So lowering the enums of what is stripped is stripping what is lowered, where all that is known of the enums is asked of the tree without types.
pub fn enums_lowered_before_or_after()
    ensures { EnumsLoweredBeforeOrAfter }
{}
