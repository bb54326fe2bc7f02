//! Laws of expressions behind `super(..)`, over their definitions alone. Each function carries one law, and does nothing.
ghost use Rattle.ecma_function.specs.Laws.{AtMostOneContextACall};

/// For each `super(..)` at most one context is drawn.
pub fn at_most_one_context_is_drawn_for_a_call()
    ensures { AtMostOneContextACall }
{}
