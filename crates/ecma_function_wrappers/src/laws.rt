//! Laws over definitions alone. The functions carry them, and do nothing.
ghost use Rattle.ecma_function_wrappers.specs.Laws.{AtMostOneContextAParameter, AtMostOneContextAWrapper, EachParameterThatCountsHasAStandIn};

/// Each parameter that counts has one stand-in at its place: a name itself, a pattern a `_` in a context of its own.
pub fn each_parameter_that_counts_has_a_stand_in()
    ensures { EachParameterThatCountsHasAStandIn }
{}

/// A wrapper draws at most one context for each parameter, and what is made of it at most one.
pub fn at_most_one_context_is_drawn_for_a_parameter_or_a_wrapper()
    ensures parameters { AtMostOneContextAParameter }
    ensures wrapper { AtMostOneContextAWrapper }
{}
