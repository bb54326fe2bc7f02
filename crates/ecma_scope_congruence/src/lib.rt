//! Laws of resolved trees: neither where nodes stand in a text nor parentheses matter to their contexts, and to which names are declared twice.
//!
//! Each function carries one law over the definitions, and does nothing. The laws are stated in `specs/Laws.antt`.
#![tactic(auto)]

ghost use Rattle.ecma_scope_congruence.specs.Laws.{ParenthesesDoNotMatterToConflicts, ParenthesesDoNotMatterToContexts, SpansDoNotMatterToConflicts, SpansDoNotMatterToContexts};

/// Trees that are equal up to spans are, with their contexts, equal up to spans, and take as many contexts.
pub fn spans_do_not_matter_to_contexts()
    ensures { SpansDoNotMatterToContexts }
{}

/// The tree in which the parentheses of the layout are nodes takes as many contexts as the tree, and gets the same ones: where each function that is an
/// expression has a body.
pub fn parentheses_do_not_matter_to_contexts()
    ensures { ParenthesesDoNotMatterToContexts }
{}

/// In trees that are equal up to spans the same names are declared again where they may not be.
pub fn spans_do_not_matter_to_conflicts()
    ensures { SpansDoNotMatterToConflicts }
{}

/// So they are in a tree and in that in which the parentheses of its layout are nodes.
pub fn parentheses_do_not_matter_to_conflicts()
    ensures { ParenthesesDoNotMatterToConflicts }
{}
