//! Laws of layouts: neither where nodes stand nor the contexts of identifiers matter to a text.
//!
//! Each function carries one law over the definitions, and does nothing. The laws are stated in `specs/Laws.antt`.
#![tactic(auto)]

ghost use Rattle.ecma_print_congruence.specs.Laws.{ContextsDoNotMatterToLayouts, SpansDoNotMatterToLayouts};

/// With whatever contexts of its identifiers a tree is laid out as the same text.
pub fn contexts_do_not_matter_to_layouts()
    ensures { ContextsDoNotMatterToLayouts }
{}

/// Trees that are equal up to spans are laid out as the same text.
pub fn spans_do_not_matter_to_layouts()
    ensures { SpansDoNotMatterToLayouts }
{}
