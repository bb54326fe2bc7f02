//! Layouts of raw trees: the literals in the place of patterns that are assigned to are laid out as these are.
//!
//! The function carries one law over the definitions, and does nothing. The law is stated in `specs/Laws.antt`.
#![tactic(auto)]

ghost use Rattle.ecma_print_covers.specs.Laws.{CoversKeepTheLayout};

/// The raw tree of a finished one is laid out as the same text: of a sorted module that lacks no parentheses, in which patterns stand where they may, and
/// defaults behind what may have one.
pub fn covers_keep_the_layout()
    ensures { CoversKeepTheLayout }
{}
