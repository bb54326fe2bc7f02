//! What is printed is read again by the grammar as data: laws over the definitions of the layout and of the readings alone.
//!
//! Each function carries one law, and does nothing. The laws are stated in `specs/Laws.antt`.
#![tactic(auto)]

ghost use Rattle.ecma_print_reread.specs.Laws.{ModulesAreReadAgain};

/// The layout of a module of the shapes of `ecma_shapes` is read in plain reading as that module, up to
/// spans, wherever levels enough are allowed.
pub fn printed_modules_are_read_again()
    ensures { ModulesAreReadAgain }
{}
