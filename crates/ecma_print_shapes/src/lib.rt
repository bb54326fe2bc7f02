//! Laws: the raw tree of a finished one that fits, with explicit parentheses, has the shapes that are read again.
//!
//! Each function carries one law over the definitions, and does nothing. The laws are stated in `specs/Laws.antt`.
#![tactic(auto)]

ghost use Rattle.ecma_print_shapes.specs.Laws.{ExpressionsHaveTheirShapes, ModulesHaveTheirShapes};

/// The raw tree of a plain expression that fits, lacks no parentheses and is of the forms of `ecma_plain` has the shape of an expression.
pub fn expressions_have_their_shapes()
    ensures { ExpressionsHaveTheirShapes }
{}

/// The raw tree of a plain module that fits, lacks no parentheses and is of these forms has the shape of a module.
pub fn modules_have_their_shapes()
    ensures { ModulesHaveTheirShapes }
{}
