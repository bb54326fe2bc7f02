//! The heads of loops: where `in` is no operator, an expression that lacks no parentheses holds none outside of brackets.
//!
//! Each function carries one law over the definitions, and does nothing. The laws are stated in `specs/Laws.antt`.
#![tactic(auto)]

ghost use Rattle.ecma_print_heads.specs.Laws.{CoversHoldNoBareIn, HeadsHoldNoBareIn};

/// Where `in` is no operator, the layout adds parentheses to every expression that holds one outside of brackets: so one to
/// which it adds none has the shape that is asked of what stands in the head of a loop.
pub fn heads_hold_no_bare_in()
    ensures { HeadsHoldNoBareIn }
{}

/// With literals in the place of patterns that are assigned to, an expression without an `in` outside of brackets has none.
pub fn covers_hold_no_bare_in()
    ensures { CoversHoldNoBareIn }
{}
