//! A law: what fits is read again as it is printed.
//!
//! The function carries the law over the definitions, and does nothing. The law is stated in `specs/Laws.antt`.
#![tactic(auto)]

ghost use Rattle.ecma_round_trip.specs.Laws.{WhatFitsIsReadAgain};

/// The layout of a plain module that fits is read, with enough levels and with any more, as the module with the parentheses of its layout, up to spans and
/// contexts.
pub fn what_fits_is_read_again()
    ensures { WhatFitsIsReadAgain }
{}
