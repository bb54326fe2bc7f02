//! No identifier of what is read was made: each stands in the text.
//!
//! Each function carries one law over the definitions, and does nothing. The laws are stated in `specs/Laws.antt`.
#![tactic(auto)]

ghost use Rattle.ecma_text_spans.specs.Laws.{NamesThatAreReadStandInTheSource};

/// No identifier was made of what is read of a UTF-8 text, in either mode and with any number of levels.
pub fn names_that_are_read_stand_in_the_source()
    ensures { NamesThatAreReadStandInTheSource }
{}
