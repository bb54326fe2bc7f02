//! Laws of the context rules and of finished trees: where nodes stand in a text does not matter to them.
//!
//! Each function carries one law over the definitions, and does nothing. The laws are stated in `specs/Laws.antt`.
#![tactic(auto)]

ghost use Rattle.ecma_rules_congruence.specs.Laws.{SpansDoNotMatterToFinishing, SpansDoNotMatterToRules};

/// Of two raw trees that are equal up to spans both keep the context rules or neither does.
pub fn spans_do_not_matter_to_rules()
    ensures { SpansDoNotMatterToRules }
{}

/// Finished, they are equal up to spans.
pub fn spans_do_not_matter_to_finishing()
    ensures { SpansDoNotMatterToFinishing }
{}
