//! With final texts for its identifiers a module imports and exports what it does by the texts that its variables get.
//!
//! The function carries a law over the definitions, and does nothing. The law is stated in `specs/Laws.antt`.
#![tactic(auto)]

ghost use Rattle.ecma_hygiene_interface.specs.Laws.{FinalTextsKeepInterfaces};

/// With other texts, which its exported declarations keep, a module has the interface that it has by these texts.
pub fn final_texts_keep_interfaces()
    ensures { FinalTextsKeepInterfaces }
{}
