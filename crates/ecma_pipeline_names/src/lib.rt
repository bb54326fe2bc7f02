//! No identifier of what a program reads, encloses, resolves, binds and strips is long: its text has fewer than 2^32 - 64 bytes.
//!
//! Each function carries one law over the definitions, and does nothing. The laws are stated in `specs/Laws.antt`.
#![tactic(auto)]

ghost use Rattle.ecma_pipeline_names.specs.Laws.{BindingKeepsNamesShort, ContextsKeepNamesShort, EnclosingKeepsNamesShort, NamesThatAreReadAreShort, StrippingKeepsNamesShort};

/// No identifier is long in what is read, in either mode and with any number of levels, of a text with fewer than 2^32 - 64 bytes.
#[tactic(auto, using(crate::proofs::Reading::names_read))]
pub fn names_that_are_read_are_short()
    ensures { NamesThatAreReadAreShort }
{}

/// Where no identifier is long, none is in the tree with its contexts.
#[tactic(auto, using(crate::proofs::Contexts::names_in_contexts))]
pub fn contexts_keep_names_short()
    ensures { ContextsKeepNamesShort }
{}

/// Where no identifier is long, none is in the tree without its types.
#[tactic(auto, using(crate::proofs::Stripping::names_left))]
pub fn stripping_keeps_names_short()
    ensures { StrippingKeepsNamesShort }
{}

/// Where no identifier is long, none is in the tree with bound names.
#[tactic(auto, using(crate::proofs::Binding::names_bound))]
pub fn binding_keeps_names_short()
    ensures { BindingKeepsNamesShort }
{}

/// Where no identifier of a module is long, none is in the module with its parentheses.
#[tactic(auto, using(crate::proofs::Enclosing::names_enclosed))]
pub fn enclosing_keeps_names_short()
    ensures { EnclosingKeepsNamesShort }
{}
