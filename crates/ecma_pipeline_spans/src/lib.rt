//! No identifier of what a program reads, encloses, resolves, binds and strips was made: each stands in the source, where it has a byte at least.
//!
//! Each function carries one law over the definitions, and does nothing. The laws are stated in `specs/Laws.antt`.
#![tactic(auto)]

ghost use Rattle.ecma_pipeline_spans.specs.Laws.{BindingMakesNoNames, ContextsMakeNoNames, EnclosingMakesNoNames, StrippingMakesNoNames};

/// Where no identifier was made, none of the tree with its contexts was.
#[tactic(auto, using(crate::proofs::Contexts::names_in_contexts))]
pub fn contexts_make_no_names()
    ensures { ContextsMakeNoNames }
{}

/// Where no identifier was made, but for free names, none of the tree without its types was.
pub fn stripping_makes_no_names()
    ensures { StrippingMakesNoNames }
{}

/// Where no identifier was made, none of the tree with bound names was.
#[tactic(auto, using(crate::proofs::Binding::names_bound))]
pub fn binding_makes_no_names()
    ensures { BindingMakesNoNames }
{}

/// Where no identifier of a module was made, none of the module with its parentheses was.
#[tactic(auto, using(crate::proofs::Enclosing::names_enclosed))]
pub fn enclosing_makes_no_names()
    ensures { EnclosingMakesNoNames }
{}
