//! The contexts of a module without what the options drop of its imports and exports: it need not be resolved anew for them.
//!
//! Each function carries one law over the definitions, and does nothing. The laws are stated in `specs/Laws.antt`.
#![tactic(auto)]

ghost use Rattle.ecma_elide_scopes.specs.Laws.{ElidedScopesAreFreed};

/// What is left of a module with its contexts has the contexts of the module without what goes, once the names that only dropped imports declared are
/// free, where no `import a = ..` stands in its namespaces.
pub fn elided_scopes_are_freed()
    ensures { ElidedScopesAreFreed }
{}
