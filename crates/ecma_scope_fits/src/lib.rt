//! Passes keep what fits fitting, over the definitions alone.
//!
//! Each function carries one law, and does nothing. The laws are stated in `specs/Laws.antt`.
#![tactic(auto)]

ghost use Rattle.ecma_scope_fits.specs.Laws.{ContextsDoNotMatter, EqualButForContextsFitAlike, ResolvedTreesFitAlike};

/// A tree fits exactly where it fits with other contexts: so where it fits without any, where it fits resolved, and where one fits that is equal to it but for contexts.
pub fn contexts_do_not_matter_to_fits()
    ensures any { ContextsDoNotMatter }
    ensures equal { EqualButForContextsFitAlike }
    ensures resolved { ResolvedTreesFitAlike }
{}
