//! Laws of scopes and contexts, over their definitions alone.
//!
//! Each function carries one law, and does nothing.
ghost use Rattle.ecma_scope.specs.Bindings.{ResolvedFollows};
ghost use Rattle.ecma_scope.specs.Laws.{ResolvedChangesContexts, ResolvedKeepsSorts, ToldWhereRedeclared};
ghost use Rattle.ecma_scope.specs.Needs.{NeededSuffice};

/// In a resolved tree the contexts say what identifiers name: a free one, and it alone, has the unresolved context, and two that are
/// bound have one context exactly where they are bound in one scope. So two of one text that are bound have one id exactly
/// where they have one binding.
#[tactic(auto, using(crate::proofs::Following::following))]
pub fn ids_follow_bindings()
    ensures { ResolvedFollows }
{}

/// So many contexts as `needs` says are enough for all scopes of a module, where they are few enough to be said.
#[tactic(auto, using(crate::proofs::Needing::needing))]
pub fn needed_contexts_suffice()
    ensures { NeededSuffice }
{}

/// A resolved tree is the tree but for contexts, and so of the same sorts.
#[tactic(auto, using(crate::proofs::Unchanged::unchanged))]
pub fn resolving_changes_contexts_alone()
    ensures tree { ResolvedChangesContexts }
    ensures sorts { ResolvedKeepsSorts }
{}

/// A check of scopes tells a name exactly where one is declared again where it may not be.
#[tactic(auto, using(crate::proofs::Telling::telling))]
pub fn a_name_is_told_where_one_is_redeclared()
    ensures { ToldWhereRedeclared }
{}
