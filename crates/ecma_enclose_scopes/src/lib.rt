//! Parentheses that keep what is written from being read as something else do not matter to scopes: how many contexts they take, and which names are
//! declared again where they may not be.
//!
//! Each function carries laws over the definitions, and does nothing. The laws are stated in `specs/Laws.antt`.
#![tactic(auto)]

ghost use Rattle.ecma_enclose_scopes.specs.Laws.{EnclosedTreesDeclareAlike, EnclosedTreesTakeAsManyContexts};

/// A sorted module with its parentheses takes as many contexts, and declares the same names again.
pub fn enclosed_trees_scope_alike()
    ensures contexts { EnclosedTreesTakeAsManyContexts }
    ensures conflicts { EnclosedTreesDeclareAlike }
{}
