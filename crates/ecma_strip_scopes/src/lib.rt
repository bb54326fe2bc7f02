//! What scopes declare without the types of a tree, over the definitions of `ecma_strip`, `ecma_scope` and `ecma_hygiene_scopes`.
//!
//! Each function carries one law, and does nothing. The laws are stated in `specs/Laws.antt`.
#![tactic(auto)]

ghost use Rattle.ecma_strip_scopes.specs.Laws.{ScopesDeclareWhatStays, StrippedModulesTellScopesApart, StrippedTellsScopesApart, StrippedTreesDeclareTextsOnce, StrippedTreesSayTheirScopes, WhatGoesDeclaresNothing, WhatStaysIsDeclared};

/// Where names are looked for in a list, no item that goes with the types declares a value that stays.
pub fn what_goes_declares_nothing()
    ensures { WhatGoesDeclaresNothing }
{}

/// What stays of a tree declares, without its types, what the tree declares as values that stay.
pub fn what_stays_is_declared()
    ensures { WhatStaysIsDeclared }
{}

/// A scope declares without its types what it declares as values that stay, where it is clear what these are.
pub fn scopes_declare_what_stays()
    ensures { ScopesDeclareWhatStays }
{}

/// The ids of a tree say without its types which scopes declare its names, where they said so of what stays, and of the scopes that stay none is ambient and it is
/// clear what they declare.
pub fn stripped_trees_say_their_scopes()
    ensures { StrippedTreesSayTheirScopes }
{}

/// A scope of such a tree declares without its types each text once, where it did, but for what was made.
pub fn stripped_trees_declare_texts_once()
    ensures { StrippedTreesDeclareTextsOnce }
{}

/// A tree that keeps its scopes apart tells them apart without its types, where of the scopes that stay none is ambient and it is clear what they declare.
pub fn stripped_trees_tell_scopes_apart()
    ensures { StrippedTellsScopesApart }
{}

/// A module that is resolved, and stripped of its types then, tells its scopes apart, where of the scopes that stay none is ambient and it is clear what
/// they declare: each name is declared where it may be, and there were contexts enough.
pub fn stripped_modules_tell_scopes_apart()
    ensures { StrippedModulesTellScopesApart }
{}
