//! Laws of the tree that `hygiene` of `ecma_hygiene` gives, read again by its texts alone: over the definitions of scopes, of
//! resolving and of final texts.
//!
//! Each function carries one law, and does nothing. The laws are stated in `specs/Laws.antt`.
#![tactic(auto)]

ghost use Rattle.ecma_hygiene_scopes.specs.Laws.{CollapsedContextsAreRight, ContextsAreMapped, FollowsItsTexts, IdsStayApart, IsReadAgain, ResolvedCapturesNothing, ResolvedDeclaresEachOnce, ResolvedFollowsItsTexts, ResolvedIsReadAgain, ResolvedIsRight, ResolvedKeepsScopesApart, ResolvedTellsScopesApart, ScopesDeclareFinalTexts, TextsNameWhatIdsDo, WrittenModulesStay};

/// A node with other texts opens a scope where it did, and that scope declares the final texts of what it declared.
pub fn scopes_declare_final_texts()
    ensures { ScopesDeclareFinalTexts }
{}

/// Where the ids of a tree say which scopes declare its names, the tree with its final texts, read again without contexts and
/// resolved, is that tree up to two maps of contexts: of those that it had, and of those that its scopes get.
pub fn what_is_read_again_has_its_ids()
    ensures { IsReadAgain }
{}

/// So its ids say what its texts name: two identifiers that are bound have one context exactly where their texts are bound in one
/// scope, and a free one, and it alone, has the unresolved context.
pub fn what_is_read_again_has_its_bindings()
    ensures { FollowsItsTexts }
{}

/// Ids are mapped one to one: two that stand in a tree are written as two, if they have one context, and a free one keeps its text.
pub fn ids_stay_apart()
    ensures { IdsStayApart }
{}

/// The ids of a resolved module say which scopes declare its names, where no name is declared again where it may not be, and no
/// declaration goes.
pub fn resolved_ids_say_which_scopes_declare_them()
    ensures { ResolvedIsRight }
{}

/// So such a module with its final texts, read again without contexts and resolved with the same contexts, is the same tree.
pub fn resolved_modules_are_read_again()
    ensures { ResolvedIsReadAgain }
{}

/// And its ids say what its texts name: two identifiers that are bound have one context exactly where their texts are bound in one
/// scope, and a free one, and it alone, has the unresolved context.
pub fn resolved_modules_mean_what_their_texts_name()
    ensures { ResolvedFollowsItsTexts }
{}

/// Where the contexts of a tree tell its scopes apart, there is such a map of contexts, and it is one to one.
pub fn contexts_are_mapped_one_to_one()
    ensures { ContextsAreMapped }
{}

/// So the ids of the tree with final texts say what its texts name: two identifiers that are bound have one context exactly where
/// their texts are bound in one scope, and a free one, and it alone, has the context of free names.
pub fn final_texts_name_what_ids_do()
    ensures { TextsNameWhatIdsDo }
{}

/// The contexts of a resolved module tell its scopes apart.
pub fn resolved_contexts_tell_scopes_apart()
    ensures { ResolvedTellsScopesApart }
{}

/// Of a resolved module in which declarations may go: what its scopes declare as values that stay, they declare in one context
/// each, no two in the same, and a name that none of them declares so is free.
pub fn resolved_modules_keep_their_scopes_apart()
    ensures { ResolvedKeepsScopesApart }
{}

/// Where the contexts of all scopes are taken for one, the ids of a tree that say which scopes declare its names are right, whichever
/// scopes share contexts.
pub fn collapsed_contexts_are_right()
    ensures { CollapsedContextsAreRight }
{}

/// Of what is written for such a tree no declaration goes.
pub fn written_modules_stay()
    ensures { WrittenModulesStay }
{}

/// In a resolved module of which no declaration goes, nothing is captured by the texts that it has.
pub fn resolved_modules_capture_nothing()
    ensures { ResolvedCapturesNothing }
{}

/// Each scope of such a module declares each text in one context, and the body of a function none that a parameter has.
pub fn resolved_modules_declare_each_text_once()
    ensures { ResolvedDeclaresEachOnce }
{}
