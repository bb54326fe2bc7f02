//! The parentheses that the layout puts round expressions, as nodes of the tree: laws over the definitions of `ecma_print`, `ecma_runs` and of `specs/` alone.
//!
//! Each function carries one law, and does nothing but to call upon another law. The laws are stated in `specs/Laws.antt`.
#![tactic(auto)]

ghost use Rattle.ecma_print_parentheses.specs.Laws.{LayoutStays, NoneAreAddedAgain, NoneAreLacking, OnlyParenthesesAreAdded, RunsAlike, SortsAreKept, TreesThatLackNoneStay};

/// Without any parentheses the tree with explicit ones is the tree.
pub fn only_parentheses_are_added()
    ensures { OnlyParenthesesAreAdded }
{}

/// In a tree with explicit parentheses each node stands in its spot without others.
pub fn none_are_lacking()
    ensures { NoneAreLacking }
{}

/// A tree in which each node does is the tree with explicit parentheses.
pub fn trees_that_lack_none_stay()
    ensures { TreesThatLackNoneStay }
{}

/// To a tree with explicit parentheses none are added.
pub fn none_are_added_again()
    ensures { NoneAreAddedAgain }
{}

/// The tree with explicit parentheses has each shape that the tree has, and so its sorts.
pub fn sorts_are_kept()
    ensures { SortsAreKept }
{}

/// The layout of a tree is the layout of the tree with explicit parentheses.
pub fn layout_stays()
    ensures { LayoutStays }
{}

/// A module without enums does with explicit parentheses what it does without them: most end no optional chain, and those that do stand where the chain ends.
pub fn it_runs_alike()
    ensures { RunsAlike }
{
    ecma_runs::laws::parentheses_do_not_matter();
}
