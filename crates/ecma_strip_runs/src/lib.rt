//! What a module without its types does when it runs, over the definitions of `ecma_strip` and `ecma_runs` alone.
//!
//! Each function carries one law, and does nothing. The laws are stated in `specs/Laws.antt`.
#![tactic(auto)]

ghost use Rattle.ecma_strip_runs.specs.Laws.{OnlyTypesGo, StrippingKeepsRuns};

/// A module without its types is observed to do what it does with them, for every script of the host and every number of turns, where what goes does
/// nothing, and no enum stays: of each tree from which only types go.
pub fn stripping_keeps_runs()
    ensures { StrippingKeepsRuns }
{}

/// From a tree with the sort of a module only types go, where no statement has a declaration but a `var` as its body and no arrow function a parameter `this`.
pub fn only_types_go_from_modules()
    ensures { OnlyTypesGo }
{}
