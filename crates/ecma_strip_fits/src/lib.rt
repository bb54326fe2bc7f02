//! What fits, without its types: which clauses the tree keeps, over the definitions alone.
//!
//! Each function carries one law, and does nothing. The laws are stated in `specs/Laws.antt`.
#![tactic(auto)]

ghost use Rattle.ecma_strip_fits.specs.Laws.{StrippingKeepsBranches, StrippingKeepsChains, StrippingKeepsConstructors, StrippingKeepsCounts, StrippingKeepsFits, StrippingKeepsLeaves, StrippingKeepsMembers, StrippingKeepsNames, StrippingKeepsRules, StrippingKeepsSorts, StrippingKeepsStrays, StrippingKeepsTargets};

/// Where a tree fits, the tree without its types keeps these clauses of fitting.
pub fn stripping_keeps_clauses_of_what_fits()
    ensures sorts { StrippingKeepsSorts }
    ensures names { StrippingKeepsNames }
    ensures counts { StrippingKeepsCounts }
    ensures branches { StrippingKeepsBranches }
    ensures members { StrippingKeepsMembers }
    ensures chains { StrippingKeepsChains }
    ensures rules { StrippingKeepsRules }
    ensures constructors { StrippingKeepsConstructors }
    ensures leaves { StrippingKeepsLeaves }
    ensures targets { StrippingKeepsTargets }
    ensures strays { StrippingKeepsStrays }
{}

/// Where a tree fits, and in no pattern that is assigned to and before no `in` or `of` a name is bound with a type round it, the tree without its
/// types fits.
pub fn stripping_keeps_fits()
    ensures { StrippingKeepsFits }
{}
