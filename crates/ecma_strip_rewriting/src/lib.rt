//! Rewriting by seats, and stripping types: what may be done before stripping or after.
//!
//! Each function carries one law over the definitions, and does nothing. The laws are stated in `specs`.
#![tactic(auto)]

ghost use Rattle.ecma_strip_rewriting.specs.Commuting.{CommutesWithStripping};
ghost use Rattle.ecma_strip_rewriting.specs.Imports.{ConstantsBeforeOrAfter};
ghost use Rattle.ecma_strip_rewriting.specs.Names.{NamesStandUnderTypes};
ghost use Rattle.ecma_strip_rewriting.specs.Remaining.{WhatStaysStays};

/// Rewriting what is stripped is stripping what is rewritten: for every node of a shape and in every seat, where the rewriting asks
/// nothing of types at the kinds where it does something.
pub fn commutes_with_stripping<S>()
    ensures { CommutesWithStripping S }
{}

/// Where one node is written for one, of which the same is said where it is asked what stays, all that an item becomes that stays does.
pub fn what_stays_stays<S>()
    ensures { WhatStaysStays S }
{}

/// A name and a text that stand under types stand there without them.
pub fn names_stand_under_types()
    ensures { NamesStandUnderTypes }
{}

/// An instance: `import a = b.c` may be written as a constant before types are stripped or after.
pub fn constants_before_or_after()
    ensures { ConstantsBeforeOrAfter }
{}
