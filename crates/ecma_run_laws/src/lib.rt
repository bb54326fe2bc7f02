//! What may be changed of a module without enums so that it is observed to do what it does, over the definitions of `ecma_runs` alone.
//!
//! Each function carries one law, and does nothing. The laws are stated in `specs/Laws.antt`.
#![tactic(auto)]

ghost use Rattle.ecma_run_laws.specs.Laws.{BlocksMayBeCalledAsFunctions, EqualExpressionsMayStandForEachOther, EqualPartsMayStandForEachOther, EqualReferencesMayStandForEachOther, NewNamesMayBeDeclared, UnusedNamesDoNotMatter, WhatIsUsedStays};

/// A module is observed to do what its image under a map of trees does, where what the map makes of a node means, in each role, what the node's kind makes
/// of what the images of its children mean.
pub fn equal_parts_may_stand_for_each_other()
    ensures { EqualPartsMayStandForEachOther }
{}

/// Expressions may be exchanged for others that are read alike, wherever they are only read.
pub fn equal_expressions_may_stand_for_each_other()
    ensures { EqualExpressionsMayStandForEachOther }
{}

/// Expressions may be exchanged for others that refer to the same, wherever they are referred to.
pub fn equal_references_may_stand_for_each_other()
    ensures { EqualReferencesMayStandForEachOther }
{}

/// Imports, and `var` and `let` without a value, may go and come, where no identifier of the rest has their names and they are not exported.
pub fn unused_names_do_not_matter()
    ensures { UnusedNamesDoNotMatter }
{}

/// A tree in which no identifier has a name that is to go stays as it is.
pub fn what_is_used_stays()
    ensures { WhatIsUsedStays }
{}

/// Imports, and `var` and `let` without a value, may come to the head of a module in which no identifier has their names.
pub fn new_names_may_be_declared()
    ensures { NewNamesMayBeDeclared }
{}

/// The block of a namespace that has more than types may be written as a function that is called where it stands: the run is the same, turns and places too, unless it
/// meets something open.
pub fn blocks_may_be_called_as_functions()
    ensures { BlocksMayBeCalledAsFunctions }
{}
