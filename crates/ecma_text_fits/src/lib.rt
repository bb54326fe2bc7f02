//! Laws of trees that fit, over the definitions alone.
//!
//! Each function carries one law, and does nothing. The laws are stated in `specs/Laws.antt`.
#![tactic(auto)]

ghost use Rattle.ecma_text_fits.specs.Laws.{FinishedClassesHaveOneConstructor, FinishedTargetsAreNoStrays, FinishedTreesHaveNoStrays, FinishedTreesHaveTheirRoles, FinishedTreesKeepRules, FirstUnfitIsLeast, FitsWhereNoneIsTold, RawModulesHaveTheirRoles, ReadBranchesTakeTheirElse, ReadLeavesAreSpelled, ReadLinksAreNotLoose, ReadMembersAreNotMisread, ReadNodesAreFull, ReadTargetsAreNoStrays, ReadTreesHaveTheirRoles, ReadTreesKeepRules, WhatIsReadFits};

use ecma_text_sorts::modules_that_are_read_are_sorted;

/// A tree fits exactly where it is a module by its sorts and no place is told of it.
#[tactic(auto, using(ecma_fits::proofs::Clauses::clauses))]
pub fn trees_fit_where_no_place_is_told()
    ensures { FitsWhereNoneIsTold }
{}

/// Where a tree does not fit, a node that fails a clause begins at the place that is told, and none begins before; where it fits, none is told.
#[tactic(auto, using(crate::proofs::Least::least_unfit))]
pub fn the_first_unfit_is_the_least()
    ensures { FirstUnfitIsLeast }
{}

/// In what is made of a raw tree that keeps the context rules, nothing belongs to nothing inside an enum initialiser or a namespace body.
#[tactic(auto, using(crate::proofs::Stated::strayless))]
pub fn finished_trees_have_no_strays()
    ensures { FinishedTreesHaveNoStrays }
{}

/// No node of what is made of a raw tree that keeps the context rules breaks one that reads a finished tree as it reads a raw one.
#[tactic(auto, using(crate::proofs::Stated::rules_kept))]
pub fn finished_trees_keep_rules()
    ensures { FinishedTreesKeepRules }
{}

/// No class of it has two constructors with bodies.
#[tactic(auto, using(crate::proofs::Stated::single))]
pub fn finished_classes_have_one_constructor()
    ensures { FinishedClassesHaveOneConstructor }
{}

/// What is read as a module, in either mode and with any number of levels, keeps these rules.
pub fn trees_that_are_read_keep_rules()
    ensures { ReadTreesKeepRules }
{
    modules_that_are_read_are_sorted();
}

/// Each node of what is read as a module has the parts that its production asks for.
pub fn nodes_that_are_read_are_full()
    ensures { ReadNodesAreFull }
{
    trees_that_are_read_keep_rules();
}

/// No `if` without `else` in it stands directly before an outer `else`.
pub fn branches_that_are_read_take_their_else()
    ensures { ReadBranchesTakeTheirElse }
{
    trees_that_are_read_keep_rules();
}

/// Each link of an optional chain in it that has no `?.` of its own stands behind one that has it.
pub fn links_that_are_read_are_not_loose()
    ensures { ReadLinksAreNotLoose }
{
    trees_that_are_read_keep_rules();
}

/// A member `constructor` in it that is not static is the constructor, and no other is; its getters and setters of classes are no generators and not async.
pub fn members_that_are_read_are_not_misread()
    ensures { ReadMembersAreNotMisread }
{
    trees_that_are_read_keep_rules();
}

/// In the raw module that the grammar gives, names, patterns and parameters stand where something is declared, private names where they may, reserved
/// words where they name nothing, and text parts without a value behind a tag.
#[tactic(auto, using(crate::proofs::Stated::roles_given))]
pub fn raw_modules_have_their_roles()
    ensures { RawModulesHaveTheirRoles }
{}

/// Where a raw module has these roles and keeps the context rules, each node of the finished one is what it has to be where it stands.
#[tactic(auto, using(crate::proofs::ReadRoles::roles_finish))]
pub fn finished_trees_have_their_roles()
    ensures { FinishedTreesHaveTheirRoles }
{}

/// Each node of what is read as a module, in either mode and with any number of levels, is what it has to be where it stands.
#[tactic(auto, using(crate::proofs::ReadRoles::roles_read))]
pub fn trees_that_are_read_have_their_roles()
    ensures { ReadTreesHaveTheirRoles }
{}

/// In the patterns of the same finished module nothing assigns to an `arguments` that belongs to nothing inside the enum initialiser or namespace body
/// around it.
#[tactic(auto, using(crate::proofs::ReadRoles::targets_finish))]
pub fn finished_targets_are_no_strays()
    ensures { FinishedTargetsAreNoStrays }
{}

/// Nor does anything in the patterns of what is read as a module.
#[tactic(auto, using(crate::proofs::ReadRoles::targets_read))]
pub fn targets_that_are_read_are_no_strays()
    ensures { ReadTargetsAreNoStrays }
{}

/// Each leaf of what is read as a module is spelled as its terminal reads it, and says what that says: names, keys, private names, texts, numbers, BigInts,
/// regular expressions, text parts of templates and hashbangs.
pub fn leaves_that_are_read_are_spelled()
    ensures { ReadLeavesAreSpelled }
{
    modules_that_are_read_are_sorted();
    raw_modules_have_their_roles();
}

/// What is read as a module, in either mode and with any number of levels, fits.
pub fn what_is_read_fits()
    ensures { WhatIsReadFits }
{
    modules_that_are_read_are_sorted();
    nodes_that_are_read_are_full();
    branches_that_are_read_take_their_else();
    links_that_are_read_are_not_loose();
    members_that_are_read_are_not_misread();
    trees_that_are_read_have_their_roles();
    targets_that_are_read_are_no_strays();
    trees_that_are_read_keep_rules();
    leaves_that_are_read_are_spelled();
}
