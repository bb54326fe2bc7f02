//! Laws of finished trees that fit, and of the raw trees that are made of them.
//!
//! Each function carries one law over the definitions, and does nothing. The laws are stated in `specs/Laws.antt`.
#![tactic(auto)]

ghost use Rattle.ecma_print_fits.specs.Laws.{CoversAreNotMisplaced, CoversBreakNoRule, ExplicitBranchesStay, ExplicitChainsStay, ExplicitConstructorsStay, ExplicitCountsStay, ExplicitLeavesStay, ExplicitMembersStay, ExplicitRolesStay, ExplicitRulesStay, ExplicitStraysStay, ExplicitTargetsStay, WhatFitsStands, WhatFitsHasUsualDefaults};

/// In a tree that fits, and whose patterns have no `?`, patterns stand where they may.
#[tactic(auto, using(crate::proofs::Placed::placed))]
pub fn what_fits_stands()
    ensures { WhatFitsStands }
{}

/// In the raw tree of such a tree no node breaks a context rule, but perhaps one that belongs to nothing inside the enum initialiser or namespace body around it.
#[tactic(auto, using(crate::proofs::Unbroken::whole))]
pub fn covers_are_not_misplaced()
    ensures { CoversAreNotMisplaced }
{}

/// It keeps all context rules.
#[tactic(auto, using(crate::proofs::Strayless::keeping))]
pub fn covers_break_no_rule()
    ensures { CoversBreakNoRule }
{}

/// In a module with explicit parentheses each node has the parts that its production asks for, where it had.
#[tactic(auto, using(crate::proofs::Counting::counts))]
pub fn explicit_counts_stay()
    ensures { ExplicitCountsStay }
{}

/// In the tree with explicit parentheses no `if` without `else` stands directly before an outer `else`, where none did.
#[tactic(auto, using(crate::proofs::Branching::explicit_clauses))]
pub fn explicit_branches_stay()
    ensures { ExplicitBranchesStay }
{}

/// Its members are read as they stand, where those of the tree were.
#[tactic(auto, using(crate::proofs::Branching::explicit_clauses))]
pub fn explicit_members_stay()
    ensures { ExplicitMembersStay }
{}

/// In a module with explicit parentheses each link of an optional chain without its own `?.` stands behind a link, where it did.
#[tactic(auto, using(crate::proofs::Chaining::chains))]
pub fn explicit_chains_stay()
    ensures { ExplicitChainsStay }
{}

/// In the tree with explicit parentheses no node is out of its role, where none was.
#[tactic(auto, using(crate::proofs::Holding::roles))]
pub fn explicit_roles_stay()
    ensures { ExplicitRolesStay }
{}

/// In the tree with explicit parentheses no leaf is misspelled, where none was.
#[tactic(auto, using(crate::proofs::Spelling::leaves))]
pub fn explicit_leaves_stay()
    ensures { ExplicitLeavesStay }
{}

/// In a module with explicit parentheses no class has two constructors with bodies, where none had.
#[tactic(auto, using(crate::proofs::Constructing::constructors))]
pub fn explicit_constructors_stay()
    ensures { ExplicitConstructorsStay }
{}

/// In a module with explicit parentheses no node breaks a context rule that reads it as it reads a raw one, where none did and none was out of its role.
#[tactic(auto, using(crate::proofs::Ruling::rules_kept))]
pub fn explicit_rules_stay()
    ensures { ExplicitRulesStay }
{}

/// In a module with explicit parentheses no `arguments` that is assigned to in a pattern belongs to nothing, where none did and no node was out of its role.
#[tactic(auto, using(crate::proofs::Targeting::targets))]
pub fn explicit_targets_stay()
    ensures { ExplicitTargetsStay }
{}

/// In the tree with explicit parentheses nothing belongs to nothing inside an enum initialiser or namespace body, where nothing did.
#[tactic(auto, using(crate::proofs::Straying::strays))]
pub fn explicit_strays_stay()
    ensures { ExplicitStraysStay }
{}

/// In a tree that fits nothing but a target has a default.
#[tactic(auto, using(crate::proofs::Usual::usual))]
pub fn what_fits_has_usual_defaults()
    ensures { WhatFitsHasUsualDefaults }
{}
