//! What is known of the enums of a module before it runs does not matter to what asks nothing of it, by the definitions of `ecma_runs`.
//!
//! Each function carries one law, and does nothing. The laws are stated in `specs/Laws.antt`.
#![tactic(auto)]

ghost use Rattle.ecma_run_enums.specs.Laws.{NoNamesAreNoMembers, NothingIsAskedOfNoEnums, UnaskedFactsDoNotMatter, UnnamedMembersDoNotMatter, WhatAsksNothingNamesNoMembers};

/// A node that asks nothing of what is known of enums means the same in each role, in two contexts that differ in nothing else, whatever functions of the program do: at no depth, the bodies
/// of functions included, it has the name of a member or of an enum of which a member is not written, a read of a known member such as `E.A`, or an enum.
pub fn unasked_facts_do_not_matter()
    ensures { UnaskedFactsDoNotMatter }
{}

/// Where nothing is known of enums, no node asks anything.
pub fn nothing_is_asked_of_no_enums()
    ensures { NothingIsAskedOfNoEnums }
{}

/// A node in which no name is that of a member of an enum means the same where no name at all is, whatever else is known of enums.
pub fn unnamed_members_do_not_matter()
    ensures { UnnamedMembersDoNotMatter }
{}

/// In what asks nothing no name is that of a member.
pub fn what_asks_nothing_names_no_members()
    ensures { WhatAsksNothingNamesNoMembers }
{}

/// And nor in any node, where no name is.
pub fn no_names_are_no_members()
    ensures { NoNamesAreNoMembers }
{}
