//! Places do not matter: what runs by the definitions of `ecma_runs` does the same where objects and environment records stand at other places.
//!
//! Each function carries one law, and does nothing. The laws are stated in `specs/Laws.antt`.
#![tactic(auto)]

ghost use Rattle.ecma_run_places.specs.Laws.{CallsMindNoPlaces, HostsSeeNoPlaces, NamesMayBeReadForNothing, PlacesDoNotMatter, WhatIsMadeBesidesIsFree, WhatOnlyMakesMayGo};

/// The same node, in contexts and from states that are the same but for places, comes out alike in each role: with the same events, answers and turns, with
/// values that are the same but for places, and in states that are so, too.
pub fn places_do_not_matter()
    ensures { PlacesDoNotMatter }
{}

/// And so do calls of functions of the program.
pub fn calls_mind_no_places()
    ensures { CallsMindNoPlaces }
{}

/// And so do a module's body and the actions of a script: the host sees the same answers.
pub fn hosts_see_no_places()
    ensures { HostsSeeNoPlaces }
{}

/// What is made besides, in either state, is free: the states are the same but for places in the same world.
pub fn what_is_made_besides_is_free()
    ensures { WhatIsMadeBesidesIsFree }
{}

/// A name may be read for nothing, where it gives a value: the state behind it is the same but for places as the one before, also where `arguments`, or `typeof arguments`,
/// makes the object.
pub fn names_may_be_read_for_nothing()
    ensures { NamesMayBeReadForNothing }
{}

/// So an expression may be dropped that only reads names and makes what nobody else has, where it gives a value: one of names, literals, functions, arrays, `this` and operators on
/// these, as `[[], function () {}]` and `typeof arguments`. No name is that of a member of an enum. All that follows does the same.
pub fn what_only_makes_may_go()
    ensures { WhatOnlyMakesMayGo }
{}
