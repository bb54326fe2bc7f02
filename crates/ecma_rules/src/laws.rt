//! Laws of the rules and of the finished tree, over their definitions alone.
//!
//! Each function carries one law, and does nothing.
ghost use Rattle.ecma_rules.specs.Breaking.{FirstBrokenIsLeast};
ghost use Rattle.ecma_rules.specs.Laws.{FinishingKeepsOthers};

/// The finished tree has the nodes of the raw one in their order, with their spans and kinds and so with all their data, but for
/// the literals and assignments that become patterns, and for the nodes that patterns have more.
#[tactic(auto, using(crate::proofs::Keeping::keeping))]
pub fn finishing_keeps_all_but_patterns()
    ensures { FinishingKeepsOthers }
{}

/// Where a place is told, a node of the tree that begins there breaks a rule, and none that begins before does; where none is told,
/// no node does.
#[tactic(auto, using(crate::proofs::Leasts::leasts))]
pub fn the_first_broken_is_the_least()
    ensures { FirstBrokenIsLeast }
{}
