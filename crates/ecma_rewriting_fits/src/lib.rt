//! What fits, and rewriting by seats: a walk that tells nothing over a tree tells nothing over what becomes of it.
//!
//! Each function carries one law over the definitions, and does nothing. The laws are stated in `specs`.
#![tactic(auto)]

ghost use Rattle.ecma_rewriting_fits.specs.Walking.{WalksGoByTests};

/// A walk that tells nothing over a tree tells nothing over what becomes of it, one node or several for one, whatever the walk asks and
/// whatever is around: where lists and other nodes do so, over what their items and children become.
pub fn walks_go<S, A>()
    ensures { WalksGoByTests S A }
{}
