//! Walks down a tree: what they list, and what each node is there for where it stands.
//!
//! What a walk lists is a definition, `listed` in specs/Listing.antt: each pass that goes down a tree and takes
//! something along says with it what it is to find. The lemmas that a loop over children needs are in
//! proofs/Walking.antt.
//!
//! The *seat* of a node is the [`Shape`](ecma_tree::Shape) that its parent asks of the child at that index: what the
//! node is there for. It tells apart the identifiers of one kind: a name that is an expression, a shorthand, a declared
//! name, a label.
#![tactic(auto)]

mod seats;

pub use seats::{is_expression, is_shorthand, nodes, root_seat, seat_at};
