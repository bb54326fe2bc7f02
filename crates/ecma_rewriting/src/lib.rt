//! Rewriting a tree by where its nodes stand: the general word, and its laws.
//!
//! Each function carries laws over the definitions, and does nothing. The laws are stated in `specs/Laws.antt` and `specs/Shapes.antt`.
#![tactic(auto)]

mod laws;

pub use laws::{
    nodes_become_by_their_children, nothing_happens_where_nothing_is_done, shapes_are_kept,
};
