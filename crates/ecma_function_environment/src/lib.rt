//! Names in the places of what a function takes of its surroundings: `this`, `arguments`, `new.target` and members of `super`.
//!
//! What is needed is listed by a walk, in the order of first use; given a name for each need, the tree is a map of the old one, and the declarations are a list
//! made of the names. Nothing here speaks of runs.
#![tactic(auto)]

mod declaring;
mod hoister;
mod hoisting;
mod laws;
mod member;
mod need;
mod seat;

pub use hoister::FnEnvHoister;
pub use hoisting::Flags;
pub use laws::{
    at_most_three_contexts_are_drawn_for_a_node, at_most_two_contexts_are_drawn_for_a_declarator,
    each_need_has_one_name,
};
pub use need::{Access, Need};
