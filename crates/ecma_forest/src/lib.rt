//! Trees in one array: the nodes of all trees stand side by side, and a tree that is changed is put behind the others, with what stays shared.
//!
//! Contracts see a [`Forest`] as lists of [`Node`](ecma_tree::Node)s: of the trees that have a place, and of the roots, which have none yet. A
//! [`Cursor`] is seen as the node that stands there.
#![tactic(auto)]

mod change;
mod collect;
mod convert;
mod cursor;
mod find;
mod forest;
mod hash;
mod kinds;
mod laws;
mod rewriting;
mod scan;
mod summary;

pub use change::Change;
pub use collect::symbols;
pub use convert::{push_node, to_node};
pub use cursor::Cursor;
pub use find::mentions;
pub use forest::Forest;
pub use laws::{
    opening_undoes_wrapping, summaries_are_what_a_search_finds,
    trees_with_nothing_to_do_are_passed_over,
};
pub use rewriting::{Rule, rewrite};
pub use scan::Scan;
pub use summary::{Summary, kind_summary};

#[cfg(test)]
mod samples;
#[cfg(test)]
mod tests;
