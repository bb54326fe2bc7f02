//! Rewriting a tree by where its nodes stand, as code: one walk for each rewriting by seats (`ecma_rewriting`).
#![tactic(auto)]

mod steps;
mod walk;

pub use steps::Rewriter;
pub use walk::rewrite;
