//! Lemmas of what is read fits: what finishing keeps of a raw tree, its context rules and the roles of its nodes.
#![tactic(auto)]
