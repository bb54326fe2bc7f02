//! Lemmas of what is read fits: each node of a raw tree is what it has to be where it stands.
#![tactic(auto)]
