//! Lemmas of what is read fits: each node of a raw tree has the parts that its production asks for.
#![tactic(auto)]
