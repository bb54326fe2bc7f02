//! What a node of a raw tree may be where it stands: definitions, with lemmas on walks over a tree that tell nothing.
#![tactic(auto)]
