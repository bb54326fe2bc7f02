//! Trees with their bindings that are ready to be stripped of their types, given final texts and printed: definitions that the laws of the whole way share.
#![tactic(auto)]
