//! Modules as they are read, before they go their way and once they are written: definitions that the laws of reading and of the whole way share.
#![tactic(auto)]
