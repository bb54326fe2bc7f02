//! Lemmas of what is read fits: its leaves are spelled as their terminals read them.
#![tactic(auto)]
