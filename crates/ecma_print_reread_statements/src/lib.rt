//! The grammar reads the tokens of a statement as that statement, a lemma for each form.
#![tactic(auto)]
