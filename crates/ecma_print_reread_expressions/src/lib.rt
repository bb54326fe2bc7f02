//! The grammar reads the tokens of an expression as that expression, a lemma for each form.
#![tactic(auto)]
