//! The grammar reads the tokens of functions, classes, objects and their members as these, a lemma for each form.
#![tactic(auto)]
