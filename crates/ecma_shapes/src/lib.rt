//! The raw trees of the expressions, the statements and the modules whose layout is read again: a shape for each form.
#![tactic(auto)]
