//! How the grammar reads a list of tokens in plain reading, and what it reads of the forms that most others are made of: lemmas of the
//! law that the layout of a module is read again.
#![tactic(auto)]
