//! How a module stands to others: what it imports, what it exports again, and its exported names, read off its tree (ECMAScript, 16.2.2, 16.2.3).
//! Definitions that the laws of interfaces share.
#![tactic(auto)]
