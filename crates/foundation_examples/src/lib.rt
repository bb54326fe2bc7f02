//! Examples of the public calls of the crates that all stands on, with values from outside: tests alone. A crate with tests is proved twice; this one is small.
#![tactic(auto)]

#[cfg(test)]
mod kinds;
#[cfg(test)]
mod lexing;
#[cfg(test)]
mod reading;
#[cfg(test)]
mod running;
#[cfg(test)]
mod trees;
