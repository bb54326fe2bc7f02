//! Examples of conversions by the whole program, with values from outside: tests alone. A crate with tests is proved twice; this one is small.
#![tactic(auto)]

#[cfg(test)]
mod converting;
