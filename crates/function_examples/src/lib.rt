//! Worked examples of the calls on functions: tests alone, with values from outside.
#![tactic(auto)]

#[cfg(test)]
mod constructors;
#[cfg(test)]
mod hoisting;
#[cfg(test)]
mod reading;
#[cfg(test)]
mod wrapping;
