//! Worked examples of the calls on classes: which helpers are imported, which classes are not lowered. Tests alone, with values from outside.
#![tactic(auto)]

#[cfg(test)]
mod helpers;
#[cfg(test)]
mod properties;
#[cfg(test)]
mod reading;
