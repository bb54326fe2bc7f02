//! Worked examples of the calls that look for, build and rename parts of trees: tests alone, with values from outside.
#![tactic(auto)]

#[cfg(test)]
mod builders;
#[cfg(test)]
mod judging;
#[cfg(test)]
mod utilities;
