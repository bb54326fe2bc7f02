//! Worked examples of the public calls of several crates: tests alone, with values from outside. A crate with tests is proved twice; this one is small.
#![tactic(auto)]

#[cfg(test)]
mod binding;
#[cfg(test)]
mod fitting;
#[cfg(test)]
mod plain;
#[cfg(test)]
mod printing;
#[cfg(test)]
mod rules;
#[cfg(test)]
mod scopes;
#[cfg(test)]
mod stripping;
#[cfg(test)]
mod texts;
