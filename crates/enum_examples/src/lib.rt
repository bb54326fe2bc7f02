//! Worked examples of what is known of enums: tests alone, with values from outside.
#![tactic(auto)]

#[cfg(test)]
mod merging;
#[cfg(test)]
mod reading;
#[cfg(test)]
mod reads;
#[cfg(test)]
mod records;
#[cfg(test)]
mod values;
