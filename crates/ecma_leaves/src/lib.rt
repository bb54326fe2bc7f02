//! Whether leaves say what their source texts say.
#![tactic(auto)]

mod regexes;
mod says;
mod templates;
mod words;

pub use words::is_spelled;

#[cfg(test)]
mod tests;
