//! Plain modules: which trees are plain, and what a plain reading gives, up to contexts: definitions that the laws of reading,
//! of printing and of the whole way share.
#![tactic(auto)]

mod forms;
mod functions;
mod items;
mod literals;
mod plain;

pub use plain::is_plain;
