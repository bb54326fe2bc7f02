//! The outside of a program that turns bytes into bytes: where they come from, and where they go.
//!
//! [`Source`] and [`Sink`] say what a device means: the bytes that it has left or has taken, where it
//! tells them, how often it has failed, and how often it was called. Code over them is proved once for
//! every device.
#![tactic(auto)]

mod memory_sinks;
mod memory_sources;
mod sink;
mod source;
mod standard;
mod transfer;
mod unread;

pub use memory_sinks::{MemSink, VecSink};
pub use memory_sources::{MemSource, SliceSource};
pub use sink::{Sink, SinkError};
pub use source::{Failed, Source};
pub use standard::{StdSink, StdSource};
pub use transfer::{ReadFault, read_up_to, write_all};

#[cfg(test)]
mod tests;
