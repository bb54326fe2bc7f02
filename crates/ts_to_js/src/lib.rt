//! Converts TypeScript modules to JavaScript modules.
#![tactic(auto)]

mod arguments;
mod convert;
mod drawing;
mod error;
mod host;
mod options;
mod program;
mod report;

pub use arguments::words;
pub use convert::{LIMIT, decoded, ts_to_js};
pub use devices::{
    Failed, MemSink, MemSource, Sink, SinkError, SliceSource, Source, StdSink, StdSource, VecSink,
};
pub use error::TsError;
pub use host::command;
pub use options::Options;
pub use program::{
    BAD_WORD, DONE, NO_MEMORY, READ_FAULT, REFUSED, WRITE_FAULT, no_run_is_spent, run, tell,
};
