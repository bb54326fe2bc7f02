//! The program `relayout`: it writes the plain module on standard input in this project's layout to standard output.
#![tactic(auto)]

mod convert;
mod program;

use devices::{StdSink, StdSource};
use std::process::ExitCode;

fn main(rt: HostRuntime) -> ExitCode {
    let mut source = StdSource::new(rt.stdin());
    let mut out = StdSink::new(rt.stdout());
    let mut err = StdSink::new(rt.stderr());
    let status = program::run(rt.alloc(), &mut source, &mut out, &mut err);
    ExitCode::from(status)
}
