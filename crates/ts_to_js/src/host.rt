//! The program over the standard input and output of its process.
use crate::arguments::words;
use crate::program::{NO_MEMORY, run};
use devices::{StdSink, StdSource};
use std::process::ExitCode;

/// The program: [`run`] with the words after its name, from standard input to standard output, with
/// its refusals on standard error. It ends with the status of the run, or with `NO_MEMORY` where there
/// is none for the words.
pub fn command(rt: &HostRuntime) -> ExitCode {
    let Ok(words) = words(rt, rt.alloc()) else {
        return ExitCode::from(NO_MEMORY);
    };
    let mut source = StdSource::new(rt.stdin());
    let mut out = StdSink::new(rt.stdout());
    let mut err = StdSink::new(rt.stderr());
    let status = run(rt.alloc(), &words, &mut source, &mut out, &mut err);
    ExitCode::from(status)
}
