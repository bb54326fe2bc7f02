//! The program `ts_to_js` once more, whose stored run has a word: it ends with the status 2, and standard output stays empty.
#![tactic(auto)]

use std::process::ExitCode;

fn main(rt: HostRuntime) -> ExitCode {
    ts_to_js::command(&rt)
}
