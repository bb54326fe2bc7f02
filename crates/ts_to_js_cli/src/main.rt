//! The program `ts_to_js`: it converts the module on standard input to one on standard output.
#![tactic(auto)]

use std::process::ExitCode;

fn main(rt: HostRuntime) -> ExitCode {
    ts_to_js::command(&rt)
}
