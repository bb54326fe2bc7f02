//! Reads modules from standard input, and writes the raw tree of each in one line, in which types hold nothing, or why it was refused.
//!
//! Modules stand apart by a line `=-=-=`. The first line of each says how it is read, `plain` or `typescript`, and how many levels
//! are allowed; what is behind that line is its text.
#![tactic(auto)]

mod case;
mod data;
mod notation;

use std::io::{self, BufWriter, Write};

const SEPARATOR: &str = "\n=-=-=\n";

fn main(rt: HostRuntime) -> io::Result<()> {
    let alloc = rt.alloc();
    let input = io::read_to_string(alloc, rt.reader())?;
    let mut out = BufWriter::new(alloc, io::writer(&rt))?;
    for case in input.split(SEPARATOR) {
        case::show(alloc, &mut out, case)?;
    }
    out.flush()
}
