//! Reads modules from standard input, and writes what the finders find in each, a line for each finder.
//!
//! Modules stand apart by a line `=-=-=`.
#![tactic(auto)]

mod case;

use std::io::{self, BufWriter, Write};

const SEPARATOR: &str = "\n=-=-=\n";

fn main(rt: HostRuntime) -> io::Result<()> {
    let alloc = rt.alloc();
    let input = io::read_to_string(alloc, rt.reader())?;
    let mut out = BufWriter::new(alloc, io::writer(&rt))?;
    for text in input.split(SEPARATOR) {
        case::show(alloc, &mut out, text)?;
    }
    out.flush()
}
