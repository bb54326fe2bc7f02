//! A module to be read, and the answer.
use crate::notation::show_node;
use ecma_grammar::{Mode, RawError};
use ecma_reader::read_raw;
use ecma_rules::bare_types;
use std::alloc::Global;
use std::io::{self, Write};

/// A module and how it is to be read.
#[derive(Drop)]
struct Case<'a> {
    mode: Mode,
    levels: usize,
    text: &'a str,
}

/// The longest text that is read, so that its places are no larger than a `u32`.
const MOST: usize = 0xffff_ffff;

/// The parts of a case: a line that says how it is read, and the text.
fn parts(case: &str) -> Option<Case<'_>> {
    let (heading, text) = case.split_once('\n')?;
    let (word, levels) = heading.split_once(' ')?;
    let typescript = match word {
        "plain" => false,
        "typescript" => true,
        _ => return None,
    };
    let mode = Mode {
        typescript,
        assignments: typescript,
    };
    let levels = levels.parse::<usize>().ok()?;
    Some(Case { mode, levels, text })
}

/// Writes one line: the tree of a module, in which types hold nothing, or why there is none.
pub fn show<W: Write>(alloc: Global, out: &mut W, case: &str) -> io::Result<()> {
    let Some(case) = parts(case) else {
        return writeln!(out, "no case");
    };
    if MOST < case.text.len() {
        return writeln!(out, "too long");
    }
    match read_raw(alloc, case.text, case.mode, case.levels) {
        Ok(raw) => {
            let mut module = raw;
            bare_types(alloc, &mut module);
            show_node(out, &module)?;
            writeln!(out)
        }
        Err(RawError::TooDeep { at }) => writeln!(out, "TooDeep at {at}"),
        Err(RawError::Syntax { at }) => writeln!(out, "Syntax at {at}"),
        Err(RawError::NoMemory) => writeln!(out, "NoMemory"),
    }
}
