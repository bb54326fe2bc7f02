//! Converts the deepest modules that are read, and ones that are too deep by one level, so that a run
//! shows that the stack is enough for them.
#![tactic(auto)]

use std::alloc::{AllocError, Global};
use std::io;
use ts_to_js::{SliceSource, VecSink, run};

/// A module that nests: some text, repeated in front of its middle and behind it.
struct Nest {
    name: &'static str,
    opening: &'static str,
    middle: &'static str,
    closing: &'static str,
    times: usize,
}

const NESTS: [Nest; 10] = [
    Nest {
        name: "calls in arguments",
        opening: "f(",
        middle: "1",
        closing: ")",
        times: 255,
    },
    Nest {
        name: "one call more in arguments",
        opening: "f(",
        middle: "1",
        closing: ")",
        times: 256,
    },
    Nest {
        name: "calls of calls",
        opening: "",
        middle: "f",
        closing: "()",
        times: 509,
    },
    Nest {
        name: "one call of a call more",
        opening: "",
        middle: "f",
        closing: "()",
        times: 510,
    },
    Nest {
        name: "members of members",
        opening: "",
        middle: "a",
        closing: ".b",
        times: 510,
    },
    Nest {
        name: "one member of a member more",
        opening: "",
        middle: "a",
        closing: ".b",
        times: 511,
    },
    Nest {
        name: "parentheses in parentheses",
        opening: "(",
        middle: "1",
        closing: ")",
        times: 510,
    },
    Nest {
        name: "one parenthesis more",
        opening: "(",
        middle: "1",
        closing: ")",
        times: 511,
    },
    Nest {
        name: "types of types",
        opening: "",
        middle: "a",
        closing: " as T",
        times: 508,
    },
    Nest {
        name: "one type of a type more",
        opening: "",
        middle: "a",
        closing: " as T",
        times: 509,
    },
];

fn source(alloc: Global, nest: &Nest) -> Result<Vec<u8>, AllocError> {
    let mut text = Vec::new(alloc);
    for _ in 0..nest.times {
        text.extend_from_slice(nest.opening.as_bytes())?;
    }
    text.extend_from_slice(nest.middle.as_bytes())?;
    for _ in 0..nest.times {
        text.extend_from_slice(nest.closing.as_bytes())?;
    }
    Ok(text)
}

fn show(rt: &(impl Print + AllocGlobal), nest: &Nest) -> io::Result<()> {
    let alloc = rt.alloc();
    let mut source = SliceSource::new(source(alloc, nest)?);
    let mut out = VecSink::new(alloc);
    let mut err = VecSink::new(alloc);
    let status = run(alloc, &[], &mut source, &mut out, &mut err);
    println!(rt;
        "{}: status {status}, {} bytes, {} bytes of a refusal",
        nest.name,
        out.taken().len(),
        err.taken().len()
    )
}

fn main(rt: HostRuntime) -> io::Result<()> {
    for nest in &NESTS {
        show(&rt, nest)?;
    }
    Ok(())
}
