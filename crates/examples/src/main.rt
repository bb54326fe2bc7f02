//! Converts the modules of `data/` by the public call, and prints the name of each and what comes of it.
//!
//! The gate compares what is printed with `stdout`, so the examples are true as long as it passes.
#![tactic(auto)]

use ecma_config::Config;
use ecma_tree::Session;
use std::fs;
use std::io::{self, Write};
use std::rt::Files;
use ts_to_js::{Options, ts_to_js};

const NAMES: [&str; 4] = ["types.ts", "classes.ts", "names.ts", "modules.ts"];

/// Prints the name of a module, and the text that it is converted to, or why it is refused.
fn show<R: Files + Print + AllocGlobal>(rt: &R, name: &str) -> io::Result<()> {
    let source = fs::read(rt, name)?;
    println!(rt; "// {name}")?;
    let mut session = Session::new(u32::MAX);
    let options = Options {
        config: Config::default(),
    };
    match ts_to_js(rt.alloc(), &mut session, &source, &options) {
        Ok(text) => io::writer(rt).write_all(&text),
        Err(refusal) => println!(rt; "error: {refusal}"),
    }
}

fn main(rt: HostRuntime) -> io::Result<()> {
    for name in &NAMES {
        show(&rt, name)?;
    }
    Ok(())
}
