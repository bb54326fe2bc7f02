//! Texts whose trees are plain, and texts whose trees are not, by `ecma_plain`.
use ecma_plain::is_plain;
use ecma_text::{ReadError, read_module};
use ecma_tree::Node;
use std::alloc::Global;
use std::test::Fail;

// A function that may let go of a node is proved for every kind that it may have: so this one alone does.
fn let_go(_node: Node) {}

/// Whether the tree of a text is plain where assignment forms go, and where they stay.
fn told(alloc: Global, text: &str) -> Result<(bool, bool), ReadError> {
    if 1000 < text.len() {
        return Err(ReadError::TooDeep { at: 1000 });
    }
    let tree = read_module(alloc, text)?;
    let answer = (is_plain(&tree, false), is_plain(&tree, true));
    let_go(tree);
    Ok(answer)
}

/// node takes the first text as a module, and refuses the others, which TypeScript 4.8 takes.
const ROWS: [(&str, (bool, bool)); 6] = [
    ("let a = 1", (true, true)),
    ("let a: T", (false, false)),
    ("function f(): T", (false, false)),
    ("export = a", (false, true)),
    ("import a = require(\"m\")", (false, true)),
    ("import a = b.c", (false, false)),
];

#[test]
fn plain_trees_are_told(rt: HostRuntime) -> Result<(), Fail> {
    let alloc = rt.alloc();
    for (text, want) in ROWS {
        assert!(rt; told(alloc, text) == Ok(want));
    }
    Ok(())
}
