//! Small texts, read as TypeScript and as plain modules: what comes of them, and where they fail.
use ecma_grammar::{Mode, RawError};
use ecma_reader::read_raw;
use ecma_text::*;
use ecma_tree::{Node, Sort, has_sort};
use std::alloc::Global;
use std::test::Fail;

// A function that may let go of a node is proved for every kind that it may have: so this one alone does.
fn let_go(_node: Node) {}

/// How many nodes a tree has.
fn count(node: &Node) -> usize {
    let mut all = 1usize;
    for child in node.children.as_slice() {
        all = all.saturating_add(count(child));
    }
    all
}

/// How many nodes the raw tree of a text has, or why it was not read.
fn counted(alloc: Global, text: &str, typescript: bool) -> Result<usize, RawError> {
    let mode = Mode {
        typescript,
        assignments: typescript,
    };
    if 2000 < text.len() {
        return Err(RawError::TooDeep { at: 2000 });
    }
    let module = read_raw(alloc, text, mode, 512)?;
    let nodes = count(&module);
    let_go(module);
    Ok(nodes)
}

/// The numbers of nodes are counted by hand, by the children that the tables of docs/TREE.md name.
#[test]
fn texts_are_read(rt: HostRuntime) -> Result<(), Fail> {
    let alloc = rt.alloc();
    assert_eq!(rt; counted(alloc, "a.b(c)", false), Ok(10));
    assert_eq!(rt; counted(alloc, "a + b * c", false), Ok(8));
    assert_eq!(rt; counted(alloc, "let x: number = 1", true), Ok(10));
    let at_colon = Err(RawError::Syntax { at: 5 });
    assert_eq!(rt; counted(alloc, "let x: number = 1", false), at_colon);
    let at_value = Err(RawError::Syntax { at: 16 });
    assert_eq!(rt; counted(alloc, "let x: number = ;", true), at_value);
    Ok(())
}

/// What nests is tried as something else at each level: a parenthesis as an arrow function, a key in brackets as that of a method. The numbers of nodes are
/// counted by hand: three for each level of the first text, and five for each of the second.
#[test]
fn nested_texts_are_read(rt: HostRuntime) -> Result<(), Fail> {
    let alloc = rt.alloc();
    let opened = "(a = ".repeat(alloc, 200)?;
    let closed = ")".repeat(alloc, 200)?;
    let tried = format!(in alloc; "{opened}1{closed}")?;
    assert_eq!(rt; counted(alloc, tried.as_str(), true), Ok(604));
    let opened = "{[".repeat(alloc, 150)?;
    let closed = "]: 0}".repeat(alloc, 150)?;
    let keys = format!(in alloc; "x = {opened}1{closed}")?;
    assert_eq!(rt; counted(alloc, keys.as_str(), true), Ok(756));
    assert_eq!(rt; counted(alloc, keys.as_str(), false), Ok(756));
    Ok(())
}

/// What became of a text: whether the tree is of its sort, or why there is none.
fn told(reading: Result<Node, ReadError>) -> Result<bool, ReadError> {
    let tree = reading?;
    let is_module = has_sort(&tree, Sort::Module);
    let_go(tree);
    Ok(is_module)
}

/// A text, what it is as a TypeScript module, and what it is as a plain one.
#[derive(Drop)]
struct Row {
    text: &'static str,
    typescript: Result<bool, ReadError>,
    plain: Result<bool, ReadError>,
}

/// node refuses three of the first four as plain modules at these places, and tsc tells the rest element at the same one. tsc takes the third,
/// and refuses the fourth too, but tells it at its start. It refuses the next two for a parameter `this`, which it tells; here the setter
/// and the arrow function are told. It refuses the others too: the two types for the parameter that is told here, the getter for its name, the two
/// members for the `{` that lacks; and it reads the last but one as a member of `super`, and refuses what stands behind `a`, as node does.
const ROWS: [Row; 13] = [
    Row {
        text: "[a, ...b] = f`x`;",
        typescript: Ok(true),
        plain: Ok(true),
    },
    Row {
        text: "[...a, b] = c;",
        typescript: Err(ReadError::Syntax { at: 1 }),
        plain: Err(ReadError::Syntax { at: 1 }),
    },
    Row {
        text: "let a: T;",
        typescript: Ok(true),
        plain: Err(ReadError::Syntax { at: 5 }),
    },
    Row {
        text: "class {}",
        typescript: Err(ReadError::Syntax { at: 6 }),
        plain: Err(ReadError::Syntax { at: 6 }),
    },
    Row {
        text: "class A { set a(this: B, this: C) {} }",
        typescript: Err(ReadError::Syntax { at: 10 }),
        plain: Err(ReadError::Syntax { at: 16 }),
    },
    Row {
        text: "f((a, this: B) => {})",
        typescript: Err(ReadError::Syntax { at: 2 }),
        plain: Err(ReadError::Syntax { at: 10 }),
    },
    Row {
        text: "let a: (public b) => c",
        typescript: Err(ReadError::Syntax { at: 8 }),
        plain: Err(ReadError::Syntax { at: 5 }),
    },
    Row {
        text: "let a: (...b, c) => d",
        typescript: Err(ReadError::Syntax { at: 8 }),
        plain: Err(ReadError::Syntax { at: 5 }),
    },
    Row {
        text: "let a: { get b(c) }",
        typescript: Err(ReadError::Syntax { at: 9 }),
        plain: Err(ReadError::Syntax { at: 5 }),
    },
    Row {
        text: "({ get a() })",
        typescript: Err(ReadError::Syntax { at: 3 }),
        plain: Err(ReadError::Syntax { at: 11 }),
    },
    Row {
        text: "({ a() })",
        typescript: Err(ReadError::Syntax { at: 3 }),
        plain: Err(ReadError::Syntax { at: 7 }),
    },
    Row {
        text: "class A extends B { x = super\n[a: string]: T }",
        typescript: Err(ReadError::Syntax { at: 24 }),
        plain: Err(ReadError::Syntax { at: 32 }),
    },
    Row {
        text: "throw\na",
        typescript: Err(ReadError::Syntax { at: 6 }),
        plain: Err(ReadError::Syntax { at: 6 }),
    },
];

fn is_as_told(alloc: Global, row: &Row) -> bool {
    if 1000 < row.text.len() {
        return false;
    }
    told(read_module(alloc, row.text)) == row.typescript
        && told(read_plain(alloc, row.text, false)) == row.plain
}

#[test]
fn modules_are_read(rt: HostRuntime) -> Result<(), Fail> {
    let alloc = rt.alloc();
    for row in ROWS {
        assert!(rt; is_as_told(alloc, &row));
    }
    Ok(())
}

#[test]
fn errors_say_why(rt: HostRuntime) -> Result<(), Fail> {
    let alloc = rt.alloc();
    let rows = [
        (ReadError::TooDeep { at: 511 }, "too deep at 511"),
        (ReadError::Syntax { at: 12 }, "syntax error at 12"),
        (ReadError::NoMemory, "out of memory"),
    ];
    for (error, want) in rows {
        assert_eq!(rt; format!(in alloc; "{error}")?.as_str(), want);
    }
    Ok(())
}
