//! Reads of members that are known.
use crate::reading::{let_go, members_of, push_value, tree_of};
use ecma_enums::{EnumError, TsEnumRecordValue, known_read};
use ecma_tree::{Expr, Kind, Module};
use std::alloc::Global;
use std::test::Fail;

/// The expression of the last statement.
fn last_expr(tree: &Module) -> Option<&Expr> {
    let items = tree.children.get(0)?;
    let last = items.children.as_slice().last()?;
    match last.kind {
        Kind::ExprStmt => last.children.get(0),
        _ => None,
    }
}

fn read_in(
    alloc: Global,
    tree: &mut Module,
    may_change: bool,
) -> Result<Option<TsEnumRecordValue>, EnumError> {
    let members = members_of(alloc, tree)?;
    match last_expr(tree) {
        Some(expr) => Ok(known_read(&members, may_change, expr)?),
        None => Ok(None),
    }
}

/// What the last statement of a text reads.
fn read(
    alloc: Global,
    text: &str,
    may_change: bool,
) -> Result<Option<TsEnumRecordValue>, EnumError> {
    match tree_of(alloc, text) {
        Some(mut tree) => {
            let found = read_in(alloc, &mut tree, may_change);
            let_go(tree);
            found
        }
        None => Err(EnumError::NoMemory),
    }
}

fn told(alloc: Global, text: &str, may_change: bool) -> Result<String, Fail> {
    let mut out = String::new(alloc);
    match read(alloc, text, may_change) {
        Ok(Some(value)) => push_value(alloc, &mut out, &value)?,
        Ok(None) => out.push_str("none")?,
        Err(_) => return Err(Fail::from("no memory")),
    }
    Ok(out)
}

/// Modules; what their last statement reads where enums do not change, and where they may. The first is the value that the checker of TypeScript 4.8.4 gives
/// the member that is read, the second what it writes in the place of the read (`compare/enums.mjs`).
const READS: [(&str, &str, &str); 23] = [
    ("enum E { A = 1 } E.A", "1", "none"),
    ("const enum E { A = 1 } E.A", "1", "1"),
    ("const enum E { A = 1 } E[\"A\"]", "1", "1"),
    ("const enum E { A = 1 } E[`A`]", "1", "1"),
    ("const enum E { A, B, C = B << 2 } E.C", "4", "4"),
    ("const enum E { A = \"t\" } E.A", "'t", "'t"),
    ("const enum E { A = -1 } E.A", "-1", "-1"),
    ("const enum E { \"a-b\" = 2 } E[\"a-b\"]", "2", "2"),
    (
        "const enum E { A = 1 } const enum E { B = A + 1 } E.B",
        "2",
        "2",
    ),
    ("enum E { A = 1 } enum E { B = A + 1 } E.B", "2", "none"),
    ("enum E { A = f(1) } E.A", "none", "none"),
    ("enum E { A = \"t\", B } E.B", "none", "none"),
    ("const enum E { A = 1 } E.B", "none", "none"),
    ("const enum E { A = 1 } E", "none", "none"),
    ("const enum E { A = 1 } A", "none", "none"),
    ("const enum E { A = 1 } E[E.A]", "none", "none"),
    ("const enum E { A = 1 } E[\"A\" + \"\"]", "none", "none"),
    ("const enum E { A = 1 } E[(\"A\")]", "none", "none"),
    ("const enum E { A = 1 } E.A.B", "none", "none"),
    ("{ const enum E { A = 1 } } E.A", "none", "none"),
    ("const enum E { A = 1 } f(E.A)", "none", "none"),
    ("const enum E { A = 1 } E.A = 2", "none", "none"),
    ("const o = { A: 1 }; o.A", "none", "none"),
];

/// Modules of which the checker tells otherwise: its own answers stand last. It looks through parentheses round an enum's name and through its other names, and
/// not through types round the name of a member; a link of an optional chain is a read; ambient enums have values.
const OTHER: [(&str, &str, &str, &str, &str); 7] = [
    ("const enum E { A = 1 } (E).A", "none", "none", "1", "1"),
    ("const enum E { A = 1 } E?.A", "none", "none", "1", "1"),
    ("const enum E { A = 1 } E!.A", "1", "1", "1", "1"),
    (
        "const enum E { A = 1 } E[\"A\" as \"A\"]",
        "1",
        "1",
        "none",
        "none",
    ),
    (
        "declare const enum E { A = 1 } E.A",
        "none",
        "none",
        "1",
        "1",
    ),
    (
        "namespace N { export const enum E { A = 1 } } N.E.A",
        "none",
        "none",
        "1",
        "1",
    ),
    (
        "import F = E; const enum E { A = 1 } F.A",
        "none",
        "none",
        "1",
        "1",
    ),
];

#[test]
fn reads_are_known(rt: HostRuntime) -> Result<(), Fail> {
    let alloc = rt.alloc();
    for (text, lasting, changing) in READS {
        assert_eq!(rt; told(alloc, text, false)?.as_str(), lasting, "{text}");
        assert_eq!(rt; told(alloc, text, true)?.as_str(), changing, "{text}");
    }
    Ok(())
}

#[test]
fn reads_are_told_otherwise(rt: HostRuntime) -> Result<(), Fail> {
    let alloc = rt.alloc();
    for (text, lasting, changing, _, _) in OTHER {
        assert_eq!(rt; told(alloc, text, false)?.as_str(), lasting, "{text}");
        assert_eq!(rt; told(alloc, text, true)?.as_str(), changing, "{text}");
    }
    Ok(())
}
