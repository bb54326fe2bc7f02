//! The values of the members of enums, and what they are written as. The values are those of TypeScript 4.8.4, or of node where TypeScript leaves an
//! initialiser as it stands.
use crate::reading::{members, told};
use ecma_print::print_module;
use ecma_tree::{DUMMY_SP, Expr, NoMemory, Node, Nodes};
use std::alloc::Global;
use std::test::Fail;

/// Enums, and the values of their members: a text behind `'`, `void` behind what is no number, `opaque` for what is not known before it runs; or where the
/// first number is that is beyond those that are computed.
const VALUES: [(&str, &str); 72] = [
    ("enum E { A = 1 << 3 }", "8"),
    ("enum E { A = -0 }", "-0"),
    ("enum E { A = -7 % 4 }", "-3"),
    ("enum E { A = 2 ** 10 }", "1024"),
    ("enum E { A = 7 / 0 }", "Infinity"),
    ("enum E { A = -7 / 0 }", "-Infinity"),
    ("enum E { A = 0 / 0 }", "NaN"),
    ("enum E { A = 6 / 3 }", "2"),
    ("enum E { A = 5 & 3 }", "1"),
    ("enum E { A = 5 | 3 }", "7"),
    ("enum E { A = 5 ^ 3 }", "6"),
    ("enum E { A = 3 * -4 }", "-12"),
    ("enum E { A = 1 - 2 }", "-1"),
    ("enum E { A = -1 >>> 0 }", "4294967295"),
    ("enum E { A = -8 >> 1 }", "-4"),
    ("enum E { A = 1 << -1 }", "-2147483648"),
    ("enum E { A = ~5 }", "-6"),
    ("enum E { A = +3 }", "3"),
    ("enum E { A = NaN }", "NaN"),
    ("enum E { A = -Infinity }", "-Infinity"),
    ("let NaN = 1; enum E { A = NaN }", "opaque"),
    ("enum E { A = \"t\" }", "'t"),
    ("enum E { A = `t` }", "'t"),
    ("enum E { A = \"a\" + \"b\" }", "'ab"),
    ("enum E { A = \"a\" + 1 }", "'a1"),
    ("enum E { A = 1 + \"a\" }", "'1a"),
    ("enum E { A = `x${-0}y` }", "'x0y"),
    ("enum E { A = `x${\"s\"}y` }", "'xsy"),
    ("enum E { A = \"a\" - 1 }", "opaque"),
    ("enum E { A = +\"1\" }", "opaque"),
    ("enum E { A = -\"1\" }", "opaque"),
    ("enum E { A = !0 }", "opaque"),
    ("enum E { A = 1 < 2 }", "opaque"),
    ("enum E { A = f(1) }", "opaque"),
    ("enum E { A = `x${f(1)}y` }", "opaque"),
    ("enum E { A = (1) }", "1"),
    ("enum E { A = (1 as any) + 1 }", "2"),
    ("enum E { A = 1, B = A }", "1 1"),
    ("enum E { A = 1, B = E.A + 1 }", "1 2"),
    ("enum E { A = 1, B = E[\"A\"] + 1 }", "1 2"),
    ("enum E { A = 1, B = E[`A`] + 1 }", "1 2"),
    ("enum E { A = 1, B = (E).A }", "1 opaque"),
    ("enum E { A = 1, B = E!.A }", "1 1"),
    ("enum E { A = \"t\", B }", "'t void"),
    ("enum E { A = f(1), B, C }", "opaque void void"),
    ("enum E { A, B, C = 7, D }", "0 1 7 8"),
    ("enum E { A, B = 4, C }", "0 4 5"),
    ("enum E { A = -1, B, C }", "-1 0 1"),
    (
        "enum E { A = -0, B = \"t\", C, D = 1 / A }",
        "-0 't void -Infinity",
    ),
    ("enum E { E, B = E }", "0 0"),
    ("enum E { E = 1, B = E.E }", "1 opaque"),
    ("enum E { A = B, B = 1 }", "opaque 1"),
    ("enum E { A = \"t\", B = A + A }", "'t 'tt"),
    ("enum F { X = 4 } enum E { A = F.X }", "4 4"),
    ("enum E { A = 4 } enum E { C = A, D = E.A + 1 }", "4 4 5"),
    ("declare enum F { Y = 1 } enum E { A = F.Y }", "opaque"),
    ("declare enum E { A = 0.5, B }", ""),
    ("enum E { A = 9007199254740991, B }", "beyond 31"),
    ("enum E { A = 9007199254740991 }", "9007199254740991"),
    ("enum E { A = 9007199254740992 }", "beyond 13"),
    ("enum E { A = 0.5 }", "beyond 13"),
    ("enum E { A = f(0.5) }", "opaque"),
    ("enum E { A = E[0.5] }", "opaque"),
    ("enum E { A = !0.5 }", "opaque"),
    ("enum E { A = 0.5 < 1 }", "opaque"),
    ("enum E { A = f(1) + 0.5 }", "beyond 20"),
    ("enum E { A = 0.5 + 1.5 }", "beyond 13"),
    ("enum E { A = `x${(f(1) + 0.5)}y` }", "beyond 25"),
    ("enum E { A = 2 ** 53 }", "beyond 13"),
    ("enum E { A = 1 + (2 ** 53) }", "beyond 18"),
    ("enum E { A = 1 / 3 }", "beyond 13"),
    ("enum E { A = 2 ** -1 }", "beyond 13"),
];

#[test]
fn members_have_their_values(rt: HostRuntime) -> Result<(), Fail> {
    let alloc = rt.alloc();
    for (text, want) in VALUES {
        let found = told(alloc, false, text)?;
        assert_eq!(rt; found.as_str().trim(), want, "{text}");
    }
    Ok(())
}

fn printed(alloc: Global, expr: Expr) -> Result<Vec<u8>, NoMemory> {
    let stmt = Node::expr_stmt(alloc, DUMMY_SP, expr)?;
    let module = Node::module(alloc, DUMMY_SP, None, Nodes::from_array(alloc, [stmt])?)?;
    print_module(alloc, &module)
}

/// What the last value is written as.
fn written(alloc: Global, text: &str) -> Option<Vec<u8>> {
    let mut members = members(alloc, text).ok()?;
    let expr = members.pop()?.value.into_expr(alloc).ok()??;
    printed(alloc, expr).ok()
}

/// Enums, and what the value of the last member is written as.
const WRITTEN: [(&str, &str); 8] = [
    ("enum E { A = 1 << 3 }", "8;\n"),
    ("enum E { A = 1 - 8 }", "-7;\n"),
    ("enum E { A = -0 }", "-0;\n"),
    ("enum E { A = 0 * -1 }", "-0;\n"),
    ("enum E { A = NaN }", "0 / 0;\n"),
    ("enum E { A = Infinity }", "1 / 0;\n"),
    ("enum E { A = -7 / 0 }", "-1 / 0;\n"),
    ("enum E { A = \"a\" + \"b\" }", "\"ab\";\n"),
];

#[test]
fn values_are_written(rt: HostRuntime) -> Result<(), Fail> {
    for (text, want) in WRITTEN {
        match written(rt.alloc(), text) {
            Some(found) => assert_eq!(rt; found.as_slice(), want.as_bytes(), "{text}"),
            None => assert_eq!(rt; text, "an enum"),
        }
    }
    Ok(())
}
