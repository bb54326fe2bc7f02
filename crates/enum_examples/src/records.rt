//! The members of all enums of a module, in the order of the text.
use crate::reading::told;
use std::test::Fail;

/// Modules, and the members of their enums but ambient ones, with their values. They are those of the checker of TypeScript 4.8.4 (`compare/enums.mjs`).
const RECORDS: [(&str, &str); 30] = [
    ("enum E { A } enum E { B = A, C }", "E.A=0 E.B=0 E.C=1"),
    (
        "enum E { A, B } enum F { X = E.B, Y } enum E { C = F.Y }",
        "E.A=0 E.B=1 F.X=1 F.Y=2 E.C=2",
    ),
    (
        "enum E { A = \"t\" } enum E { B } enum E { C = 5, D }",
        "E.A='t E.B=0 E.C=5 E.D=6",
    ),
    ("enum E { A, B } enum E { C }", "E.A=0 E.B=1 E.C=0"),
    (
        "enum E { A = 1 } enum F { A = E.A, B = A, C = E.B }",
        "E.A=1 F.A=1 F.B=1 F.C=opaque",
    ),
    ("enum E { \"a-b\" = 3, C = E[\"a-b\"] }", "E.a-b=3 E.C=3"),
    (
        "const enum E { A = 1, B = A << 2 } const enum E { C = B }",
        "E.A=1 E.B=4 E.C=4",
    ),
    (
        "export enum E { A } export const enum F { B = E.A } export default function () { enum G { C = F.B } }",
        "E.A=0 F.B=0 G.C=0",
    ),
    (
        "function f() { enum E { A = 4 } { enum F { X = E.A } } } enum E { A = F.X }",
        "E.A=4 F.X=4 E.A=opaque",
    ),
    (
        "function f() { enum E { A = 1 } enum F { B = E.A } } function g() { enum E { A = 2 } enum F { B = E.A } }",
        "E.A=1 F.B=1 E.A=2 F.B=2",
    ),
    (
        "enum E { A = 1 } function f(E) { enum F { B = E.A } }",
        "E.A=1 F.B=opaque",
    ),
    (
        "enum E { A = 1 } { enum E { B = 2, C = E.A } }",
        "E.A=1 E.B=2 E.C=opaque",
    ),
    (
        "{ enum E { A = 1 } } enum F { B = E.A }",
        "E.A=1 F.B=opaque",
    ),
    (
        "for (const x of xs) { enum E { A = 1 } enum E { B = E.A } }",
        "E.A=1 E.B=1",
    ),
    (
        "l: { enum E { A = 1 } } if (x) { enum E { A = 2 } } else { enum E { A = 3 } }",
        "E.A=1 E.A=2 E.A=3",
    ),
    (
        "switch (1) { case 1: enum E { A } } try { enum F { B = 1 } } catch { enum F { B = 2 } } finally { enum G { C = F.B } }",
        "E.A=0 F.B=1 F.B=2 G.C=opaque",
    ),
    (
        "class C { m() { enum E { A = 1 } enum F { B = E.A << 1 } } static x = () => { enum G { D = \"d\" } } }",
        "E.A=1 F.B=2 G.D='d",
    ),
    (
        "enum E { A = 1 } class C { x = () => { enum F { B = E.A } }; static { enum F { B = E[`A`] } } }",
        "E.A=1 F.B=1 F.B=1",
    ),
    (
        "const o = { m() { enum E { A = 1 } }, get g() { enum E { A = 2 } return 1; } }",
        "E.A=1 E.A=2",
    ),
    (
        "enum E { A = 2, B = f(() => { enum F { X = E.A } }), C }",
        "E.A=2 E.B=opaque F.X=2 E.C=void",
    ),
    (
        "enum E { A = f(() => { enum F { X, Y } return F.X; }), B, C = 3 }",
        "E.A=opaque F.X=0 F.Y=1 E.B=void E.C=3",
    ),
    (
        "enum E { A = 1, B = f(() => { enum F { X = A } }) }",
        "E.A=1 E.B=opaque F.X=opaque",
    ),
    (
        "enum E { A = f(class { m() { enum F { X } } }), B = 7, C }",
        "E.A=opaque F.X=0 E.B=7 E.C=8",
    ),
    (
        "namespace N { export enum E { A = 2 } enum F { B = E.A } }",
        "E.A=2 F.B=2",
    ),
    (
        "namespace A.B { export enum E { X = 1 } enum F { Y = E.X } }",
        "E.X=1 F.Y=1",
    ),
    (
        "namespace N { enum E { A = 1 } } namespace N { enum E { B = 2, C = E.A } }",
        "E.A=1 E.B=2 E.C=opaque",
    ),
    (
        "namespace N { function f() { enum E { A } } namespace M { enum F { B } } }",
        "E.A=0 F.B=0",
    ),
    (
        "declare namespace N { enum G { C } namespace M { enum H { D } } } enum E { A = 1 }",
        "E.A=1",
    ),
    (
        "namespace O { declare enum P { Q } enum R { S } declare namespace M { enum H { D = 0.5 } } }",
        "R.S=0",
    ),
    (
        "enum E { A = 1 } type T = E.A; let x: typeof E.A; interface I { a: E.A }",
        "E.A=1",
    ),
];

/// Modules of which the checker tells other values: its own stand last. Of a member that is there twice it takes the first; a member of a function inside an
/// initialiser reads those that stand behind it; a namespace goes before the name, the block of a namespace before this one declares it, or another name
/// stands for the enum; a member that stands behind has 0, with an error; a number is a double; ambient enums have values.
const OTHER: [(&str, &str, &str); 12] = [
    (
        "enum E { A = 1, A = 2, B = A }",
        "E.A=1 E.A=2 E.B=2",
        "E.A=1 E.A=2 E.B=1",
    ),
    (
        "enum E { A = f(() => { enum F { X = E.Z } }), B, Z = 3 }",
        "E.A=opaque F.X=opaque E.B=void E.Z=3",
        "E.A=opaque F.X=3 E.B=void E.Z=3",
    ),
    (
        "namespace N { export enum E { A = 2 } } enum G { C = N.E.A }",
        "E.A=2 G.C=opaque",
        "E.A=2 G.C=2",
    ),
    (
        "namespace N { export enum E { A = 1 } } namespace N { enum F { B = E.A } }",
        "E.A=1 F.B=opaque",
        "E.A=1 F.B=1",
    ),
    (
        "import A = E; enum E { X = 1 } enum F { B = A.X }",
        "E.X=1 F.B=opaque",
        "E.X=1 F.B=1",
    ),
    (
        "enum E { X = 1 } const A = E; enum F { B = A.X }",
        "E.X=1 F.B=opaque",
        "E.X=1 F.B=1",
    ),
    (
        "enum F { B = E.A } enum E { A = 1 }",
        "F.B=opaque E.A=1",
        "F.B=0 E.A=1",
    ),
    (
        "declare enum E { A = 1 } enum F { B = E.A }",
        "F.B=opaque",
        "F.B=1",
    ),
    (
        "enum E { A = f(() => { enum F { X = 0.5 } }) + 0.25 }",
        "beyond 36",
        "E.A=opaque F.X=0.5",
    ),
    (
        "enum E { A = 0.25 + f(() => { enum F { X = 0.5 } }) }",
        "beyond 13",
        "E.A=opaque F.X=0.5",
    ),
    (
        "function f() { enum E { A = 9007199254740991, B } } enum F { A = 0.5 }",
        "beyond 46",
        "E.A=9007199254740991 E.B=9007199254740992 F.A=0.5",
    ),
    (
        "enum E { A = 9007199254740991, B, C = f(() => { enum F { X = 0.5 } }) }",
        "beyond 31",
        "E.A=9007199254740991 E.B=9007199254740992 E.C=opaque F.X=0.5",
    ),
];

#[test]
fn enums_are_recorded(rt: HostRuntime) -> Result<(), Fail> {
    let alloc = rt.alloc();
    for (text, want) in RECORDS {
        let found = told(alloc, true, text)?;
        assert_eq!(rt; found.as_str().trim(), want, "{text}");
    }
    for (text, want, _) in OTHER {
        let found = told(alloc, true, text)?;
        assert_eq!(rt; found.as_str().trim(), want, "{text}");
    }
    Ok(())
}
