//! Enums as they are written, by `ecma_lower_enums`, and then their types go, by `ecma_strip`.
use With::{Mutable, Nothing, Verbatim};
use ecma_enums::EnumError;
use ecma_lower_enums::lower_enums;
use ecma_print::print_module;
use ecma_scope::resolve;
use ecma_strip::strip_type;
use ecma_text::read_module;
use ecma_tree::{Mark, Module, NoMemory, PassError, Session};
use std::alloc::Global;
use std::test::Fail;

/// The one option that is not the default.
#[derive(Clone, Copy, Debug)]
enum With {
    Nothing,
    Mutable,
    Verbatim,
}

// A function that may let go of a node is proved for every kind that it may have: so this one alone does.
fn let_go(_tree: Module) {}

fn resolve_alone(alloc: Global, tree: &mut Module) -> Result<Mark, PassError> {
    let mut session = Session::new(1000);
    let unresolved = session.fresh_mark()?;
    let top = session.fresh_mark()?;
    resolve(alloc, &mut session, tree, unresolved, top)?;
    Ok(unresolved)
}

fn lower(alloc: Global, with: With, tree: &mut Module) -> Result<(), EnumError> {
    match resolve_alone(alloc, tree) {
        Ok(free) => lower_enums(
            alloc,
            free,
            matches!(with, Mutable),
            matches!(with, Verbatim),
            tree,
        ),
        Err(_) => Err(EnumError::NoMemory),
    }
}

fn shown(alloc: Global, tree: &mut Module) -> Result<Vec<u8>, NoMemory> {
    strip_type().visit_mut_module(alloc, tree)?;
    print_module(alloc, tree)
}

/// The text that is written of a text, or why none is.
fn written(alloc: Global, with: With, text: &str) -> Result<Vec<u8>, EnumError> {
    if 1000 < text.len() {
        return Err(EnumError::NoMemory);
    }
    let Ok(mut tree) = read_module(alloc, text) else {
        return Err(EnumError::NoMemory);
    };
    let done = lower(alloc, with, &mut tree);
    let text = shown(alloc, &mut tree);
    let_go(tree);
    done?;
    Ok(text?)
}

/// Modules, and what is written of them: as TypeScript 4.8 writes them, but for `-0`, for `0 / 0`, `1 / 0` and `-1 / 0`, which it writes as names, and for `const` enums,
/// of which it writes nothing; it reads members of `const` enums alone.
const WRITTEN: [(With, &str, &str); 36] = [
    (
        Nothing,
        "enum E { A, B = 4, C }",
        "var E;\n(function(E) {\n    E[E[\"A\"] = 0] = \"A\";\n    E[E[\"B\"] = 4] = \"B\";\n    E[E[\"C\"] = 5] = \"C\";\n})(E || (E = {}));\n",
    ),
    (Nothing, "const enum E { A = 1 } f(E.A);", "var E;\nf(1);\n"),
    (
        Nothing,
        "const enum E { A = 1 } if (x) var b = E.A;",
        "var E;\nif (x) var b = 1;\n",
    ),
    (
        Nothing,
        "enum E { A = -0, B = \"t\", C, D = 1 / A }",
        "var E;\n(function(E) {\n    E[E[\"A\"] = -0] = \"A\";\n    E[\"B\"] = \"t\";\n    E[E[\"C\"] = void 0] = \"C\";\n    E[E[\"D\"] = -1 / 0] = \"D\";\n})(E || (E = {}));\n",
    ),
    (
        Nothing,
        "enum E { A } function g(E) { return E.A } g(o);",
        "var E;\n(function(E) {\n    E[E[\"A\"] = 0] = \"A\";\n})(E || (E = {}));\nfunction g(E) {\n    return E.A;\n}\ng(o);\n",
    ),
    (
        Nothing,
        "enum E { A = 1 } for (E.A of xs) f(E.A);",
        "var E;\n(function(E) {\n    E[E[\"A\"] = 1] = \"A\";\n})(E || (E = {}));\nfor (E.A of xs) f(1);\n",
    ),
    (
        Mutable,
        "enum E { A = 1 } for (E.A of xs) f(E.A);",
        "var E;\n(function(E) {\n    E[E[\"A\"] = 1] = \"A\";\n})(E || (E = {}));\nfor (E.A of xs) f(E.A);\n",
    ),
    (Mutable, "const enum E { A = 1 } f(E.A);", "var E;\nf(1);\n"),
    (
        Nothing,
        "export enum Role { Guest, Member = 4, Admin } f(Role[Role.Member]);",
        "export var Role;\n(function(Role) {\n    Role[Role[\"Guest\"] = 0] = \"Guest\";\n    Role[Role[\"Member\"] = 4] = \"Member\";\n    Role[Role[\"Admin\"] = 5] = \"Admin\";\n})(Role || (Role = {}));\nf(Role[4]);\n",
    ),
    (
        Nothing,
        "enum E { A } enum E { B = 5 }",
        "var E;\n(function(E) {\n    E[E[\"A\"] = 0] = \"A\";\n})(E || (E = {}));\n(function(E) {\n    E[E[\"B\"] = 5] = \"B\";\n})(E || (E = {}));\n",
    ),
    (
        Nothing,
        "export enum E { A } export enum E { B = 5 }",
        "export var E;\n(function(E) {\n    E[E[\"A\"] = 0] = \"A\";\n})(E || (E = {}));\n(function(E) {\n    E[E[\"B\"] = 5] = \"B\";\n})(E || (E = {}));\n",
    ),
    (
        Nothing,
        "function E() {} enum E { A }",
        "function E() {}\n(function(E) {\n    E[E[\"A\"] = 0] = \"A\";\n})(E || (E = {}));\n",
    ),
    (
        Nothing,
        "export default class E {} enum E { A }",
        "export default class E {}\n(function(E) {\n    E[E[\"A\"] = 0] = \"A\";\n})(E || (E = {}));\n",
    ),
    (
        Nothing,
        "declare function E(): void; enum E { A }",
        "var E;\n(function(E) {\n    E[E[\"A\"] = 0] = \"A\";\n})(E || (E = {}));\n",
    ),
    (
        Nothing,
        "{ enum E { A } }",
        "{\n    let E;\n    (function(E) {\n        E[E[\"A\"] = 0] = \"A\";\n    })(E || (E = {}));\n}\n",
    ),
    (
        Nothing,
        "function f() { enum E { A } return E.A }",
        "function f() {\n    let E;\n    (function(E) {\n        E[E[\"A\"] = 0] = \"A\";\n    })(E || (E = {}));\n    return 0;\n}\n",
    ),
    (
        Nothing,
        "switch (a) { case 1: enum E { A } }",
        "switch (a) {\n    case 1:\n        let E;\n        (function(E) {\n            E[E[\"A\"] = 0] = \"A\";\n        })(E || (E = {}));\n}\n",
    ),
    (
        Nothing,
        "enum E { A = f(), B = g(A) }",
        "var E;\n(function(E) {\n    E[E[\"A\"] = f()] = \"A\";\n    E[E[\"B\"] = g(E.A)] = \"B\";\n})(E || (E = {}));\n",
    ),
    (
        Nothing,
        "enum E { A = f(), B = g({ A }) }",
        "var E;\n(function(E) {\n    E[E[\"A\"] = f()] = \"A\";\n    E[E[\"B\"] = g({ A: E.A })] = \"B\";\n})(E || (E = {}));\n",
    ),
    (
        Nothing,
        "enum E { A = 1, B = g({ A }, A as any) }",
        "var E;\n(function(E) {\n    E[E[\"A\"] = 1] = \"A\";\n    E[E[\"B\"] = g({ A: 1 }, 1)] = \"B\";\n})(E || (E = {}));\n",
    ),
    (
        Nothing,
        "enum E { A = 1, B = g(() => { A = 2; ({ A, B: [A] } = o); A++; ({ A = 3 } = o); }) }",
        "var E;\n(function(E) {\n    E[E[\"A\"] = 1] = \"A\";\n    E[E[\"B\"] = g(() => {\n        E.A = 2;\n        ({ A: E.A, B: [E.A] } = o);\n        E.A++;\n        ({ A: E.A = 3 } = o);\n    })] = \"B\";\n})(E || (E = {}));\n",
    ),
    (
        Nothing,
        "enum E { A = 1, B = g((A) => A) }",
        "var E;\n(function(E) {\n    E[E[\"A\"] = 1] = \"A\";\n    E[E[\"B\"] = g((A) => A)] = \"B\";\n})(E || (E = {}));\n",
    ),
    (
        Nothing,
        "const enum E { A, B = 2 } export { E };",
        "var E;\n(function(E) {\n    E[E[\"A\"] = 0] = \"A\";\n    E[E[\"B\"] = 2] = \"B\";\n})(E || (E = {}));\nexport { E };\n",
    ),
    (
        Nothing,
        "const enum E { A } export default E;",
        "var E;\n(function(E) {\n    E[E[\"A\"] = 0] = \"A\";\n})(E || (E = {}));\nexport default E;\n",
    ),
    (
        Nothing,
        "export const enum E { A }",
        "export var E;\n(function(E) {\n    E[E[\"A\"] = 0] = \"A\";\n})(E || (E = {}));\n",
    ),
    (
        Verbatim,
        "const enum E { A } f(E.A);",
        "var E;\n(function(E) {\n    E[E[\"A\"] = 0] = \"A\";\n})(E || (E = {}));\nf(0);\n",
    ),
    (
        Nothing,
        "const enum E { A } const enum E { B = 1 } f(E.B);",
        "var E;\nf(1);\n",
    ),
    (
        Nothing,
        "const enum E { A = 1, B = f() } g(E.B);",
        "var E;\n(function(E) {\n    E[E[\"B\"] = f()] = \"B\";\n})(E || (E = {}));\ng(E.B);\n",
    ),
    (Nothing, "const enum E {}", "var E;\n"),
    (
        Nothing,
        "enum E {}",
        "var E;\n(function(E) {})(E || (E = {}));\n",
    ),
    (
        Nothing,
        "enum E { \"a-b\" = 1, C = `t` } f(E[\"a-b\"], E.C);",
        "var E;\n(function(E) {\n    E[E[\"a-b\"] = 1] = \"a-b\";\n    E[\"C\"] = \"t\";\n})(E || (E = {}));\nf(1, \"t\");\n",
    ),
    (
        Nothing,
        "enum E { A = 0 / 0, B = -A, C = 1 / 0, D = -7 }",
        "var E;\n(function(E) {\n    E[E[\"A\"] = 0 / 0] = \"A\";\n    E[E[\"B\"] = 0 / 0] = \"B\";\n    E[E[\"C\"] = 1 / 0] = \"C\";\n    E[E[\"D\"] = -7] = \"D\";\n})(E || (E = {}));\n",
    ),
    (
        Nothing,
        "const enum E { A = 1 } E.A = 2; E.A++; delete E.A; delete (E.A); for (E.A in o) ; [E.A] = o; ({ a: E.A = E.A } = o); o[E.A] = 3; E.A.b = 4;",
        "var E;\nE.A = 2;\nE.A++;\ndelete E.A;\ndelete (E.A);\nfor (E.A in o) ;\n[E.A] = o;\n({ a: E.A = 1 } = o);\no[1] = 3;\n(1).b = 4;\n",
    ),
    (
        Nothing,
        "const enum E { A = 1 } f(E[\"A\"], E[`A`], E!.A, (E).A, E?.A, E.B, typeof E.A); E.A as number;",
        "var E;\nf(1, 1, 1, (E).A, E?.A, E.B, typeof 1);\n1;\n",
    ),
    (
        Nothing,
        "declare enum E { A = 1 } declare const enum F { A = 1 } f(E.A, F.A);",
        "f(E.A, F.A);\n",
    ),
    (
        Nothing,
        "enum E { A = f(() => { enum F { B = 2 } return F.B }), C = A as number }",
        "var E;\n(function(E) {\n    E[E[\"A\"] = f(() => {\n        let F;\n        (function(F) {\n            F[F[\"B\"] = 2] = \"B\";\n        })(F || (F = {}));\n        return 2;\n    })] = \"A\";\n    E[E[\"C\"] = E.A] = \"C\";\n})(E || (E = {}));\n",
    ),
];

#[test]
fn enums_are_written(rt: HostRuntime) -> Result<(), Fail> {
    let alloc = rt.alloc();
    for (with, text, wanted) in WRITTEN {
        let bytes = written(alloc, with, text)?;
        assert_eq!(rt; std::str::from_utf8(bytes.as_slice())?, wanted, "{text}");
    }
    Ok(())
}

/// Modules whose numbers are beyond those that are computed, and where the first of these is.
const BEYOND: [(&str, u32); 4] = [
    ("enum E { A = 9007199254740991, B }", 31),
    ("enum E { A = 0.5 }", 13),
    ("enum E { A = 1 / 3, B = 0.5 }", 13),
    ("f(); const enum E { A = f() + 0.5 }", 30),
];

fn refused(alloc: Global, text: &str) -> Option<EnumError> {
    written(alloc, Nothing, text).err()
}

#[test]
fn numbers_beyond_are_refused(rt: HostRuntime) -> Result<(), Fail> {
    let alloc = rt.alloc();
    for (text, at) in BEYOND {
        assert_eq!(rt;
            refused(alloc, text),
            Some(EnumError::EnumNumber { at }),
            "{text}"
        );
    }
    Ok(())
}
