//! Imports and exports that go, by `ecma_elide`, and then their types, by `ecma_strip`.
use ecma_config::{Config, ImportsNotUsedAsValues};
use ecma_elide::elide;
use ecma_print::print_module;
use ecma_scope::resolve;
use ecma_strip::strip_type;
use ecma_text::{ReadError, read_module};
use ecma_tree::{NoMemory, Node, PassError, Session};
use std::alloc::Global;
use std::test::Fail;

// A function that may let go of a node is proved for every kind that it may have: so this one alone does.
fn let_go(_node: Node) {}

fn resolve_alone(alloc: Global, tree: &mut Node) -> Result<(), PassError> {
    let mut session = Session::new(1000);
    let unresolved = session.fresh_mark()?;
    let top = session.fresh_mark()?;
    resolve(alloc, &mut session, tree, unresolved, top)
}

fn pass(alloc: Global, config: &Config, tree: &mut Node) -> Result<(), NoMemory> {
    if resolve_alone(alloc, tree).is_err() {
        return Err(NoMemory);
    }
    elide(alloc, config, tree)?;
    strip_type().visit_mut_module(alloc, tree)
}

fn shown(alloc: Global, config: &Config, tree: &mut Node) -> Result<Vec<u8>, NoMemory> {
    pass(alloc, config, tree)?;
    print_module(alloc, tree)
}

/// The text that is written of a text.
fn written(alloc: Global, config: &Config, text: &str) -> Result<Vec<u8>, ReadError> {
    if 1000 < text.len() {
        return Err(ReadError::TooDeep { at: 1000 });
    }
    let mut tree = read_module(alloc, text)?;
    let answer = shown(alloc, config, &mut tree);
    let_go(tree);
    match answer {
        Ok(bytes) => Ok(bytes),
        Err(_) => Err(ReadError::NoMemory),
    }
}

/// What TypeScript 4.8.4 leaves of imports and exports (target and module `ESNext`), but for the `export {}` that it adds, and for `import {} from "n"`, which it
/// drops.
const ROWS: [(&str, &str); 60] = [
    ("import { A } from \"m\"; let x: A", "let x;\n"),
    (
        "import { A, type B } from \"m\"; A()",
        "import { A } from \"m\";\nA();\n",
    ),
    (
        "import \"m\"; import {} from \"n\"; import { type T } from \"o\"",
        "import \"m\";\nimport \"n\";\n",
    ),
    (
        "import { a } from \"m\"; { var a = 1 } a",
        "{\n    var a = 1;\n}\na;\n",
    ),
    ("import { a } from \"m\"; declare const a: any; a", "a;\n"),
    ("import { f } from \"m\"; function f(): void; f()", "f();\n"),
    (
        "import { A } from \"m\"; interface A {} A()",
        "import { A } from \"m\";\nA();\n",
    ),
    (
        "import { A } from \"m\"; interface A {} export { A }",
        "import { A } from \"m\";\n",
    ),
    (
        "import { N } from \"m\"; namespace N { export type T = 1 } N.x",
        "import { N } from \"m\";\nN.x;\n",
    ),
    (
        "import type { A } from \"m\"; import { type B } from \"n\"; export { A, B }",
        "",
    ),
    ("export default interface A {} export { A }", ""),
    ("type a = 1; export default a", ""),
    ("type a = 1; export default (a)", "export default (a);\n"),
    (
        "type T = 1; export { T as U }; const T = 2",
        "export { T as U };\nconst T = 2;\n",
    ),
    (
        "declare namespace N { const a: any } export { N }",
        "export { N };\n",
    ),
    ("namespace N { type T = 1 } export { N }", ""),
    (
        "export {}; export {} from \"m\"; export { type T } from \"n\"; export type { T } from \"o\"",
        "",
    ),
    (
        "export * from \"m\"; export * as n from \"m\"; export { type T, a } from \"m\"",
        "export * from \"m\";\nexport * as n from \"m\";\nexport { a } from \"m\";\n",
    ),
    (
        "import { a } from \"m\"; a = 1",
        "import { a } from \"m\";\na = 1;\n",
    ),
    (
        "import { a } from \"m\"; for (a of b);",
        "import { a } from \"m\";\nfor (a of b) ;\n",
    ),
    (
        "import { a, b } from \"m\"; ({ a })",
        "import { a } from \"m\";\n({ a });\n",
    ),
    (
        "import { a } from \"m\"; declare class C extends a {}",
        "import { a } from \"m\";\n",
    ),
    (
        "import { a } from \"m\"; class C implements a {}",
        "class C {}\n",
    ),
    ("import { a } from \"m\"; let x: typeof a", "let x;\n"),
    (
        "import { f } from \"m\"; { declare const f: any; f() }",
        "{\n    f();\n}\n",
    ),
    (
        "import a, * as b from \"m\"; b()",
        "import * as b from \"m\";\nb();\n",
    ),
    (
        "import a, { c } from \"m\"; a()",
        "import a from \"m\";\na();\n",
    ),
    (
        "import { a as b } from \"m\"; export { b as c }",
        "import { a as b } from \"m\";\nexport { b as c };\n",
    ),
    (
        "import { a } from \"m\"; export default a",
        "import { a } from \"m\";\nexport default a;\n",
    ),
    (
        "import { a } from \"m\"; function f(b = a) {}",
        "import { a } from \"m\";\nfunction f(b = a) {}\n",
    ),
    (
        "import a = require(\"m\"); import type b = require(\"n\")",
        "",
    ),
    (
        "import a from \"m\"; import * as b from \"n\"; b.c()",
        "import * as b from \"n\";\nb.c();\n",
    ),
    (
        "import a, { b } from \"m\"; a(b)",
        "import a, { b } from \"m\";\na(b);\n",
    ),
    (
        "import a, * as b from \"m\"; b",
        "import * as b from \"m\";\nb;\n",
    ),
    (
        "import a, { b } from \"m\"; b",
        "import { b } from \"m\";\nb;\n",
    ),
    (
        "import { a as b } from \"m\"; b; let a",
        "import { a as b } from \"m\";\nb;\nlet a;\n",
    ),
    (
        "import { default as a } from \"m\"; a",
        "import { default as a } from \"m\";\na;\n",
    ),
    (
        "import { a } from \"m\"; typeof a",
        "import { a } from \"m\";\ntypeof a;\n",
    ),
    ("import { a } from \"m\"; let b: typeof a", "let b;\n"),
    (
        "import { a } from \"m\"; class C { [a] = 1 }",
        "import { a } from \"m\";\nclass C {\n    [a] = 1;\n}\n",
    ),
    (
        "import { a } from \"m\"; let { [a]: b } = c",
        "import { a } from \"m\";\nlet { [a]: b } = c;\n",
    ),
    (
        "import { a } from \"m\"; function f(b = a) {}",
        "import { a } from \"m\";\nfunction f(b = a) {}\n",
    ),
    (
        "import { a, B } from \"m\"; a as B",
        "import { a } from \"m\";\na;\n",
    ),
    ("import { B } from \"m\"; f<B>()", "f();\n"),
    (
        "import { a } from \"m\"; export default a",
        "import { a } from \"m\";\nexport default a;\n",
    ),
    (
        "import { A } from \"m\"; export type B = A; export const c = 1",
        "export const c = 1;\n",
    ),
    (
        "import { a } from \"m\"; export const b = a",
        "import { a } from \"m\";\nexport const b = a;\n",
    ),
    (
        "import { a } from \"m\"; export { a, a as b }",
        "import { a } from \"m\";\nexport { a, a as b };\n",
    ),
    ("export declare const a: any; a", "a;\n"),
    (
        "export function f(): void; export function f() {}",
        "export function f() {}\n",
    ),
    (
        "import { a } from \"m\"; b.a; ({ a: 1 })",
        "b.a;\n({ a: 1 });\n",
    ),
    (
        "import { a } from \"m\"; ({ [a]: 1 })",
        "import { a } from \"m\";\n({ [a]: 1 });\n",
    ),
    (
        "import { a } from \"m\"; function f() { let a; a }",
        "function f() {\n    let a;\n    a;\n}\n",
    ),
    (
        "import { a } from \"m\"; function f(a) { a }",
        "function f(a) {\n    a;\n}\n",
    ),
    (
        "import { a } from \"m\"; try {} catch (a) { a }",
        "try {} catch (a) {\n    a;\n}\n",
    ),
    (
        "import { a } from \"m\"; a.b = 1; a++",
        "import { a } from \"m\";\na.b = 1;\na++;\n",
    ),
    (
        "import { a } from \"m\"; (class a { b = a })",
        "(class a {\n    b = a;\n});\n",
    ),
    (
        "import { a } from \"m\"; function* g() { yield a }",
        "import { a } from \"m\";\nfunction* g() {\n    yield a;\n}\n",
    ),
    (
        "import { a } from \"m\"; a: for (;;) break a",
        "a: for (;;) break a;\n",
    ),
    (
        "import { A } from \"m\"; class B { c: A; d(e: A): A { return e } }",
        "class B {\n    c;\n    d(e) {\n        return e;\n    }\n}\n",
    ),
];

#[test]
fn what_is_not_used_goes(rt: HostRuntime) -> Result<(), Fail> {
    let alloc = rt.alloc();
    for (text, wanted) in ROWS {
        let found = written(alloc, &Config::default(), text)?;
        assert_eq!(rt; str::from_utf8(found.as_slice()), Ok(wanted), "{text}");
    }
    Ok(())
}

/// What stays of `import a = ..`, which TypeScript writes otherwise. An enum and a namespace, which other passes write, are printed as empty lines.
const ALIASES: [(&str, &str); 7] = [
    (
        "import fs = require(\"fs\"); fs.f(); export = fs",
        "import fs = require(\"fs\");\nfs.f();\nexport = fs;\n",
    ),
    (
        "import { a } from \"m\"; import b = a.c; export import d = a.e",
        "import { a } from \"m\";\nexport import d = a.e;\n",
    ),
    (
        "import { a } from \"m\"; import type b = a.c; f()",
        "f();\n",
    ),
    (
        "import { a } from \"m\"; enum E { A = a }",
        "import { a } from \"m\";\n\n",
    ),
    (
        "import { a } from \"m\"; namespace N { export const b = a }",
        "import { a } from \"m\";\n\n",
    ),
    ("namespace N { import a = M.b } f()", "f();\n"),
    ("namespace N { import a = M.b; a() } f()", "\nf();\n"),
];

#[test]
fn an_alias_that_is_used_stays(rt: HostRuntime) -> Result<(), Fail> {
    let alloc = rt.alloc();
    for (text, wanted) in ALIASES {
        let found = written(alloc, &Config::default(), text)?;
        assert_eq!(rt; str::from_utf8(found.as_slice()), Ok(wanted), "{text}");
    }
    Ok(())
}

/// What stays where an import that is left without names is kept, and where nothing is asked of uses.
const KEPT: [(bool, &str, &str); 3] = [
    (
        false,
        "import \"m\"; import {} from \"n\"; import { type T } from \"o\"; import type U from \"p\"",
        "import \"m\";\nimport \"n\";\nimport \"o\";\n",
    ),
    (
        false,
        "import a, { b } from \"m\"; export { type T }",
        "import \"m\";\n",
    ),
    (
        true,
        "import { a, type B } from \"m\"; import type C from \"n\"; export { type D, E }",
        "import { a } from \"m\";\nexport { E };\n",
    ),
];

fn keeping(verbatim: bool) -> Config {
    let mut config = Config::default();
    config.verbatim_module_syntax = verbatim;
    config.import_not_used_as_values = ImportsNotUsedAsValues::Preserve;
    config
}

#[test]
fn options_keep_imports(rt: HostRuntime) -> Result<(), Fail> {
    let alloc = rt.alloc();
    for (verbatim, text, wanted) in KEPT {
        let found = written(alloc, &keeping(verbatim), text)?;
        assert_eq!(rt; str::from_utf8(found.as_slice()), Ok(wanted), "{text}");
    }
    Ok(())
}
