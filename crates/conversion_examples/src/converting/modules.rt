//! Imports and exports: which are written, and which modules they refuse.
use super::{BAD_WORD, DONE, REFUSED, Row};

pub(super) const MODULES: [Row; 25] = [
    // imports that only types use
    Row {
        word: "",
        src: r#"import { A } from "m"; let x: A;"#,
        status: DONE,
        out: "let x;\nexport {};\n",
        err: "",
    },
    Row {
        word: "--no-empty-export",
        src: r#"import { A } from "m"; let x: A;"#,
        status: DONE,
        out: "let x;\n",
        err: "",
    },
    Row {
        word: "--verbatim",
        src: r#"import { A, type B } from "m"; let x: A;"#,
        status: DONE,
        out: r#"import { A } from "m";
let x;
"#,
        err: "",
    },
    Row {
        word: "",
        src: r#"import { A, type B } from "m"; A();"#,
        status: DONE,
        out: r#"import { A } from "m";
A();
"#,
        err: "",
    },
    // imports without names
    Row {
        word: "",
        src: r#"import "m"; import {} from "n"; import { type T } from "o""#,
        status: DONE,
        out: r#"import "m";
import "n";
"#,
        err: "",
    },
    Row {
        word: "--preserve-unused",
        src: r#"import "m"; import {} from "n"; import { type T } from "o""#,
        status: DONE,
        out: r#"import "m";
import "n";
import "o";
"#,
        err: "",
    },
    // imports and exports of types
    Row {
        word: "",
        src: r#"f(); import type { a } from "m";"#,
        status: DONE,
        out: "f();\nexport {};\n",
        err: "",
    },
    Row {
        word: "",
        src: r#"interface I {} type T = I; export { I }; export default T; export type { U } from "m"; export interface J {}"#,
        status: DONE,
        out: "export {};\n",
        err: "",
    },
    // imports that are used
    Row {
        word: "",
        src: r#"import a, * as b from "m"; import c, { d as e } from "n"; a(b, c, e);"#,
        status: DONE,
        out: r#"import a, * as b from "m";
import c, { d as e } from "n";
a(b, c, e);
"#,
        err: "",
    },
    // exports
    Row {
        word: "",
        src: "export const a: T = 1, { b } = f(); export function c<T>() {} export class D<T> { private e: T }",
        status: DONE,
        out: "export const a = 1, { b } = f();\nexport function c() {}\nexport class D {\n    e;\n}\n",
        err: "",
    },
    Row {
        word: "",
        src: r#"let a: T; export { a, a as b, type c }; export * from "m"; export * as d from "n"; export { e, type f } from "o";"#,
        status: DONE,
        out: r#"let a;
export { a, a as b };
export * from "m";
export * as d from "n";
export { e } from "o";
"#,
        err: "",
    },
    Row {
        word: "",
        src: "export default class<T> {}",
        status: DONE,
        out: "export default class {}\n",
        err: "",
    },
    Row {
        word: "",
        src: "export default (1 as T);",
        status: DONE,
        out: "export default (1);\n",
        err: "",
    },
    Row {
        word: "",
        src: "export abstract class A { abstract a(): void } export declare const b: T;",
        status: DONE,
        out: "export class A {}\n",
        err: "",
    },
    // a name that is exported in braces gets another text, and keeps its name
    Row {
        word: "",
        src: "{ declare const f: any; f(); } let f = 1; export { f };",
        status: DONE,
        out: "{\n    f();\n}\nlet f1 = 1;\nexport { f1 as f };\n",
        err: "",
    },
    Row {
        word: "",
        src: r#"import { f } from "m"; f(); { declare const f: any; f(); }"#,
        status: DONE,
        out: r#"import { f as f1 } from "m";
f1();
{
    f();
}
"#,
        err: "",
    },
    // a name that is exported where it is declared may not
    Row {
        word: "",
        src: "{ declare const f: any; f(); } export let f = 1;",
        status: REFUSED,
        out: "",
        err: "error: Captured f\n",
    },
    Row {
        word: "",
        src: "export { q }",
        status: REFUSED,
        out: "",
        err: "error: ExportUnbound q\n",
    },
    Row {
        word: "",
        src: "export { q }; export { r }; { declare const f: any; f(); } export let f = 1;",
        status: REFUSED,
        out: "",
        err: "error: ExportUnbound q\n",
    },
    // the order of refusals
    Row {
        word: "",
        src: "let a; let a; export { q }",
        status: REFUSED,
        out: "",
        err: "error: Redeclared a\n",
    },
    Row {
        word: "",
        src: "let a; let a; enum E {}",
        status: REFUSED,
        out: "",
        err: "error: Syntax at 14\n",
    },
    // an import beside a value of its name goes
    Row {
        word: "",
        src: r#"import { a } from "m"; let a; f(a);"#,
        status: DONE,
        out: "let a;\nf(a);\nexport {};\n",
        err: "",
    },
    Row {
        word: "--verbatim",
        src: r#"import { a } from "m"; let a; f(a);"#,
        status: REFUSED,
        out: "",
        err: "error: Redeclared a\n",
    },
    // words
    Row {
        word: "--assign=commonjs",
        src: "let x = 1;",
        status: BAD_WORD,
        out: "",
        err: "error: bad word --assign=commonjs\n",
    },
    Row {
        word: "--verbatim=",
        src: "let x = 1;",
        status: BAD_WORD,
        out: "",
        err: "error: bad word --verbatim=\n",
    },
];
