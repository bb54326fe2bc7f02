//! Import and export assignments: how they are written, and which are refused.
use super::{DONE, REFUSED, Row};

pub(super) const ASSIGNMENTS: [Row; 19] = [
    // an import and an export, by each option
    Row {
        word: "",
        src: r#"import fs = require("fs"); fs.f(); export = fs;"#,
        status: DONE,
        out: r#"const fs = require("fs");
fs.f();
module.exports = fs;
export {};
"#,
        err: "",
    },
    Row {
        word: "--assign=classic",
        src: r#"import fs = require("fs"); fs.f(); export = fs;"#,
        status: DONE,
        out: r#"const fs = require("fs");
fs.f();
module.exports = fs;
export {};
"#,
        err: "",
    },
    Row {
        word: "--assign=esnext",
        src: r#"import fs = require("fs"); fs.f(); export = fs;"#,
        status: REFUSED,
        out: "",
        err: "error: ImportAssign at 0\n",
    },
    Row {
        word: "--assign=esnext",
        src: "let a; export = a;",
        status: REFUSED,
        out: "",
        err: "error: ExportAssign at 7\n",
    },
    Row {
        word: "--assign=nodenext",
        src: "let a; export = a;",
        status: REFUSED,
        out: "",
        err: "error: ExportAssign at 7\n",
    },
    // forms that are not taken yet by these options
    Row {
        word: "--assign=nodenext",
        src: r#"import fs = require("fs"); fs.f();"#,
        status: REFUSED,
        out: "",
        err: "error: Syntax at 12\n",
    },
    Row {
        word: "--assign=preserve",
        src: "f(); export = a;",
        status: REFUSED,
        out: "",
        err: "error: Syntax at 5\n",
    },
    // two exports
    Row {
        word: "",
        src: "let a, b; export = a; export = b;",
        status: REFUSED,
        out: "",
        err: "error: ExportAssignTwice at 22\n",
    },
    // aliases
    Row {
        word: "--assign=esnext",
        src: "import a = b.c.d; a.e();",
        status: DONE,
        out: "const a = b.c.d;\na.e();\nexport {};\n",
        err: "",
    },
    Row {
        word: "--assign=preserve",
        src: "export import a = b.c; f();",
        status: DONE,
        out: "export const a = b.c;\nf();\n",
        err: "",
    },
    Row {
        word: "",
        src: "import a = b.c; import T = b.T; let x: T = a;",
        status: DONE,
        out: "const a = b.c;\nlet x = a;\nexport {};\n",
        err: "",
    },
    // an export goes behind all items
    Row {
        word: "",
        src: "export = f; function f(a: T) { return a; } g();",
        status: DONE,
        out: "function f(a) {\n    return a;\n}\ng();\nmodule.exports = f;\nexport {};\n",
        err: "",
    },
    Row {
        word: "--no-empty-export",
        src: "export = { a, b() { return c; } } as T; let a = 1; const c = a;",
        status: DONE,
        out: "let a = 1;\nconst c = a;\nmodule.exports = { a, b() {\n    return c;\n} };\n",
        err: "",
    },
    // an exported module
    Row {
        word: "",
        src: r#"export import a = require("m"); a();"#,
        status: DONE,
        out: r#"const a = exports.a = require("m");
a();
export {};
"#,
        err: "",
    },
    // names that are written and free
    Row {
        word: "",
        src: r#"export const require = 1; import x = require("m"); x()"#,
        status: REFUSED,
        out: "",
        err: "error: Captured require\n",
    },
    Row {
        word: "--no-empty-export",
        src: r#"const require = 1; import x = require("m"); x(require);"#,
        status: DONE,
        out: r#"const require1 = 1;
const x = require("m");
x(require1);
"#,
        err: "",
    },
    Row {
        word: "--no-empty-export",
        src: r#"let exports = 1, module = 2; export import a = require("m"); export = exports + module;"#,
        status: DONE,
        out: r#"let exports1 = 1, module1 = 2;
const a = exports.a = require("m");
module.exports = exports1 + module1;
"#,
        err: "",
    },
    // an alias that is declared again
    Row {
        word: "",
        src: "import a = b.c; let a; a();",
        status: REFUSED,
        out: "",
        err: "error: Redeclared a\n",
    },
    // an import of types
    Row {
        word: "",
        src: r#"import type a = require("m"); let x: a.T;"#,
        status: DONE,
        out: "let x;\nexport {};\n",
        err: "",
    },
];
