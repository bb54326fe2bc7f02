//! Modules that are refused: forms that are not taken, and what is no module.
use super::Case;

pub(super) const REFUSED: [Case; 20] = [
    // parameter property
    Case {
        src: "class A { constructor(private x: T) {} }",
        want: r#"error: Syntax at 22
"#,
    },
    // namespace
    Case {
        src: "a; namespace N { let b = 1 }",
        want: r#"error: Syntax at 3
"#,
    },
    // a namespace with an ambient value
    Case {
        src: "declare namespace N { let a } namespace N { declare let b }",
        want: r#"error: Syntax at 30
"#,
    },
    Case {
        src: "declare namespace N { function a(): void } namespace N { declare function b(): void }",
        want: r#"error: Syntax at 43
"#,
    },
    // export of a namespace, and of an enum
    Case {
        src: "f(); export namespace N { let a }",
        want: r#"error: Syntax at 12
"#,
    },
    Case {
        src: "declare namespace N { export { a } } export enum E {}",
        want: r#"error: Syntax at 44
"#,
    },
    // enum in a block
    Case {
        src: "function f() { enum E { A } }",
        want: r#"error: Syntax at 15
"#,
    },
    // comment of HTML
    Case {
        src: "<!-- a",
        want: r#"error: Syntax at 1
"#,
    },
    // text part without a tag
    Case {
        src: r#"x = `\u{m}`"#,
        want: r#"error: Syntax at 4
"#,
    },
    // decorator
    Case {
        src: "@d class A {}",
        want: r#"error: Syntax at 0
"#,
    },
    // broken rule before a form
    Case {
        src: r#"import "m"; for (let a = 1 of b) ;"#,
        want: r#"error: Syntax at 17
"#,
    },
    // two getters' parameters
    Case {
        src: "class A { get a(b: T) { return b } }",
        want: r#"error: Syntax at 10
"#,
    },
    // rest with a default
    Case {
        src: "(...a = b) => c",
        want: r#"error: Syntax at 1
"#,
    },
    // setters that take the rest
    Case {
        src: "({ set a(...b) {} })",
        want: r#"error: Syntax at 3
"#,
    },
    Case {
        src: "class A { set a(...b) {} }",
        want: r#"error: Syntax at 10
"#,
    },
    // functions without a body
    Case {
        src: "x = { get a() };",
        want: r#"error: Syntax at 6
"#,
    },
    Case {
        src: "f(function()\n)",
        want: r#"error: Syntax at 13
"#,
    },
    // two constructors
    Case {
        src: "class A { constructor() {} constructor(a: T) {} }",
        want: r#"error: Syntax at 27
"#,
    },
    // lexical body
    Case {
        src: "if (a) let b: T",
        want: r#"error: Syntax at 7
"#,
    },
    // function as a body
    Case {
        src: "if (a) function f() {}",
        want: r#"error: Syntax at 7
"#,
    },
];
