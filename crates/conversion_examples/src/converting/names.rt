//! Names that are declared more than once: what a JavaScript engine says of plain ones, and TypeScript of others.
use super::Case;

pub(super) const NAMES: [Case; 55] = [
    // two let
    Case {
        src: "let a; let a;",
        want: r#"error: Redeclared a
"#,
    },
    // var and let
    Case {
        src: "var a; let a;",
        want: r#"error: Redeclared a
"#,
    },
    // let and var inside a block
    Case {
        src: "let a; { var a; }",
        want: r#"error: Redeclared a
"#,
    },
    // var through a block
    Case {
        src: "{ let a; { var a; } }",
        want: r#"error: Redeclared a
"#,
    },
    // two var
    Case {
        src: "var a = 1; var a; { var a = 2; } for (var a of b) ;",
        want: r#"var a = 1;
var a;
{
    var a = 2;
}
for (var a of b) ;
"#,
    },
    // let in nested blocks
    Case {
        src: "let a; { let a; { let a; } const b = a; } switch (a) { case a: let b = a; }",
        want: r#"let a;
{
    let a;
    {
        let a;
    }
    const b = a;
}
switch (a) {
    case a:
        let b = a;
}
"#,
    },
    // two functions in a module
    Case {
        src: "function f() {} function f() {}",
        want: r#"error: Redeclared f
"#,
    },
    // function and var in a module
    Case {
        src: "var f; function f() {}",
        want: r#"error: Redeclared f
"#,
    },
    // functions and var in a body
    Case {
        src: "function g(b) { var f; function f() {} function f() {} var b; function b() {} }",
        want: r#"function g(b) {
    var f;
    function f() {}
    function f() {}
    var b;
    function b() {}
}
"#,
    },
    // two functions in a block
    Case {
        src: "{ function f() {} function f() {} }",
        want: r#"error: Redeclared f
"#,
    },
    // function in a block beside an outer name
    Case {
        src: "let f; { function f() {} f(); } if (f) { function f() {} }",
        want: r#"let f;
{
    function f() {}
    f();
}
if (f) {
    function f() {}
}
"#,
    },
    // function in a block and var through it
    Case {
        src: "function g() { { function f() {} var f; } }",
        want: r#"error: Redeclared f
"#,
    },
    // parameter and let
    Case {
        src: "(({ b: [a] }) => { let a; });",
        want: r#"error: Redeclared a
"#,
    },
    // parameter and class
    Case {
        src: "class C { m(...a) { class a {} } }",
        want: r#"error: Redeclared a
"#,
    },
    // two parameters
    Case {
        src: "function g(a, [b, a]) {}",
        want: r#"error: Redeclared a
"#,
    },
    // parameter beside names further in
    Case {
        src: "function g(a, b = a) { { let a; } for (let a of b) { let b; } (function a(b) { var b; }); }",
        want: r#"function g(a, b = a) {
    {
        let a;
    }
    for (let a of b) {
        let b;
    }
    (function a(b) {
        var b;
    });
}
"#,
    },
    // own name of a function and of a class
    Case {
        src: "(function f() { let f; }); (function f(f) {}); (class C { m() { let C; } }); let d = class d {}; let e = function e() {};",
        want: r#"(function f() {
    let f;
});
(function f(f) {});
(class C {
    m() {
        let C;
    }
});
let d = class d {};
let e = function e() {};
"#,
    },
    // catch and let
    Case {
        src: "try {} catch (e) { let e; }",
        want: r#"error: Redeclared e
"#,
    },
    // catch pattern and let
    Case {
        src: "try {} catch ([e, { f = e }]) { let f; }",
        want: r#"error: Redeclared f
"#,
    },
    // catch and function
    Case {
        src: "try {} catch (e) { function e() {} }",
        want: r#"error: Redeclared e
"#,
    },
    // catch and a let that goes
    Case {
        src: "try {} catch (e) { declare let e: any; e(); }",
        want: r#"error: Redeclared e
"#,
    },
    // catch pattern and var
    Case {
        src: "try {} catch ([e]) { { var e; } }",
        want: r#"error: Redeclared e
"#,
    },
    // catch name and var
    Case {
        src: "try {} catch (e) { var e; }",
        want: r#"error: Redeclared e
"#,
    },
    // catch beside blocks
    Case {
        src: "let e; try { let e; } catch (e) { { let e; } f(e); } finally { let e; }",
        want: r#"let e;
try {
    let e;
} catch (e) {
    {
        let e;
    }
    f(e);
} finally {
    let e;
}
"#,
    },
    // cases of a switch
    Case {
        src: "switch (x) { case 0: let a; break; case 1: const a = 1; }",
        want: r#"error: Redeclared a
"#,
    },
    // function and var in cases
    Case {
        src: "switch (x) { case 0: function f() {} default: var f; }",
        want: r#"error: Redeclared f
"#,
    },
    // head of a loop and var
    Case {
        src: "for (let i = 0; i < 1; i++) { var i; }",
        want: r#"error: Redeclared i
"#,
    },
    // head of a loop twice
    Case {
        src: "for (const [i, i] of x) ;",
        want: r#"error: Redeclared i
"#,
    },
    // head of a loop beside its body
    Case {
        src: "for (let i = 0; i < 1; i++) { let i = 2; } for (const i of i_) { const i = 1; } for (var i in x) { let i; }",
        want: r#"for (let i = 0; i < 1; i++) {
    let i = 2;
}
for (const i of i_) {
    const i = 1;
}
for (var i in x) {
    let i;
}
"#,
    },
    // class and function
    Case {
        src: "class A {} function A() {}",
        want: r#"error: Redeclared A
"#,
    },
    // two classes in a body
    Case {
        src: "function f() { class A {} class A {} }",
        want: r#"error: Redeclared A
"#,
    },
    // var in a pattern and class
    Case {
        src: "var { a: [A = 1], ...b } = c; class A {}",
        want: r#"error: Redeclared A
"#,
    },
    // let in one pattern
    Case {
        src: "const { a, b: [a] } = c;",
        want: r#"error: Redeclared a
"#,
    },
    // static block
    Case {
        src: "class A { static { var a; let a; } }",
        want: r#"error: Redeclared a
"#,
    },
    // functions in a static block
    Case {
        src: "class A { static { function f() {} function f() {} var f; } static { let f; } } let f;",
        want: r#"class A {
    static {
        function f() {}
        function f() {}
        var f;
    }
    static {
        let f;
    }
}
let f;
"#,
    },
    // label and let
    Case {
        src: "let a; a: for (;;) { let b = { a: 1 }.a; break a; }",
        want: r#"let a;
a: for (;;) {
    let b = { a: 1 }.a;
    break a;
}
"#,
    },
    // overloads of a name
    Case {
        src: "function f(a: string): void; function f(a: number): void; function f(a) {}",
        want: r#"function f(a) {}
"#,
    },
    // ambient beside a value
    Case {
        src: "declare let f: any; let f = 1; f; type f = T; interface f {}",
        want: r#"let f = 1;
f;
"#,
    },
    // type and value
    Case {
        src: "interface A {} class A { a: A } type b = A; const b = 1; { type b = A; f(b); }",
        want: r#"class A {
    a;
}
const b = 1;
{
    f(b);
}
"#,
    },
    // let twice among types
    Case {
        src: "type a = T; let a: a; const b = 1; let c: b, a = 2 as a;",
        want: r#"error: Redeclared a
"#,
    },
    // function without a body before var
    Case {
        src: "{ function x(): void; var x; }",
        want: r#"error: Redeclared x
"#,
    },
    // ambient beside a parameter
    Case {
        src: "function f(x) { declare let x; }",
        want: r#"error: Redeclared x
"#,
    },
    // optional parameters twice
    Case {
        src: "abstract class A { m(a?: T, { b, c: a }: U = d) {} }",
        want: r#"error: Redeclared a
"#,
    },
    // syntax before names
    Case {
        src: "let a; let a; enum E {}",
        want: r#"error: Syntax at 14
"#,
    },
    // the first in the text is told, inside
    Case {
        src: "{ let b; let b; } let a; let a;",
        want: r#"error: Redeclared b
"#,
    },
    // between two of another name
    Case {
        src: "let a; { let b; let b; } let a;",
        want: r#"error: Redeclared b
"#,
    },
    // and outside
    Case {
        src: "let a; let a; { let b; let b; }",
        want: r#"error: Redeclared a
"#,
    },
    // of a var and a let the later counts
    Case {
        src: "var a; let b; let b; let a;",
        want: r#"error: Redeclared b
"#,
    },
    // also where the var is further in
    Case {
        src: "{ { var a; } let a; let b; let b; }",
        want: r#"error: Redeclared a
"#,
    },
    // and where it passes through
    Case {
        src: "var a; { let b; { var b; } } let a;",
        want: r#"error: Redeclared b
"#,
    },
    // parameters before what follows
    Case {
        src: "let b; function f(a, { a }) {} let b;",
        want: r#"error: Redeclared a
"#,
    },
    // a body's names before a parameter that is declared again
    Case {
        src: "function f(a, b) { let c; let c; let a; }",
        want: r#"error: Redeclared c
"#,
    },
    // an ambient namespace shadows a name, and binds none
    Case {
        src: "{ declare namespace a { let b } a; } let a = 1;",
        want: r#"{
    a;
}
let a1 = 1;
"#,
    },
    // so does one of functions without bodies, and none of types
    Case {
        src: "{ declare namespace a { function b(): void } a.b(); { declare namespace c { type d = e } c(); } } let a, c;",
        want: r#"{
    a.b();
    {
        c();
    }
}
let a1, c;
"#,
    },
    // a key `__proto__` would set the prototype in a literal, and sets none in a pattern
    Case {
        src: "{ declare const __proto__: any; f(__proto__); } let __proto__ = 1, a = { __proto__ }; f(a); ({ __proto__ } = a); f(__proto__);",
        want: r#"{
    f(__proto__);
}
let __proto__1 = 1, a = { ["__proto__"]: __proto__1 };
f(a);
({ __proto__: __proto__1 } = a);
f(__proto__1);
"#,
    },
];
