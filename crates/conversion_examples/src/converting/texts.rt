//! Names that need another text once types are gone.
use super::Case;

pub(super) const TEXTS: [Case; 15] = [
    // base
    Case {
        src: "{ declare const f: any; f(); } let f = 1; f1: for (;;) { o.f1(f); break f1; }",
        want: r#"{
    f();
}
let f1 = 1;
f1: for (;;) {
    o.f1(f1);
    break f1;
}
"#,
    },
    // least number
    Case {
        src: "let f = 1; { declare const f: any; f(f1, f3); } let f2 = f;",
        want: r#"let f4 = 1;
{
    f(f1, f3);
}
let f2 = f4;
"#,
    },
    // numbers in types are free
    Case {
        src: "declare const f1: any; type f2 = typeof f3; { declare const f: any; f(); } let f: f1 = 1 as f1;",
        want: r#"{
    f();
}
let f1 = 1;
"#,
    },
    // shorthands
    Case {
        src: "{ declare const f: any, g: any; f(g); } let { f, g = f } = o; h({ f, g: g, f() { return f; } }); ({ f, g = 1 } = o);",
        want: r#"{
    f(g);
}
let { f: f1, g: g1 = f1 } = o;
h({ f: f1, g: g1, f() {
    return f1;
} });
({ f: f1, g: g1 = 1 } = o);
"#,
    },
    // parameter
    Case {
        src: "function g(a: T, b = a) { { declare let a: any; a(b); } return a; } g(a);",
        want: r#"function g(a1, b = a1) {
    {
        a(b);
    }
    return a1;
}
g(a);
"#,
    },
    // var and arrow
    Case {
        src: "const h = (x) => { { declare function v(): void; v(); } var v = x; { var v = 2; } return v; };",
        want: r#"const h = (x) => {
    {
        v();
    }
    var v1 = x;
    {
        var v1 = 2;
    }
    return v1;
};
"#,
    },
    // class
    Case {
        src: "class C<T> extends D { static c = new C(); m(): C { return C; } } { declare class C { } new C(); } let d = C, e = class C { n() { return C; } };",
        want: r#"class C1 extends D {
    static c = new C1();
    m() {
        return C1;
    }
}
{
    new C();
}
let d = C1, e = class C {
    n() {
        return C;
    }
};
"#,
    },
    // own name of a function
    Case {
        src: "(function f(n) { { declare let f: any; f(n); } return f; }); let e = class C { m() { { declare let C: any; C(); } return C; } };",
        want: r#"(function f1(n) {
    {
        f(n);
    }
    return f1;
});
let e = class C1 {
    m() {
        {
            C();
        }
        return C1;
    }
};
"#,
    },
    // loop and catch
    Case {
        src: "for (let i of xs) { declare let i: any; i(); } try {} catch (e) { { declare let e: any; e(); } }",
        want: r#"for (let i1 of xs) {
    i();
}
try {} catch (e1) {
    {
        e();
    }
}
"#,
    },
    // default in the pattern of a catch
    Case {
        src: "let f = 5; try { throw {} } catch ({ a = f }) { { declare const f; f('x') } let f = 1; log(a, f) }",
        want: r#"let f1 = 5;
try {
    throw {};
} catch ({ a = f1 }) {
    {
        f('x');
    }
    let f2 = 1;
    log(a, f2);
}
"#,
    },
    // two bindings of one text
    Case {
        src: "let f = 1; function g(f) { { declare let f: any; f(); } return f; } g(f);",
        want: r#"let f1 = 1;
function g(f2) {
    {
        f();
    }
    return f2;
}
g(f1);
"#,
    },
    // shadowed beside
    Case {
        src: "declare const x: any; x; { let x = 1; x; { declare let y: any; y; } } function y() { let x; return x; } let z = (y) => { let x; };",
        want: r#"x;
{
    let x = 1;
    x;
    {
        y;
    }
}
function y1() {
    let x;
    return x;
}
let z = (y) => {
    let x;
};
"#,
    },
    // types shadow nothing
    Case {
        src: "let f = () => 1; { interface f { } type g = f; f(); } const g = <f>(x: f) => f(); { function h<g>(): g; g; }",
        want: r#"let f = () => 1;
{
    f();
}
const g = (x) => f();
{
    g;
}
"#,
    },
    // function without a body
    Case {
        src: "{ function f(): void; f(); } function f() { return f; }",
        want: r#"{
    f();
}
function f1() {
    return f1;
}
"#,
    },
    // switch and static block
    Case {
        src: "let a = 1, b = a; switch (a) { case b: declare let a: any; a(b); } class C { static { declare const b: any; b(a); var c = b; } }",
        want: r#"let a1 = 1, b1 = a1;
switch (a1) {
    case b1:
        a(b1);
}
class C {
    static {
        b(a1);
        var c = b;
    }
}
"#,
    },
];
