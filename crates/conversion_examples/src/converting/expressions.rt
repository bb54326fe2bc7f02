//! Expressions and patterns, and what is written for them: the trees are those that TypeScript makes of them, the bytes are by hand.
use super::Case;

pub(super) const EXPRESSIONS: [Case; 30] = [
    // objects
    Case {
        src: r#"x = { a, b: c as T, "d": 1, 2: e!, [f as any]: <g>h, ...i as any, get j(): T { return 1 }, set j(v: T) {}, k<T>(l: T): void {}, async m() {}, *n() {}, async *o() {}, get: 1, set: 2, async: 3, get() {}, async async() {}, "p"() {}, 3() {}, [q]() {}, }; y = {}; ({ z })"#,
        want: r#"x = { a, b: c, "d": 1, 2: e, [f]: h, ...i, get j() {
    return 1;
}, set j(v) {}, k(l) {}, async m() {}, *n() {}, async *o() {}, get: 1, set: 2, async: 3, get() {}, async async() {}, "p"() {}, 3() {}, [q]() {} };
y = {};
({ z });
"#,
    },
    // patterns that are assigned to
    Case {
        src: r#"[a, b = 1 as any, , ...c] = d as any; ({ e, f: g.h, i = 2, "j": k[0], [l]: m = n!, ...o } = p!); [(q as any).r, s![0]] = t; [[u], { v: [w] = x }] = y"#,
        want: r#"[a, b = 1, , ...c] = d;
({ e, f: g.h, i = 2, "j": k[0], [l]: m = n, ...o } = p);
[(q).r, s[0]] = t;
[[u], { v: [w] = x }] = y;
"#,
    },
    // types round what is assigned to
    Case {
        src: "[a as any, b!, <T>c] = d; ({ e: f as T, g: h! = 1 } = i); (j as any) = k; (<T>l) += m; n! = o; p!++; --(q as any); for (r! of s) ; for ([t as any] of u) ; for ((v as any) in w) ;",
        want: r#"[a, b, c] = d;
({ e: f, g: h = 1 } = i);
(j) = k;
(l) += m;
n = o;
p++;
--(q);
for (r of s) ;
for ([t] of u) ;
for ((v) in w) ;
"#,
    },
    // operators
    Case {
        src: r#"a + b as any; (-a!) ** 2; typeof (a as any); void 0; delete a!.b; ~a; +a; - -a; + +a; !(!a as any); a - <any>-b; a-- - --b; a++ + ++b; a ?? b!; a && b || c as any; (a ?? b) || c; a ? b as T : c!; a, b!, c; a ||= b as any; a **= 2; a >>>= 1; a in b!; a instanceof (b as any); a << 1 >>> 2; a === b != c; a & b | c ^ d; await a!; a as T || b; (a as any as T[])[0]; a - (b - c!); a ** b ** c!; "a" in b && !(c in d)"#,
        want: r#"a + b;
(-a) ** 2;
typeof (a);
void 0;
delete a.b;
~a;
+a;
- -a;
+ +a;
!(!a);
a - -b;
a-- - --b;
a++ + ++b;
a ?? b;
a && b || c;
(a ?? b) || c;
a ? b : c;
a, b, c;
a ||= b;
a **= 2;
a >>>= 1;
a in b;
a instanceof (b);
a << 1 >>> 2;
a === b != c;
a & b | c ^ d;
await a;
a || b;
(a)[0];
a - (b - c);
a ** b ** c;
"a" in b && !(c in d);
"#,
    },
    // satisfies
    Case {
        src: "const a = { b: 1 } satisfies T, c = d! satisfies U as V; (e satisfies T).f; g(h satisfies T, ...i satisfies U[]); j = k satisfies { l: M } ? n : o; satisfies_(p)",
        want: r#"const a = { b: 1 }, c = d;
(e).f;
g(h, ...i);
j = k ? n : o;
satisfies_(p);
"#,
    },
    // types before what begins a statement
    Case {
        src: "<any>{ a: 1 }; <any>function () { }; <any>async function f() {}; <any>{}.b; x = () => <T>{}; <any>{ c } ? d : e",
        want: r#"({ a: 1 });
(function() {});
(async function f() {});
({}).b;
x = () => ({});
({ c }) ? d : e;
"#,
    },
    // a sign before a type before the same sign
    Case {
        src: "- <any>-a; + <T>+b; - <any>--c; -(<any>-d)",
        want: r#"- -a;
+ +b;
- --c;
-(-d);
"#,
    },
    // a class after a type at the beginning of a statement
    Case {
        src: "<any>class { }; <T>class A<U> { m(): void {} }.b<V>()",
        want: r#"(class {});
(class A {
    m() {}
}).b();
"#,
    },
    // escapes after a tag
    Case {
        src: r#"(f as any)`\u{m}${a!}\1`"#,
        want: r#"(f)`\u{m}${a}\1`;
"#,
    },
    // private names in optional chains
    Case {
        src: "class A { #a?: T; m(b?: A) { return b?.#a!.c } }",
        want: r#"class A {
    #a;
    m(b) {
        return b?.#a.c;
    }
}
"#,
    },
    // words before type parameters
    Case {
        src: "function f<const T, U>(a: T) {} class A<in T, out U, in out V, const W> {} x = <const T,>(a: T) => a",
        want: r#"function f(a) {}
class A {}
x = (a) => a;
"#,
    },
    // optional chains
    Case {
        src: "a?.b!.c; (a?.b)!.c; (a?.b as T).c; a?.[b as any]?.(c!); a?.<T>(b); delete a?.b!; a!?.b; a?.b!(); (a?.b!)(); a?.b.c<T>(d)?.e![f]!.g; new (a?.b as any)()",
        want: r#"a?.b.c;
(a?.b).c;
(a?.b).c;
a?.[b]?.(c);
a?.(b);
delete a?.b;
a?.b;
a?.b();
(a?.b)();
a?.b.c(d)?.e[f].g;
new (a?.b)();
"#,
    },
    // calls, members and type arguments
    Case {
        src: r#"f<A, B<C<D>>>(a); new Map<string, Map<K, V[]>>(); const h = f<T>, i = [g<U>, j<V>]; new A<T>; new A; new k.l<T>(m)(n); new (o<T>()); new (p().q)!(); a.b<T>(c, ...d as any)[e!](); f(a < b, c > d); (r<T>)(s); t<U>
u"#,
        want: r#"f(a);
new Map();
const h = f, i = [g, j];
new A;
new A;
new k.l(m)(n);
new (o());
new (p().q)();
a.b(c, ...d)[e]();
f(a < b, c > d);
(r)(s);
t;
u;
"#,
    },
    // templates
    Case {
        src: r#"`a${b as T}c${`d${e!}`}`; f`g${h as any}\n`; i<T>`j`; k.l!`m`; `n
    o ${(p, q)}`; ``; x = `${<T>y}`"#,
        want: r#"`a${b}c${`d${e}`}`;
f`g${h}\n`;
i`j`;
k.l`m`;
`n
    o ${(p, q)}`;
``;
x = `${y}`;
"#,
    },
    // literals
    Case {
        src: r#"let a: bigint = 0x1fn + 1_0n as any, b: RegExp = /[/]\/x/gu, c = 'it\'s', d: "e" = "\u{1F600}\x41", f = [1_000, .5, 1e3, 0b11, 0o17, 5.]; 1..g; (1).h!; 1.5.i; 2n.j; null!; true as boolean; x = <any>/k/.l; y = z! / w / v"#,
        want: r#"let a = 0x1fn + 1_0n, b = /[/]\/x/gu, c = 'it\'s', d = "\u{1F600}\x41", f = [1_000, .5, 1e3, 0b11, 0o17, 5.];
(1.).g;
(1).h;
(1.5).i;
2n.j;
null;
true;
x = /k/.l;
y = z / w / v;
"#,
    },
    // directives
    Case {
        src: r#""use strict"; 'b'; let a: T; function f() { "use strict"; return "c" as T }"#,
        want: r#""use strict";
'b';
let a;
function f() {
    "use strict";
    return "c";
}
"#,
    },
    // texts that are no directives
    Case {
        src: r#"function f(a = 1) { ; "use strict"; } function g(a = 1) { "use strict" as any; } let h = (a = 1) => { type T = U; <T>"use strict"!; "b" as T }; class A { static { ; "c" } } { ; "d" }"#,
        want: r#"function f(a = 1) {
    ("use strict");
}
function g(a = 1) {
    ("use strict");
}
let h = (a = 1) => {
    ("use strict");
    "b";
};
class A {
    static {
        "c";
    }
}
{
    "d";
}
"#,
    },
    Case {
        src: r#""a"; ; "b""#,
        want: r#""a";
("b");
"#,
    },
    Case {
        src: r#"type A = 1; "use strict"; for (async! of [1]); for (async! in a); for (of! of b);"#,
        want: r#"("use strict");
for ((async) of [1]) ;
for (async in a) ;
for (of of b) ;
"#,
    },
    // what is for types alone
    Case {
        src: "type A<T> = B; interface C<T> extends D, E.F<T> { d: E } declare let f: G, g; declare function h(): void; declare class I { j: K; l(): void; constructor(m: N) } declare const o: P; declare abstract class Q { } declare var r; declare type S = T; declare interface U { } abstract class V {} interface Y {} { interface Z {} type A1 = B1; declare let c1; }",
        want: r#"class V {}
{}
"#,
    },
    // types
    Case {
        src: r#"let a: (b?: c, ...d: e[]) => f,
    g: new <h>(i: j) => k, l: abstract new () => m,
    n: keyof o | unique symbol | readonly p[] | (q) & r,
    s: t extends (infer u extends v)[] ? u : never,
    w: { readonly [x in keyof y as z]-?: A }, B: { +readonly [C in D]+?: E; }, F: { -readonly [G in H] },
    I: { a: B; readonly b?: C, c(d: E): F
        <G>(h: G): I; new (j): K; [l: string]: M; get n(): O; set n(p: O); "q": R; 1?: S; [t]: U },
    J: [K, L?, ...M[]], N: [O: P, Q?: R, ...S: T[]], U: [],
    V: `x${W}y` | "s" | 't' | 1 | -1 | 1n | -2n | true | false | null | void | undefined | this,
    X: typeof Y.Z<A> | typeof import("m") | import("m").B<C>, ab: cd["f"][ef][], gh: | ij & kl, mn: & op,
    qr: <T,>(a: T) => a is U, st: uv extends wx ? yz extends za ? 1 : 2 : 3;"#,
        want: r#"let a, g, l, n, s, w, B, F, I, J, N, U, V, X, ab, gh, mn, qr, st;
"#,
    },
    // what methods say of `this`
    Case {
        src: "class A { is(): this is B { return true } claim(a): asserts a {} never(a): asserts this is T {} of<const_ extends T = U>(a: typeof this.b): this { return this } }",
        want: r#"class A {
    is() {
        return true;
    }
    claim(a) {}
    never(a) {}
    of(a) {
        return this;
    }
}
"#,
    },
    // words that are names
    Case {
        src: r#"let type: T = 1, as = 2, of = 3, declare: any, abstract, namespace, keyof, infer, is, asserts, async, get, set, readonly, from, global, module, require, unique, any, satisfies_; async(type as any); async<T>(of); async.c; as as as; type = readonly!; get
set
module"#,
        want: r#"let type = 1, as = 2, of = 3, declare, abstract, namespace, keyof, infer, is, asserts, async, get, set, readonly, from, global, module, require, unique, any, satisfies_;
async(type);
async(of);
async.c;
as;
type = readonly;
get;
set;
module;
"#,
    },
    // line breaks after words
    Case {
        src: r#"abstract
class A {}
type
B = 1
declare
let c
namespace
D
{}
a!
!b
a
++b
f()
;[d, e!].g()
async
function h() {}
let i = j
let k"#,
        want: r#"abstract;
class A {}
type;
B = 1;
declare;
let c;
namespace;
D;
{}
a;
!b;
a;
++b;
f();
[d, e].g();
async;
function h() {}
let i = j;
let k;
"#,
    },
    // meta properties and import calls
    Case {
        src: r#"import.meta.url as string; import("m"); x = await import("m" as any, y!); function F(a: T) { if (!new.target) return new (F as any)(a) }"#,
        want: r#"import.meta.url;
import("m");
x = await import("m", y);
function F(a) {
    if (!new.target) return new (F)(a);
}
"#,
    },
    // comments and a hashbang
    Case {
        src: r#"#!/usr/bin/env node
/* a */ let x /* b */ : /* c */ T /* d */ = 1; // e
f(/* g */) /* h
*/ i"#,
        want: r#"#!/usr/bin/env node
let x = 1;
f();
i;
"#,
    },
    // letters beyond ASCII
    Case {
        src: r#"let größe: T = "ä" as any, 変数 = größe!; π<T>(größe, 変数); `ß${größe as T}`"#,
        want: r#"let größe = "ä", 変数 = größe;
π(größe, 変数);
`ß${größe}`;
"#,
    },
    // expressions that begin like declarations
    Case {
        src: "(function () {}); (class {}).a; (async function () {})(); ({}); ({ a } = b); (function f<T>(): T {})<T>(); async () => {}; (async (a: T) => a)(b); let_ = (c, d); yield_: for (;;) break yield_",
        want: r#"(function() {});
(class {}).a;
(async function() {})();
({});
({ a } = b);
(function f() {})();
async () => {};
(async (a) => a)(b);
let_ = (c, d);
yield_: for (;;) break yield_;
"#,
    },
    // conditionals with arrows
    Case {
        src: "a ? (b) : c => d; a ? (b): c => d : e; a ? (b) => c : d; x = a ? (b, c = 1): T => d : e",
        want: r#"a ? (b) : (c) => d;
a ? (b) => d : e;
a ? (b) => c : d;
x = a ? (b, c = 1) => d : e;
"#,
    },
    // early errors
    Case {
        src: "return a as T; break; continue b; new.target; delete c!; eval = 1; class A { #d: T; #d; e() { this.#f } } ({ __proto__: g, __proto__: h });",
        want: r#"return a;
break;
continue b;
new.target;
delete c;
eval = 1;
class A {
    #d;
    #d;
    e() {
        this.#f;
    }
}
({ __proto__: g, __proto__: h });
"#,
    },
];
