//! Statements, functions and classes, and what is written for them: the trees are those that TypeScript makes of them, the bytes are by hand.
use super::Case;

pub(super) const STATEMENTS: [Case; 36] = [
    Case {
        src: "let x: number = f(1);",
        want: r#"let x = f(1);
"#,
    },
    Case { src: "", want: "" },
    Case {
        src: "a?.b!.c; (<any>a).b; f<T>(x) ; a < b > c; f<T> || g",
        want: r#"a?.b.c;
(a).b;
f(x);
a < b > c;
f || g;
"#,
    },
    Case {
        src: "enum E { A =",
        want: r#"error: Syntax at 12
"#,
    },
    Case {
        src: "let a; let a;",
        want: r#"error: Redeclared a
"#,
    },
    Case {
        src: r#"type T = a.b; const s: T = "x" as T; log.info(s, 1,);"#,
        want: r#"const s = "x";
log.info(s, 1);
"#,
    },
    Case {
        src: "enum E {}",
        want: r#"error: Syntax at 0
"#,
    },
    Case {
        src: "(-1) ** 2; -(-1); ({}).a; (() => ({}))",
        want: r#"(-1) ** 2;
-(-1);
({}).a;
(() => ({}));
"#,
    },
    Case {
        src: "if (a) b; else c; do d(); while (e)",
        want: r#"if (a) b;
else c;
do d();
while (e);
"#,
    },
    Case {
        src: "interface f { g<T>(this: f, a?: T): asserts a is T } let k: { [x: string]: (a) => void }[] = <any>f(1)!;",
        want: r#"let k = f(1);
"#,
    },
    Case {
        src: "{ declare const f: any; f(); } let f = 1;",
        want: r#"{
    f();
}
let f1 = 1;
"#,
    },
    Case {
        src: "function g(a) { let a; }",
        want: r#"error: Redeclared a
"#,
    },
    Case {
        src: r#"interface User { id: number; name?: string }
type Key = string | number;
const cache: Map<Key, User> = new Map<Key, User>();
class UserService {
    private hits: number = 0;
    static readonly limit = 10 as const;
    constructor(store: Store, log: Logger = new Logger("users")) {
        this.log.info(`start ${clock()}`); // first line
    }
    find(id: number): User | undefined;
    find(id: Key): User | undefined {
        const hit = cache.get(id);
        if (hit) {
            this.hits++;
            return hit;
        }
        const user = this.store.load(id)!;
        cache.set(id, user as User);
        return user;
    }
    role(user?: User): Role {
        return user?.name === "root" ? Role.Admin : Role.Guest;
    }
}
const names = <T extends User>(list: T[]): string[] => list.map((u) => u.name ?? "?");
declare const DEBUG: boolean;
if (DEBUG) console.log(Role[Role.Member]);"#,
        want: r#"const cache = new Map();
class UserService {
    hits = 0;
    static limit = 10;
    constructor(store, log = new Logger("users")) {
        this.log.info(`start ${clock()}`);
    }
    find(id) {
        const hit = cache.get(id);
        if (hit) {
            this.hits++;
            return hit;
        }
        const user = this.store.load(id);
        cache.set(id, user);
        return user;
    }
    role(user) {
        return user?.name === "root" ? Role.Admin : Role.Guest;
    }
}
const names = (list) => list.map((u) => u.name ?? "?");
if (DEBUG) console.log(Role[Role.Member]);
"#,
    },
    // variables
    Case {
        src: r#"var a: number, b = 1 as const; let c!: T, [d, , e = 2, ...f]: T[] = g; const { h, i: j, k = 3 as number, [l]: m, "n": o, 7: p, ...q }: { h: any } = r;"#,
        want: r#"var a, b = 1;
let c, [d, , e = 2, ...f] = g;
const { h, i: j, k = 3, [l]: m, "n": o, 7: p, ...q } = r;
"#,
    },
    // holes
    Case {
        src: "let [] = a, [,] = b, [c, ,]: T = d, {} = e; [, ,]; [f!, ,]; [, g as T]",
        want: r#"let [] = a, [,] = b, [c, ,] = d, {} = e;
[, ,];
[f, ,];
[, g];
"#,
    },
    // empty statements
    Case {
        src: ";;a;{ b;; ; } ; {}",
        want: r#"a;
{
    b;
}
{}
"#,
    },
    // branches
    Case {
        src: "if (a as any) { b } else if (c!) d; else { } if (e) ; else ; if (f) { if (g) h } else { i } if (j) { k } else l",
        want: r#"if (a) {
    b;
} else if (c) d;
else {}
if (e) ;
else ;
if (f) {
    if (g) h;
} else {
    i;
}
if (j) {
    k;
} else l;
"#,
    },
    // loops
    Case {
        src: r#"for (let i: number = 0, j = <any>1; i < n!; i++, j--) f(i); for (;;) { break } for (const k in o as any) ; for (var [x, y] of <any>z) { continue }
while (a as any) b; do { c } while (d!) do e; while (f)"#,
        want: r#"for (let i = 0, j = 1; i < n; i++, j--) f(i);
for (;;) {
    break;
}
for (const k in o) ;
for (var [x, y] of z) {
    continue;
}
while (a) b;
do {
    c;
} while (d);
do e;
while (f);
"#,
    },
    // heads of loops
    Case {
        src: r#"for (let x = ("a" in b); ;) ; for (a as any, b; c!, d; ) ; for (e.f in g) ; for ((h as any).i of j!) k; for ([l, m = 1] of n) ; for ({ o, p: q } of r) ; for (s in t, u) ; for (v of w as T[]) for (y in z) break"#,
        want: r#"for (let x = ("a" in b);;) ;
for (a, b; c, d;) ;
for (e.f in g) ;
for ((h).i of j) k;
for ([l, m = 1] of n) ;
for ({ o, p: q } of r) ;
for (s in t, u) ;
for (v of w) for (y in z) break;
"#,
    },
    // for await
    Case {
        src: "for await (const x of f<T>() as any) g(x); async () => { for await (y.z of w!) ; }",
        want: r#"for await (const x of f()) g(x);
async () => {
    for await (y.z of w) ;
};
"#,
    },
    // switch
    Case {
        src: r#"switch (a as T) { case 1 as any: case "b": { c } break; default: let d: T = 1; ; e(d) } switch (f!) {} switch (g) { default: }"#,
        want: r#"switch (a) {
    case 1:
    case "b":
        {
            c;
        }
        break;
    default:
        let d = 1;
        e(d);
}
switch (f) {}
switch (g) {
    default:
}
"#,
    },
    // try
    Case {
        src: "try { a } catch { b } finally { c } try { d } catch (e: unknown) { f(e as Error) } try {} catch ({ message: m, ...n }: any) { g(m, n) } try { } finally { h!() }",
        want: r#"try {
    a;
} catch {
    b;
} finally {
    c;
}
try {
    d;
} catch (e) {
    f(e);
}
try {} catch ({ message: m, ...n }) {
    g(m, n);
}
try {} finally {
    h();
}
"#,
    },
    // labels
    Case {
        src: r#"a: for (;;) { b: { break b } continue a } c: d(); e: f: while (g!) { continue e }
debugger; throw h as Error"#,
        want: r#"a: for (;;) {
    b: {
        break b;
    }
    continue a;
}
c: d();
e: f: while (g) {
    continue e;
}
debugger;
throw h;
"#,
    },
    // functions
    Case {
        src: r#"function f<T extends U = V>(a: T, b?: number, c: string = "d", { e, f: g = 1 }: { e: T } = <any>{}, [h]: T[] = [], ...i: T[]): asserts a is T { return }"#,
        want: r#"function f(a, b, c = "d", { e, f: g = 1 } = {}, [h] = [], ...i) {
    return;
}
"#,
    },
    // overloads, async functions and generators
    Case {
        src: r#"function g(a: string): void; function g(a: number): void; function g(a: any) { } async function h(): Promise<void> { await (a as any); return <any>a, b }
function* i(): Iterable<T> { const x: T = yield; yield <any>1; yield* j!() } async function* k() { yield await l; yield
m }"#,
        want: r#"function g(a) {}
async function h() {
    await (a);
    return a, b;
}
function* i() {
    const x = yield;
    yield 1;
    yield* j();
}
async function* k() {
    yield await l;
    yield;
    m;
}
"#,
    },
    // arrow functions
    Case {
        src: "const a = <T,>(x: T): T => x, b = async <U>(y?: U): Promise<U> => await y!, c = z => z as any, d = (): void => {}, e = ([p, q]: T[], { r }: any = {}, ...s: any[]) => ({ p } as any), f = async w => { }, g = (x): x is string => <any>{ x }, h = () => () => function () {};",
        want: r#"const a = (x) => x, b = async (y) => await y, c = (z) => z, d = () => {}, e = ([p, q], { r } = {}, ...s) => ({ p }), f = async (w) => {}, g = (x) => ({ x }), h = () => () => function() {};
"#,
    },
    // function expressions
    Case {
        src: "x = function <T>(a: T): void {}; (function n<T>(): T { return n<T>() })(); y = async function* (): any { }; z = function* m(b?: T) { }; w = async function (c = <T>d) {}",
        want: r#"x = function(a) {};
(function n() {
    return n();
})();
y = async function*() {};
z = function* m(b) {};
w = async function(c = d) {};
"#,
    },
    // blocks inside expressions
    Case {
        src: "{ f(function () { return { a() { return 1 }, b: [() => { c }] } }, (b: T) => { c }); }",
        want: r#"{
    f(function() {
        return { a() {
            return 1;
        }, b: [() => {
            c;
        }] };
    }, (b) => {
        c;
    });
}
"#,
    },
    // abstract classes, fields and index signatures
    Case {
        src: r#"abstract class A<T> extends b.B<T> implements D<T>, E.F {
    abstract a(): void; abstract b: T; abstract get c(): T; protected abstract readonly d?: T;
    private e: T = 1 as any; public static readonly f?: T; declare g: T; declare readonly h: T; i!: T; j?: T;
    override k(): void {} readonly l = 1; protected m?; [n: string]: T; static [o: string]: T; readonly [p: number]: T;
}"#,
        want: r#"class A extends b.B {
    e = 1;
    static f;
    i;
    j;
    k() {}
    l = 1;
    m;
}
"#,
    },
    // keys of members
    Case {
        src: r#"class A { ; "a" = 1; 2: T; [b as any]: T = 3; #c?: T; static #d: T = 4; "e"(): void {} 5() {} [f!]<T>(x: T) {} #g(): T { return this.#c! } static #h() { return #c in (this as any) } }"#,
        want: r#"class A {
    ;
    "a" = 1;
    2;
    [b] = 3;
    #c;
    static #d = 4;
    "e"() {}
    5() {}
    [f](x) {}
    #g() {
        return this.#c;
    }
    static #h() {
        return #c in (this);
    }
}
"#,
    },
    // accessors, generators and static blocks
    Case {
        src: r#"class A {
    get a(): T { return 1 } set a(v: T) {} static get b() { return 2 } static set b(v) {} get #c(): T { return 3 }
    *d(): any {} async e(): Promise<void> {} async *f() {} static async g() {} static *h() {} static async *#i() {}
    get; set; static; async; get j() { return new.target } static static() {} get() {} static { let x: T = 1; this.y = x as any; } static {}
}"#,
        want: r#"class A {
    get a() {
        return 1;
    }
    set a(v) {}
    static get b() {
        return 2;
    }
    static set b(v) {}
    get #c() {
        return 3;
    }
    *d() {}
    async e() {}
    async *f() {}
    static async g() {}
    static *h() {}
    static async *#i() {}
    get;
    set;
    static;
    async;
    get j() {
        return new.target;
    }
    static static() {}
    get() {}
    static {
        let x = 1;
        this.y = x;
    }
    static {}
}
"#,
    },
    // parameters `this`
    Case {
        src: "function f(this: A, b) { return this.c + b; } class D { m(this: D) { return 1; } set v(this: D, x) {} } let o = { set s(this: any, x) {} };",
        want: r#"function f(b) {
    return this.c + b;
}
class D {
    m() {
        return 1;
    }
    set v(x) {}
}
let o = { set s(x) {} };
"#,
    },
    // fields whose names are modifiers
    Case {
        src: "class A { declare; readonly; public; private = 1; abstract() {} override: T; static declare; static readonly() {} public static override static; private async; protected get?: T }",
        want: r#"class A {
    declare;
    readonly;
    public;
    private = 1;
    abstract() {}
    override;
    static declare;
    static readonly() {}
    static static;
    async;
    get;
}
"#,
    },
    // constructors
    Case {
        src: r#"class A extends B { constructor(a: string); constructor(a: number, b?: T); constructor(a: any, b?: any) { super(a as any); super.m<T>(b!); (super.n as any) = 1; super["o"]++ } }
class C { private constructor() { } protected static make?(): C }"#,
        want: r#"class A extends B {
    constructor(a, b) {
        super(a);
        super.m(b);
        (super.n) = 1;
        super["o"]++;
    }
}
class C {
    constructor() {}
}
"#,
    },
    // class expressions
    Case {
        src: "const a = class {}, b = class B<T> extends (c as any) implements D {}, e = class extends f<T>() {}; (class {}).g; new (class { h = 1 as const }); x = class<T> { y?: T }",
        want: r#"const a = class {}, b = class B extends (c) {}, e = class extends f() {};
(class {}).g;
new (class {
    h = 1;
});
x = class {
    y;
};
"#,
    },
    // enums and namespaces that go with the types
    Case {
        src: r#"declare enum E { A = 1 }
declare const enum F { B = f() }
declare module "m" { import { a } from "n"; export default function g(): void; export = a; }
declare module "o";
declare global { interface Window { a: T } let h: T; }
declare namespace N.M { class C { constructor(a: T); } export { C } }
namespace P { export interface I {} export type T = 1; namespace Q { type U = I } }
namespace R.S { type T = 1; }
class A {} namespace A { export interface B {} }
let R = k(N.a, E.A, h);"#,
        want: r#"class A {}
let R = k(N.a, E.A, h);
"#,
    },
];
