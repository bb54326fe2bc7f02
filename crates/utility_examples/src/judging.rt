//! What is judged of expressions. The answers are those of a second implementation of the tables, over acorn's trees, run by node.
//!
//! A row has an expression, in which `a`, `b`, `c`, `d`, `f` and `g` are declared, and its answers: whether it has effects, or is a callee whose
//! call has none; its truth and its Number, each with its purity (`P` pure, `I` maybe not); its text; its type; and how many expressions are left
//! where its value is not wanted. `?` is unknown.
use ecma_judge::{ExprCtx, ExprExt, calc_literal_cost, is_literal, is_simple_pure_expr};
use ecma_number::{BoolValue, JsType, Purity, ToJsString, Value};
use ecma_print::print_module;
use ecma_scope::resolve;
use ecma_text::read_module;
use ecma_tree::{DUMMY_SP, Mark, Module, NoMemory, Node, NodeRef, Nodes, Session, SyntaxContext};
use std::alloc::Global;
use std::process::Abort;
use std::test::Fail;

/// The longest text that is read.
const MOST: usize = 0xffff_ffff;

const NAMES_AND_LITERALS: [(&str, &str); 28] = [
    ("undefined", "none P:false P:NaN \"undefined\" Undefined 0"),
    ("NaN", "none P:false P:NaN \"NaN\" Num 0"),
    ("Infinity", "none P:? P:Infinity \"Infinity\" Num 0"),
    ("-Infinity", "none P:true P:-Infinity ? Num 0"),
    ("-NaN", "none P:false I:? ? Num 0"),
    ("a", "none P:? P:? ? ? 0"),
    ("free", "effects I:? I:? ? ? 1"),
    ("Math", "none P:? P:? ? ? 0"),
    ("this", "none P:? I:? ? ? 0"),
    ("null", "none P:false P:0 \"null\" Null 0"),
    ("true", "none P:true P:1 \"true\" Bool 0"),
    ("false", "none P:false P:0 \"false\" Bool 0"),
    ("0", "none P:false P:0 \"0\" Num 0"),
    ("-0", "none P:false I:? ? Num 0"),
    ("1", "none P:true P:1 \"1\" Num 0"),
    ("-5", "none P:true I:? ? Num 0"),
    ("12n", "none P:true P:? ? ? 0"),
    ("0n", "none P:false P:? ? ? 0"),
    ("0x0Fn", "none P:true P:? ? ? 0"),
    ("\"\"", "none P:false P:0 \"\" Str 0"),
    ("\"a\"", "none P:true P:NaN \"a\" Str 0"),
    ("\" 0x10 \"", "none P:true P:16 \" 0x10 \" Str 0"),
    ("\"1e3\"", "none P:true P:1000 \"1e3\" Str 0"),
    ("\"1.5\"", "none P:true P:? \"1.5\" Str 0"),
    ("\"x\"", "none P:true P:NaN \"x\" Str 0"),
    ("/a/", "none P:true P:? ? Obj 0"),
    ("`a`", "effects I:? I:? ? Str 0"),
    ("`a${b}`", "effects I:? I:? ? Str 0"),
];

const ARRAYS_AND_OBJECTS: [(&str, &str); 28] = [
    ("() => a", "none P:? I:? ? ? 0"),
    ("function () {}", "callee P:true I:? ? Obj 0"),
    ("function (c, d) {}", "callee P:true I:? ? Obj 0"),
    ("function (c) { c }", "none P:true I:? ? Obj 0"),
    ("function (c = 1) {}", "none P:true I:? ? Obj 0"),
    ("class {}", "none P:true I:? ? ? 1"),
    ("class extends a {}", "none P:true I:? ? ? 1"),
    ("class extends free {}", "effects I:true I:? ? ? 1"),
    ("class { [f()] = 1 }", "effects I:true I:? ? ? 1"),
    ("class { c = f() }", "effects I:true I:? ? ? 1"),
    ("class { static c = a }", "none P:true I:? ? ? 1"),
    ("class { static { } }", "none P:true I:? ? ? 1"),
    ("class { static { a } }", "effects I:true I:? ? ? 1"),
    ("[]", "none P:true P:0 \"\" Obj 0"),
    ("[1, , \"a\"]", "none P:true P:NaN \"1,,a\" Obj 0"),
    (
        "[undefined, null, void 0]",
        "none P:true P:NaN \",,\" Obj 0",
    ),
    ("[void f()]", "effects I:true I:? ? Obj 1"),
    ("[5]", "none P:true P:5 \"5\" Obj 0"),
    ("[[1, 2], [3]]", "none P:true P:NaN \"1,2,3\" Obj 0"),
    ("[...a]", "effects I:true I:? ? Obj 1"),
    ("[a]", "none P:true P:? ? Obj 0"),
    (
        "[!0, !\"\", true]",
        "none P:true P:NaN \"true,true,true\" Obj 0",
    ),
    ("[Infinity, NaN, -1]", "none P:true P:? ? Obj 0"),
    ("({})", "none P:true I:? ? ? 0"),
    ("({ a })", "none P:true I:? ? ? 0"),
    ("({ free })", "effects I:true I:? ? ? 1"),
    ("({ a: f() })", "effects I:true I:? ? ? 1"),
    ("({ [f()]: 1 })", "effects I:true I:? ? ? 1"),
];

const CALLS_AND_UNARY: [(&str, &str); 28] = [
    ("({ c: 1, d() {}, get e() {} })", "none P:true I:? ? ? 0"),
    ("({ ...a })", "effects I:true I:? ? ? 1"),
    ("f()", "effects I:? I:? ? ? 1"),
    ("f?.()", "effects I:? I:? ? ? 1"),
    ("new Date()", "effects I:true I:? ? Obj 0"),
    ("new Date(a)", "effects I:true I:? ? Obj 1"),
    ("new a()", "effects I:true I:? ? Obj 1"),
    ("Date()", "none P:? I:? ? ? 1"),
    ("Math.max(a, 1)", "none P:? I:? ? ? 1"),
    ("Math.max(...a)", "effects I:? I:? ? ? 1"),
    ("Math.max(f())", "effects I:? I:? ? ? 1"),
    ("Math[\"max\"](1)", "effects I:? I:? ? ? 1"),
    ("\"abc\".slice(1)", "none P:? I:? ? ? 1"),
    ("\"abc\".slice(f())", "effects I:? I:? ? ? 1"),
    ("\"abc\".replace(a, b)", "effects I:? I:? ? ? 1"),
    ("a.b", "effects I:? I:? ? ? 1"),
    ("a?.b", "effects I:? I:? ? ? 1"),
    ("a[f()]", "effects I:? I:? ? ? 1"),
    ("\"abc\".length", "effects I:? I:? ? Num 1"),
    ("[a, f()].length", "effects I:? I:? ? Num 1"),
    ("f().length", "effects I:? I:? ? ? 1"),
    ("void 0", "none P:false P:NaN \"undefined\" Undefined 0"),
    ("void f()", "effects I:false I:NaN ? Undefined 1"),
    ("typeof a", "none P:? I:? ? Str 0"),
    ("typeof free", "effects I:? I:? ? Str 0"),
    ("typeof f()", "effects I:? I:? ? Str 1"),
    ("delete a.b", "effects I:? I:? ? Bool 1"),
    ("!a", "none P:? I:? ? Bool 0"),
];

const CHOICES_AND_SUMS: [(&str, &str); 28] = [
    ("!f()", "effects I:? I:? ? Bool 1"),
    ("!0", "none P:true P:1 \"true\" Bool 0"),
    ("-a", "none P:? I:? ? Num 0"),
    ("-\"3\"", "none P:true I:? ? Num 0"),
    ("-[7]", "none P:true I:? ? Num 0"),
    ("+a", "none P:? I:? ? Num 0"),
    ("~a", "none P:? I:? ? Num 0"),
    ("a++", "effects I:? I:? ? Num 1"),
    ("a = 1", "effects I:true I:? ? Num 1"),
    ("a = \"\"", "effects I:false I:? ? Str 1"),
    ("a = f()", "effects I:? I:? ? ? 1"),
    ("a += \"b\"", "effects I:? I:? ? Str 1"),
    ("a += 1", "effects I:? I:? ? ? 1"),
    ("a ||= \"b\"", "effects I:? I:? ? ? 1"),
    ("a, 0", "none P:false I:0 ? Num 0"),
    ("f(), \"a\"", "effects I:true I:NaN ? Str 1"),
    ("a ? 1 : 2", "none P:? I:? ? Num 1"),
    ("a ? \"b\" : \"c\"", "none P:? I:? ? Str 1"),
    ("f() ? \"\" : 1", "effects I:? I:? ? ? 1"),
    ("a || b", "none P:? I:? ? ? 1"),
    ("a || true", "none P:true I:? ? ? 1"),
    ("1 || f()", "effects P:true I:? ? ? 1"),
    ("f() || 0", "effects I:? I:? ? ? 1"),
    ("a && b", "none P:? I:? ? ? 1"),
    ("a && false", "none P:false I:? ? ? 1"),
    ("0 && f()", "effects P:false I:? ? ? 1"),
    ("a ?? b", "none P:? I:? ? ? 1"),
    ("a + b", "none P:? I:? ? ? 0"),
];

const ARITHMETIC: [(&str, &str); 28] = [
    ("a + \"b\"", "none P:true I:? ? Str 0"),
    ("f() + \"b\"", "effects I:true I:? ? Str 1"),
    ("a + \"\"", "none P:? I:? ? Str 0"),
    ("\"\" + 1", "none P:? I:? ? Str 0"),
    ("1 + 2", "none P:? I:? ? Num 0"),
    ("true + null", "none P:? I:? ? Num 0"),
    ("undefined + 1", "none P:? I:? ? Num 0"),
    ("1 - 1", "none P:false I:? ? Num 0"),
    ("2 - \"1\"", "none P:true I:? ? Num 0"),
    ("[3] - 1", "none P:true I:? ? Num 0"),
    ("a - b", "none P:? I:? ? Num 0"),
    ("f() - 1", "effects I:? I:? ? Num 1"),
    ("NaN - 1", "none P:false I:? ? Num 0"),
    ("Infinity - Infinity", "none P:false I:? ? Num 0"),
    ("1 / 0", "none P:true I:? ? Num 0"),
    ("0 / 0", "none P:false I:? ? Num 0"),
    ("0 / 5", "none P:false I:? ? Num 0"),
    ("5 / 2", "none P:true I:? ? Num 0"),
    ("1 / Infinity", "none P:false I:? ? Num 0"),
    ("Infinity / Infinity", "none P:false I:? ? Num 0"),
    ("-Infinity / 2", "none P:true I:? ? Num 0"),
    ("a / 2", "none P:? I:? ? Num 0"),
    ("true & false", "none P:false I:? ? Num 0"),
    ("true & a", "none P:? I:? ? Num 0"),
    ("!a & false", "none P:false I:? ? Num 0"),
    ("true | f()", "effects I:? I:? ? Num 1"),
    ("!f() | !0", "effects I:true I:? ? Num 1"),
    ("a < b", "none P:? I:? ? Bool 0"),
];

const MEMBERS: [(&str, &str); 28] = [
    ("a in b", "none P:? I:? ? Bool 0"),
    ("a instanceof b", "none P:? I:? ? Bool 0"),
    ("a === f()", "effects I:? I:? ? Bool 1"),
    ("a ** 2", "none P:? I:? ? Num 0"),
    ("(a)", "none P:? I:? ? ? 0"),
    ("(f())", "effects I:? I:? ? ? 1"),
    ("((0))", "none P:false I:? ? ? 0"),
    ("(function () {})()", "effects I:? I:? ? ? 1"),
    ("(class { static get c() {} }).c", "effects I:? I:? ? ? 1"),
    ("({ c: 1 }).c", "effects I:? I:? ? ? 1"),
    ("a`b`", "effects I:? I:? ? ? 1"),
    ("import.meta", "effects I:? I:? ? ? 1"),
    ("class {}.y", "none P:? I:? ? ? 1"),
    ("class extends a {}.y", "effects I:? I:? ? ? 1"),
    ("class { static get c() {} }.c", "effects I:? I:? ? ? 1"),
    ("class { get c() {} }.c", "none P:? I:? ? ? 1"),
    ("class { static set #c(d) {} }.c", "effects I:? I:? ? ? 1"),
    ("{ c: 1 }.c", "none P:? I:? ? ? 1"),
    ("{ c: 1 }[f()]", "effects I:? I:? ? ? 1"),
    ("{ c: 1 }[\"c\"]", "none P:? I:? ? ? 1"),
    ("{ c: f() }.c", "effects I:? I:? ? ? 1"),
    ("{ __proto__: a }.c", "effects I:? I:? ? ? 1"),
    ("{ \"__proto__\": a }.c", "effects I:? I:? ? ? 1"),
    ("{ c() {} }.c", "effects I:? I:? ? ? 1"),
    ("{ get c() {} }.c", "effects I:? I:? ? ? 1"),
    ("{ [a]: 1 }.c", "effects I:? I:? ? ? 1"),
    ("{ ...a }.c", "effects I:? I:? ? ? 1"),
    ("function () {}.name", "none P:? I:? ? ? 1"),
];

fn read(alloc: Global, text: &str) -> Option<Module> {
    if MOST < text.len() {
        return None;
    }
    read_module(alloc, text).ok()
}

fn source(alloc: Global, expr: &str) -> Result<String, NoMemory> {
    let mut text = String::from_str(alloc, "let a, b, c, d, f, g;\n(")?;
    text.push_str(expr)?;
    text.push_str(");\n")?;
    Ok(text)
}

/// The module, resolved, and the context of names that it does not declare.
fn resolved(alloc: Global, expr: &str) -> Option<(Module, SyntaxContext)> {
    let text = source(alloc, expr).ok()?;
    let mut module = read(alloc, text.as_str())?;
    let mut session = Session::new(1000);
    let unresolved: Mark = session.fresh_mark().ok()?;
    let top = session.fresh_mark().ok()?;
    resolve(alloc, &mut session, &mut module, unresolved, top).ok()?;
    Some((module, SyntaxContext::empty().apply_mark(unresolved)))
}

/// The expression in the parentheses of the second statement.
fn expr_in(module: &Module) -> Option<&Node> {
    let stmt = module.children.get(0)?.children.get(1)?;
    stmt.children.get(0)?.children.get(0)
}

fn purity_text(purity: Purity) -> &'static str {
    match purity {
        Purity::Pure => " P:",
        Purity::MayBeImpure => " I:",
    }
}

fn bool_text(value: BoolValue) -> &'static str {
    match value {
        Value::Known(true) => "true",
        Value::Known(false) => "false",
        Value::Unknown => "?",
    }
}

fn type_text(value: Value<JsType>) -> &'static str {
    match value {
        Value::Known(JsType::Undefined) => "Undefined",
        Value::Known(JsType::Null) => "Null",
        Value::Known(JsType::Bool) => "Bool",
        Value::Known(JsType::Str) => "Str",
        Value::Known(JsType::Symbol) => "Symbol",
        Value::Known(JsType::Num) => "Num",
        Value::Known(JsType::Obj) => "Obj",
        Value::Unknown => "?",
    }
}

fn effects_text(ctx: &ExprCtx, expr: &Node) -> &'static str {
    if expr.is_pure_callee(ctx) {
        return "callee";
    }
    if expr.may_have_side_effects(ctx) {
        return "effects";
    }
    "none"
}

fn push_truth(alloc: Global, ctx: &ExprCtx, expr: &Node, out: &mut String) -> Result<(), NoMemory> {
    let (purity, value) = expr.cast_to_bool(alloc, ctx)?;
    out.push_str(purity_text(purity))?;
    out.push_str(bool_text(value))?;
    Ok(())
}

fn push_number(
    alloc: Global,
    ctx: &ExprCtx,
    expr: &Node,
    out: &mut String,
) -> Result<(), NoMemory> {
    let (purity, value) = expr.cast_to_number(alloc, ctx)?;
    out.push_str(purity_text(purity))?;
    match value {
        Value::Known(number) => out.push_str(number.to_js_string(alloc)?.as_str())?,
        Value::Unknown => out.push_str("?")?,
    }
    Ok(())
}

fn push_text(alloc: Global, ctx: &ExprCtx, expr: &Node, out: &mut String) -> Result<(), NoMemory> {
    match expr.as_pure_string(alloc, ctx)? {
        Value::Known(text) => {
            out.push_str(" \"")?;
            out.push_str(text.as_str())?;
            out.push_str("\" ")?;
        }
        Value::Unknown => out.push_str(" ? ")?,
    }
    Ok(())
}

fn count_text(count: usize) -> &'static str {
    match count {
        0 => " 0",
        1 => " 1",
        _ => " 2",
    }
}

fn answers(alloc: Global, ctx: &ExprCtx, expr: &Node) -> Result<String, NoMemory> {
    let mut out = String::from_str(alloc, effects_text(ctx, expr))?;
    push_truth(alloc, ctx, expr, &mut out)?;
    push_number(alloc, ctx, expr, &mut out)?;
    push_text(alloc, ctx, expr, &mut out)?;
    out.push_str(type_text(expr.get_type(ctx)))?;
    Ok(out)
}

fn context(unresolved_ctxt: SyntaxContext) -> ExprCtx {
    ExprCtx {
        unresolved_ctxt,
        is_unresolved_ref_safe: false,
    }
}

/// What is left of an expression whose value is not wanted.
fn left_of(alloc: Global, ctx: &ExprCtx, expr: &Node) -> Option<Nodes> {
    let mut left = Nodes::new(alloc);
    let copy = ecma_tree::copy_expr(alloc, expr).ok()?;
    ctx.extract_side_effects_to(alloc, &mut left, copy).ok()?;
    Some(left)
}

fn line(alloc: Global, text: &str) -> Option<String> {
    let (module, unresolved) = resolved(alloc, text)?;
    let ctx = context(unresolved);
    let expr = expr_in(&module)?;
    let mut line = answers(alloc, &ctx, expr).ok()?;
    let left = left_of(alloc, &ctx, expr)?;
    line.push_str(count_text(left.len())).ok()?;
    Some(line)
}

fn compare(rt: &impl Abort, alloc: Global, rows: &[(&str, &str)]) -> Result<(), Fail> {
    for (text, want) in rows {
        match line(alloc, text) {
            Some(found) => assert_eq!(rt; found.as_str(), *want),
            None => assert_eq!(rt; *text, "an expression"),
        }
    }
    Ok(())
}

#[test]
fn names_and_literals_are_judged(rt: HostRuntime) -> Result<(), Fail> {
    compare(&rt, rt.alloc(), NAMES_AND_LITERALS.as_slice())
}

#[test]
fn arrays_and_objects_are_judged(rt: HostRuntime) -> Result<(), Fail> {
    compare(&rt, rt.alloc(), ARRAYS_AND_OBJECTS.as_slice())
}

#[test]
fn calls_and_unary_operators_are_judged(rt: HostRuntime) -> Result<(), Fail> {
    compare(&rt, rt.alloc(), CALLS_AND_UNARY.as_slice())
}

#[test]
fn choices_and_sums_are_judged(rt: HostRuntime) -> Result<(), Fail> {
    compare(&rt, rt.alloc(), CHOICES_AND_SUMS.as_slice())
}

#[test]
fn arithmetic_is_judged(rt: HostRuntime) -> Result<(), Fail> {
    compare(&rt, rt.alloc(), ARITHMETIC.as_slice())
}

#[test]
fn members_are_judged(rt: HostRuntime) -> Result<(), Fail> {
    compare(&rt, rt.alloc(), MEMBERS.as_slice())
}

/// Whether expressions with types may have effects, and some whose parts do not.
const EFFECTS: [(&str, &str); 8] = [
    ("f() as const", "effects"),
    ("f()!", "effects"),
    ("a as any", "none"),
    ("0, a", "none"),
    ("delete a.b", "effects"),
    ("{ x }", "effects"),
    ("x => y", "none"),
    ("(class extends a {}).y", "effects"),
];

#[test]
fn types_are_looked_through(rt: HostRuntime) -> Result<(), Fail> {
    for (text, want) in EFFECTS {
        match resolved(rt.alloc(), text) {
            Some((module, unresolved)) => match expr_in(&module) {
                Some(expr) => assert_eq!(rt; effects_text(&context(unresolved), expr), want),
                None => assert_eq!(rt; text, "an expression"),
            },
            None => assert_eq!(rt; text, "a module"),
        }
    }
    Ok(())
}

/// What is left of expressions whose values are not wanted, as it is printed.
const LEFT: [(&str, &str); 13] = [
    ("f(), 2, delete a.b", "f();\ndelete a.b;\n"),
    ("[f(), 1]", "f();\n"),
    ("[...a]", "[...a];\n"),
    ("typeof (free)", ""),
    ("f() as const", "f();\n"),
    ("{ ...a, c: f(), d: 1 }", "({ ...a, c: f() });\n"),
    ("{ free, [f()]: g() }", "free;\nf();\ng();\n"),
    ("`a${f()}${b}`", "f();\n"),
    ("!f()", "f();\n"),
    ("a && f()", "a && f();\n"),
    ("f() + g()", "f();\ng();\n"),
    ("new Date()", ""),
    ("a`b`", "a`b`;\n"),
];

fn printed(alloc: Global, exprs: Nodes) -> Result<Vec<u8>, NoMemory> {
    let mut stmts = Nodes::new(alloc);
    for expr in exprs.into_vec() {
        stmts.push(Node::expr_stmt(alloc, DUMMY_SP, expr)?)?;
    }
    let module = Node::module(alloc, DUMMY_SP, None, stmts)?;
    print_module(alloc, &module)
}

fn left_text(alloc: Global, text: &str) -> Option<Vec<u8>> {
    let (module, unresolved) = resolved(alloc, text)?;
    let expr = expr_in(&module)?;
    let left = left_of(alloc, &context(unresolved), expr)?;
    printed(alloc, left).ok()
}

#[test]
fn effects_are_left(rt: HostRuntime) -> Result<(), Fail> {
    for (text, want) in LEFT {
        match left_text(rt.alloc(), text) {
            Some(found) => assert_eq!(rt; found.as_slice(), want.as_bytes()),
            None => assert_eq!(rt; text, "an expression"),
        }
    }
    Ok(())
}

/// `1` behind the effects of the parts of a sequence.
fn preserved(alloc: Global, text: &str) -> Option<Vec<u8>> {
    let (module, unresolved) = resolved(alloc, text)?;
    let parts = ecma_tree::copy_expr(alloc, expr_in(&module)?).ok()?;
    let one = read(alloc, "1;")?;
    let val = ecma_tree::copy_expr(
        alloc,
        one.children.get(0)?.children.get(0)?.children.get(0)?,
    );
    let ctx = context(unresolved);
    let whole = ctx.preserve_effects(alloc, DUMMY_SP, val.ok()?, parts.children);
    let exprs = Nodes::from_array(alloc, [whole.ok()?]).ok()?;
    printed(alloc, exprs).ok()
}

/// Sequences, and `1` behind their effects.
const PRESERVED: [(&str, &str); 2] = [
    ("f(), 2, delete a.b", "f(), delete a.b, 1;\n"),
    ("a, 2, Math", "1;\n"),
];

#[test]
fn effects_are_preserved(rt: HostRuntime) -> Result<(), Fail> {
    for (text, want) in PRESERVED {
        match preserved(rt.alloc(), text) {
            Some(found) => assert_eq!(rt; found.as_slice(), want.as_bytes()),
            None => assert_eq!(rt; text, "an expression"),
        }
    }
    Ok(())
}

/// Literals with what they cost, as the values of JSON alone and beyond, and what is none: by the table of costs, counted by hand.
const COSTS: [(&str, (bool, usize), (bool, usize)); 10] = [
    ("[1, \"a\", null]", (true, 5), (true, 5)),
    ("{ a: 1, \"bc\": [2], 3: true }", (true, 18), (true, 18)),
    ("[, 1]", (false, 0), (true, 4)),
    ("[1.5]", (false, 0), (true, 3)),
    ("(((1n)))", (true, 0), (true, 0)),
    ("`a`", (true, 0), (true, 0)),
    ("`a${b}`", (false, 0), (false, 0)),
    ("{ a }", (false, 0), (false, 0)),
    ("{ 1n: 1 }", (false, 0), (false, 0)),
    ("[1, [2, a]]", (false, 0), (false, 0)),
];

#[test]
fn literals_cost(rt: HostRuntime) -> Result<(), Fail> {
    for (text, json, beyond) in COSTS {
        if let Some((module, _)) = resolved(rt.alloc(), text) {
            if let Some(expr) = expr_in(&module) {
                assert_eq!(rt; calc_literal_cost(NodeRef::Expr(expr), false), json);
                assert_eq!(rt; calc_literal_cost(NodeRef::Expr(expr), true), beyond);
                assert_eq!(rt; is_literal(NodeRef::Expr(expr)), beyond.0);
                continue;
            }
        }
        assert_eq!(rt; text, "an expression");
    }
    Ok(())
}

/// Whether expressions are simple, where getters are not taken for pure and where they are.
const SIMPLE: [(&str, (bool, bool)); 7] = [
    ("a", (true, true)),
    ("void !this", (true, true)),
    ("-1", (false, false)),
    ("this.a", (false, true)),
    ("this[a].b", (false, true)),
    ("a[f()]", (false, false)),
    ("(a)", (false, false)),
];

#[test]
fn some_expressions_are_simple(rt: HostRuntime) -> Result<(), Fail> {
    for (text, want) in SIMPLE {
        if let Some((module, _)) = resolved(rt.alloc(), text) {
            if let Some(expr) = expr_in(&module) {
                let found = (
                    is_simple_pure_expr(expr, false),
                    is_simple_pure_expr(expr, true),
                );
                assert_eq!(rt; found, want);
                continue;
            }
        }
        assert_eq!(rt; text, "an expression");
    }
    Ok(())
}
