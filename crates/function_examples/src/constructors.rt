//! Expressions behind `super(..)`, and a name that it sets.
use crate::reading::{laid_out, let_go, read};
use ecma_function::{init_this, inject_after_super};
use ecma_print::print_module;
use ecma_tree::{
    Ident, Module, NoMemory, Node, Nodes, PassError, Session, SyntaxContext, copy_node,
};
use std::alloc::Global;
use std::mem;
use std::test::Fail;

/// The expressions of the statements of a module.
fn exprs_of(alloc: Global, tree: &Module) -> Result<Nodes, NoMemory> {
    let mut exprs = Nodes::new(alloc);
    if let Some(list) = tree.children.get(0) {
        for stmt in list.children.as_slice() {
            if let Some(e) = stmt.children.get(0) {
                exprs.push(copy_node(alloc, e)?)?;
            }
        }
    }
    Ok(exprs)
}

/// The first child that is there of the child at an index.
fn first_of(node: &mut Node, index: usize) -> Option<&mut Node> {
    if node.children.len() <= index {
        return None;
    }
    let child = node.children.get_mut(index);
    if child.children.is_empty() {
        return None;
    }
    Some(child.children.get_mut(0))
}

/// Puts expressions behind `super(..)` in the constructor that is the only member of a module's only class.
fn inject(
    alloc: Global,
    session: &mut Session,
    tree: &mut Module,
    exprs: Nodes,
) -> Result<(), PassError> {
    let Some(decl) = first_of(tree, 0) else {
        return Ok(());
    };
    if decl.children.len() <= 1 {
        return Ok(());
    }
    match first_of(decl.children.get_mut(1), 1) {
        Some(constructor) => inject_after_super(alloc, session, constructor, exprs),
        None => Ok(()),
    }
}

/// The expressions of a text.
fn read_exprs(alloc: Global, text: &str) -> Result<Nodes, PassError> {
    let tree = read(alloc, text)?;
    let exprs = exprs_of(alloc, &tree);
    let_go(tree);
    Ok(exprs?)
}

/// The class of a constructor with expressions behind `super(..)`, in a session with so many contexts; and how many are left.
fn injected(
    alloc: Global,
    left: u32,
    exprs: &str,
    text: &str,
) -> Result<(Vec<u8>, u32), PassError> {
    let mut session = Session::new(left);
    let exprs = read_exprs(alloc, exprs)?;
    let mut tree = read(alloc, text)?;
    let done = inject(alloc, &mut session, &mut tree, exprs);
    let text = print_module(alloc, &tree);
    let_go(tree);
    done?;
    Ok((text?, session.left()))
}

/// Bodies of a constructor, how many contexts are drawn, and what the body becomes with `a` and `b()` behind `super(..)`.
const CONSTRUCTORS: [(&str, u32, &str); 15] = [
    ("super();", 0, "super(); a; b();"),
    (
        "\"use strict\"; c(); import(\"m\");",
        0,
        "\"use strict\"; a; b(); c(); import(\"m\");",
    ),
    ("", 0, "a; b();"),
    (
        "if (c) super(1); d();",
        1,
        "var _temp; if (c) _temp = super(1), a, b(), _temp; d();",
    ),
    (
        "if (c) { super(); } else { super(2); }",
        0,
        "if (c) { super(); a; b(); } else { super(2); a; b(); }",
    ),
    (
        "f(super());",
        1,
        "var _temp; f((_temp = super(), a, b(), _temp));",
    ),
    (
        "f(super(), super());",
        2,
        "var _temp; var _temp; f((_temp = super(), a, b(), _temp), (_temp = super(), a, b(), _temp));",
    ),
    (
        "(super());",
        1,
        "var _temp; (_temp = super(), a, b(), _temp);",
    ),
    (
        "const f = () => { super(); }; f();",
        0,
        "const f = () => { super(); a; b(); }; f();",
    ),
    (
        "const f = () => super(); f();",
        1,
        "var _temp; const f = () => (_temp = super(), a, b(), _temp); f();",
    ),
    (
        "switch (c) { case 1: super(); }",
        0,
        "switch (c) { case 1: super(); a; b(); }",
    ),
    (
        "class D extends super() { [super()]() {} m() { this.a; } }",
        2,
        "var _temp; var _temp; class D extends (_temp = super(), a, b(), _temp) { [(_temp = super(), a, b(), _temp)]() {} m() { this.a; } }",
    ),
    (
        "super(super());",
        1,
        "var _temp; super((_temp = super(), a, b(), _temp)); a; b();",
    ),
    (
        "{ f(() => { return super(); }); }",
        1,
        "{ f(() => { var _temp; return _temp = super(), a, b(), _temp; }); }",
    ),
    (
        "({ [super()]: 1, get [c]() { return 1; } });",
        1,
        "var _temp; ({ [(_temp = super(), a, b(), _temp)]: 1, get [c]() { return 1; } });",
    ),
];

/// A class with a constructor of this body.
fn class_with(alloc: Global, body: &str) -> Result<String, NoMemory> {
    Ok(format!(in alloc; "class C extends D {{ constructor() {{ {body} }} }}")?)
}

#[test]
fn expressions_stand_behind_calls_of_super(rt: HostRuntime) -> Result<(), Fail> {
    let alloc = rt.alloc();
    for (body, draws, want) in CONSTRUCTORS.iter() {
        let text = class_with(alloc, body)?;
        let (found, left) = injected(alloc, *draws, "a; b();", text.as_str())?;
        let wanted = laid_out(alloc, class_with(alloc, want)?.as_str())?;
        assert_eq!(rt; found.as_slice(), wanted.as_slice(), "at {body}");
        assert_eq!(rt; left, 0, "at {body}");
    }
    Ok(())
}

#[test]
fn one_expression_or_none_stands_behind_a_call(rt: HostRuntime) -> Result<(), Fail> {
    let alloc = rt.alloc();
    for (exprs, want) in [("a;", "super(); a;"), ("", "super();")] {
        let text = class_with(alloc, "super();")?;
        let (found, _) = injected(alloc, 0, exprs, text.as_str())?;
        let wanted = laid_out(alloc, class_with(alloc, want)?.as_str())?;
        assert_eq!(rt; found.as_slice(), wanted.as_slice(), "at {exprs}");
    }
    Ok(())
}

/// The statements of a module with a name set behind `super(..)`.
fn initialise(alloc: Global, name: &Ident, tree: &mut Module) -> Result<(), NoMemory> {
    if tree.children.is_empty() {
        return Ok(());
    }
    let list = tree.children.get_mut(0);
    let mut stmts = mem::replace(&mut list.children, Nodes::new(alloc)).into_vec();
    init_this(alloc, &mut stmts, name)?;
    list.children = Nodes::from_vec(stmts);
    Ok(())
}

fn initialised(alloc: Global, name: &Ident, text: &str) -> Result<Vec<u8>, PassError> {
    let mut tree = read(alloc, text)?;
    let done = initialise(alloc, name, &mut tree);
    let text = print_module(alloc, &tree);
    let_go(tree);
    done?;
    Ok(text?)
}

/// Statements, and what they become.
const INITIALISED: [(&str, &str); 4] = [
    ("super();", "(super(), _this = this);"),
    ("if (a) b(super(c));", "if (a) b((super(c), _this = this));"),
    (
        "const f = () => super();",
        "const f = () => (super(), _this = this);",
    ),
    (
        "class C extends super() {} a;",
        "class C extends super() {} a;",
    ),
];

#[test]
fn calls_of_super_set_a_name(rt: HostRuntime) -> Result<(), Fail> {
    let alloc = rt.alloc();
    let name = ecma_utils::quote_ident!(alloc, SyntaxContext::empty(), "_this")?;
    for (text, want) in INITIALISED.iter() {
        let found = initialised(alloc, &name, text)?;
        let wanted = laid_out(alloc, want)?;
        assert_eq!(rt; found.as_slice(), wanted.as_slice(), "at {text}");
    }
    Ok(())
}
