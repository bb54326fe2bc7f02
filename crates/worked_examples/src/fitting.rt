//! Small trees that fit and that do not, by `ecma_fits`.
use ecma_fits::{first_unfit, fits};
use ecma_number::{JsNumber, SafeInt};
use ecma_tree::{AssignOp, JsWord, Kind, NoMemory, Node, Nodes, Span, SyntaxContext};
use std::alloc::Global;
use std::test::Fail;

/// A statement of a small module.
#[derive(Clone, Copy)]
enum Case {
    /// A name.
    Name(&'static str),
    /// A whole number without source text.
    Whole(i64),
    /// `if (a) if (b) c; else d; else e`, with the first `else` or without it.
    Choice(bool),
    /// `[a] = b`, with a pattern or with a literal.
    Assignment(bool),
    /// A text by its source text, and what it says.
    Text(&'static str, &'static str),
    /// A BigInt by its source text, and its digits.
    BigInt(&'static str, &'static str),
    /// A regular expression without flags.
    Regex(&'static str),
    /// `a.b.c`, whose second link goes on with a chain, and whose first has its own `?.` or is no link.
    Chain(bool),
}

fn at(lo: u32) -> Span {
    Span { lo, hi: lo }
}

fn ident(alloc: Global, lo: u32, text: &str) -> Result<Node, NoMemory> {
    let kind = Kind::Ident {
        sym: JsWord::new(alloc, text)?,
        ctxt: SyntaxContext::empty(),
        optional: false,
    };
    Ok(Node::leaf(alloc, at(lo), kind))
}

fn whole(alloc: Global, number: i64) -> Node {
    let value = SafeInt::new(number).map(JsNumber::Whole);
    Node::leaf(alloc, at(2), Kind::Number { value, raw: None })
}

fn statement(alloc: Global, lo: u32, text: &str) -> Result<Node, NoMemory> {
    Node::expr_stmt(alloc, at(lo), ident(alloc, lo, text)?)
}

fn choice(alloc: Global, has_else: bool) -> Result<Node, NoMemory> {
    let alt = if has_else {
        Some(statement(alloc, 20, "d")?)
    } else {
        None
    };
    let test = ident(alloc, 11, "b")?;
    let inner = Node::if_stmt(alloc, at(7), test, statement(alloc, 14, "c")?, alt)?;
    let alt = Some(statement(alloc, 30, "e")?);
    Node::if_stmt(alloc, at(1), ident(alloc, 4, "a")?, inner, alt)
}

fn assignment(alloc: Global, is_pattern: bool) -> Result<Node, NoMemory> {
    let name = ident(alloc, 2, "a")?;
    let left = if is_pattern {
        let item = Node::binding_ident(alloc, at(2), name, None)?;
        Node::array_pat(alloc, at(1), false, Nodes::from_array(alloc, [item])?, None)?
    } else {
        Node::array_lit(alloc, at(1), Nodes::from_array(alloc, [name])?)?
    };
    let right = ident(alloc, 6, "b")?;
    let whole = Node::assign_expr(alloc, at(1), AssignOp::Assign, left, right)?;
    Node::expr_stmt(alloc, at(1), whole)
}

fn text(alloc: Global, raw: &str, value: &str) -> Result<Node, NoMemory> {
    let value = JsWord::new(alloc, value)?;
    let raw = Some(JsWord::new(alloc, raw)?);
    Ok(Node::leaf(alloc, at(2), Kind::Str { value, raw }))
}

fn big_int(alloc: Global, raw: &str, value: &str) -> Result<Node, NoMemory> {
    let value = JsWord::new(alloc, value)?;
    let raw = Some(JsWord::new(alloc, raw)?);
    Ok(Node::leaf(alloc, at(2), Kind::BigInt { value, raw }))
}

fn regex(alloc: Global, exp: &str) -> Result<Node, NoMemory> {
    let exp = JsWord::new(alloc, exp)?;
    let flags = JsWord::new(alloc, "")?;
    Ok(Node::leaf(alloc, at(2), Kind::Regex { exp, flags }))
}

fn member(alloc: Global, object: Node, key: &str) -> Result<Node, NoMemory> {
    let sym = JsWord::new(alloc, key)?;
    let key = Node::leaf(alloc, at(4), Kind::IdentName { sym });
    Node::member_expr(alloc, at(2), object, key)
}

fn chain(alloc: Global, is_optional: bool) -> Result<Node, NoMemory> {
    let first = member(alloc, ident(alloc, 2, "a")?, "b")?;
    let object = if is_optional {
        Node::opt_chain_expr(alloc, at(2), true, first)?
    } else {
        first
    };
    Node::opt_chain_expr(alloc, at(2), false, member(alloc, object, "c")?)
}

fn made(alloc: Global, case: Case) -> Result<Node, NoMemory> {
    match case {
        Case::Name(text) => statement(alloc, 2, text),
        Case::Whole(number) => Node::expr_stmt(alloc, at(2), whole(alloc, number)),
        Case::Choice(has_else) => choice(alloc, has_else),
        Case::Assignment(is_pattern) => assignment(alloc, is_pattern),
        Case::Text(raw, value) => Node::expr_stmt(alloc, at(2), text(alloc, raw, value)?),
        Case::BigInt(raw, value) => Node::expr_stmt(alloc, at(2), big_int(alloc, raw, value)?),
        Case::Regex(exp) => Node::expr_stmt(alloc, at(2), regex(alloc, exp)?),
        Case::Chain(is_optional) => Node::expr_stmt(alloc, at(2), chain(alloc, is_optional)?),
    }
}

// A function that may let go of a node is proved for every kind that it may have: so this one alone does.
fn let_go(_node: Node) {}

/// The place that is told of a module of one statement; the last part says whether it has fitting nodes.
fn told(alloc: Global, case: Case) -> Result<(Option<u32>, bool), NoMemory> {
    let items = Nodes::from_array(alloc, [made(alloc, case)?])?;
    let module = Node::module(alloc, at(0), None, items)?;
    let answer = (first_unfit(&module), fits(&module));
    let_go(module);
    Ok(answer)
}

/// node refuses these names, but `a`, `this` being none, and `-1` as a literal; acorn gives the first `else` to the inner `if`. node says what the
/// texts and the BigInts are, and refuses `//` and `/a/b/` as regular expressions.
const ROWS: [(Case, Option<u32>); 20] = [
    (Case::Name("a"), None),
    (Case::Name("\u{b5}$1"), None),
    (Case::Name("if"), Some(2)),
    (Case::Name("this"), Some(2)),
    (Case::Name("a b"), Some(2)),
    (Case::Name(""), Some(2)),
    (Case::Whole(7), None),
    (Case::Whole(-1), Some(2)),
    (Case::Choice(true), None),
    (Case::Choice(false), Some(1)),
    (Case::Text("'\\x41\\\nb'", "Ab"), None),
    (Case::Text("'\\x41'", "B"), Some(2)),
    (Case::Text("'a' ", "a"), Some(2)),
    (Case::BigInt("1_0n", "10"), None),
    (Case::BigInt("1_0n", "1_0"), Some(2)),
    (Case::Regex("[/]"), None),
    (Case::Regex("a/b"), Some(2)),
    (Case::Regex(""), Some(2)),
    (Case::Chain(true), None),
    (Case::Chain(false), Some(2)),
];

#[test]
fn nodes_that_do_not_fit_are_told(rt: HostRuntime) -> Result<(), Fail> {
    let alloc = rt.alloc();
    for (case, place) in ROWS {
        let (found, fits) = told(alloc, case)?;
        assert_eq!(rt; found, place);
        assert!(rt; fits == place.is_none());
    }
    // The literal is not even of a sort that is assigned to.
    assert!(rt; told(alloc, Case::Assignment(true))? == (None, true));
    assert!(rt; told(alloc, Case::Assignment(false))? == (Some(1), false));
    Ok(())
}
