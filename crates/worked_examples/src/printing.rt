//! Layouts of small trees, by `ecma_print`.
use ecma_print::print_module;
use ecma_tree::{DUMMY_SP, Expr, JsWord, Kind, Module, Node, Nodes, Stmt, SyntaxContext, UnaryOp};
use std::alloc::Global;
use std::test::Fail;

fn ident(alloc: Global, name: &str) -> Result<Expr, Fail> {
    let sym = JsWord::new(alloc, name)?;
    let ctxt = SyntaxContext::empty();
    let optional = false;
    let kind = Kind::Ident {
        sym,
        ctxt,
        optional,
    };
    Ok(Node::leaf(alloc, DUMMY_SP, kind))
}

fn one(alloc: Global) -> Result<Expr, Fail> {
    let raw = Some(JsWord::new(alloc, "1")?);
    let kind = Kind::Number { value: None, raw };
    Ok(Node::leaf(alloc, DUMMY_SP, kind))
}

fn minus(alloc: Global, operand: Expr) -> Result<Expr, Fail> {
    Ok(Node::unary_expr(alloc, DUMMY_SP, UnaryOp::Minus, operand)?)
}

fn member(alloc: Global, object: Expr, key: &str) -> Result<Expr, Fail> {
    let sym = JsWord::new(alloc, key)?;
    let key = Node::leaf(alloc, DUMMY_SP, Kind::IdentName { sym });
    Ok(Node::member_expr(alloc, DUMMY_SP, object, key)?)
}

/// `x?.y`
fn chain(alloc: Global) -> Result<Expr, Fail> {
    let base = member(alloc, ident(alloc, "x")?, "y")?;
    Ok(Node::opt_chain_expr(alloc, DUMMY_SP, true, base)?)
}

fn call(alloc: Global, callee: &str) -> Result<Expr, Fail> {
    let callee = ident(alloc, callee)?;
    let args = Nodes::new(alloc);
    Ok(Node::call_expr(alloc, DUMMY_SP, callee, args, None)?)
}

fn statement(alloc: Global, expression: Expr) -> Result<Stmt, Fail> {
    Ok(Node::expr_stmt(alloc, DUMMY_SP, expression)?)
}

/// `if (a) b; else c;`
fn choice(alloc: Global) -> Result<Stmt, Fail> {
    let body = statement(alloc, ident(alloc, "b")?)?;
    let alternative = Some(statement(alloc, ident(alloc, "c")?)?);
    let test = ident(alloc, "a")?;
    Ok(Node::if_stmt(alloc, DUMMY_SP, test, body, alternative)?)
}

/// `do d(); while (e);`
fn repetition(alloc: Global) -> Result<Stmt, Fail> {
    let body = statement(alloc, call(alloc, "d")?)?;
    let test = ident(alloc, "e")?;
    Ok(Node::do_while_stmt(alloc, DUMMY_SP, test, body)?)
}

fn module(alloc: Global, first: Stmt, second: Stmt) -> Result<Module, Fail> {
    let body = Nodes::from_array(alloc, [first, second])?;
    Ok(Node::module(alloc, DUMMY_SP, None, body)?)
}

#[test]
fn a_sign_and_a_chain_stay_apart(rt: HostRuntime) -> Result<(), Fail> {
    let alloc = rt.alloc();
    let first = statement(alloc, minus(alloc, minus(alloc, one(alloc)?)?)?)?;
    let second = statement(alloc, member(alloc, chain(alloc)?, "b")?)?;
    let text = print_module(alloc, &module(alloc, first, second)?)?;
    assert_eq!(rt; text.as_slice(), b"- -1;\n(x?.y).b;\n".as_slice());
    Ok(())
}

#[test]
fn bodies_stand_on_the_line_of_their_head(rt: HostRuntime) -> Result<(), Fail> {
    let alloc = rt.alloc();
    let tree = module(alloc, choice(alloc)?, repetition(alloc)?)?;
    let text = print_module(alloc, &tree)?;
    assert_eq!(rt;
        text.as_slice(),
        b"if (a) b;\nelse c;\ndo d();\nwhile (e);\n".as_slice()
    );
    Ok(())
}
