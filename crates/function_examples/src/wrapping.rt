//! Functions that call the one that they stand for.
use crate::reading::{first_stmt, laid_out, let_go, printed, read};
use ecma_function_wrappers::{FnWrapperResult, FunctionWrapper};
use ecma_tree::{
    DUMMY_SP, Expr, Ident, Module, NoMemory, Node, Nodes, PassError, Session, Stmt, SyntaxContext,
    copy_node,
};
use ecma_utils::ExprFactory;
use std::alloc::Global;
use std::test::Fail;

/// What a text is, and what is made of it: an expression of the one in parentheses or of an arrow function, two functions of the one in parentheses or
/// of a declaration.
#[derive(Clone, Copy, Debug)]
enum Way {
    Expr,
    Arrow,
    TwoOfExpr,
    TwoOfDecl,
}

/// The function that the first statement of a module is.
fn function_in(way: Way, tree: &Module) -> Option<&Node> {
    let stmt = first_stmt(tree)?;
    match way {
        Way::TwoOfDecl => Some(stmt),
        Way::Arrow => stmt.children.get(0),
        Way::Expr | Way::TwoOfExpr => stmt.children.get(0)?.children.get(0),
    }
}

fn wrapper_of(
    alloc: Global,
    session: &mut Session,
    way: Way,
    function: Node,
) -> Result<FunctionWrapper, PassError> {
    match way {
        Way::TwoOfDecl => FunctionWrapper::from_fn_decl(alloc, session, function),
        Way::Arrow => FunctionWrapper::from_arrow(alloc, session, function),
        Way::Expr | Way::TwoOfExpr => FunctionWrapper::from_fn_expr(alloc, session, function),
    }
}

/// `(e);`
fn stmt_of(alloc: Global, e: Expr) -> Result<Stmt, NoMemory> {
    e.wrap_with_paren(alloc)?.into_stmt(alloc)
}

fn made_one(
    alloc: Global,
    session: &mut Session,
    wrapper: FunctionWrapper,
) -> Result<Nodes, PassError> {
    let e = wrapper.into_expr(alloc, session)?;
    Ok(Nodes::from_array(alloc, [stmt_of(alloc, e)?])?)
}

fn made_two(
    alloc: Global,
    session: &mut Session,
    wrapper: FunctionWrapper,
) -> Result<Nodes, PassError> {
    let two = FnWrapperResult::from_expr(alloc, session, wrapper)?;
    let FnWrapperResult { name_fn, ref_fn } = two;
    Ok(Nodes::from_array(alloc, [stmt_of(alloc, name_fn)?, ref_fn])?)
}

fn made_two_of_decl(
    alloc: Global,
    session: &mut Session,
    wrapper: FunctionWrapper,
) -> Result<Nodes, PassError> {
    let two = FnWrapperResult::from_decl(alloc, session, wrapper)?;
    let FnWrapperResult { name_fn, ref_fn } = two;
    Ok(Nodes::from_array(alloc, [name_fn, ref_fn])?)
}

fn made(
    alloc: Global,
    session: &mut Session,
    way: Way,
    wrapper: FunctionWrapper,
) -> Result<Nodes, PassError> {
    match way {
        Way::Expr | Way::Arrow => made_one(alloc, session, wrapper),
        Way::TwoOfExpr => made_two(alloc, session, wrapper),
        Way::TwoOfDecl => made_two_of_decl(alloc, session, wrapper),
    }
}

/// The name that a function gets where it stands, and whether it is wrapped for that and for its length.
#[derive(Clone, Copy, Debug)]
enum Place {
    Nowhere,
    As(&'static str),
    Ignored(&'static str),
}

fn ident(alloc: Global, text: &str) -> Result<Ident, NoMemory> {
    ecma_utils::quote_ident!(alloc, SyntaxContext::empty(), text)
}

/// Tells a wrapper where its function stands.
fn tell(alloc: Global, place: Place, wrapper: &mut FunctionWrapper) -> Result<(), NoMemory> {
    match place {
        Place::Nowhere => {}
        Place::As(name) => wrapper.binding_ident = Some(ident(alloc, name)?),
        Place::Ignored(name) => {
            wrapper.binding_ident = Some(ident(alloc, name)?);
            wrapper.ignore_function_name = true;
            wrapper.ignore_function_length = true;
        }
    }
    Ok(())
}

fn stmts_for(alloc: Global, way: Way, at: Place, function: &Node) -> Result<Nodes, PassError> {
    let mut session = Session::new(9);
    let function = copy_node(alloc, function)?;
    let mut wrapper = wrapper_of(alloc, &mut session, way, function)?;
    tell(alloc, at, &mut wrapper)?;
    made(alloc, &mut session, way, wrapper)
}

fn written(alloc: Global, way: Way, at: Place, text: &str) -> Result<Vec<u8>, PassError> {
    let tree = read(alloc, text)?;
    let stmts = match function_in(way, &tree) {
        Some(function) => stmts_for(alloc, way, at, function),
        None => Ok(Nodes::new(alloc)),
    };
    let_go(tree);
    Ok(printed(alloc, Node::module(alloc, DUMMY_SP, None, stmts?)?)?)
}

/// Functions, where they stand, and what is written of them.
const WRITTEN: [(Way, Place, &str, &str); 14] = [
    (
        Way::Expr,
        Place::Nowhere,
        "(function n(a, [b], c = 1) {});",
        "(function() { var _n = function(a, [b], c = 1) {}; function n(a, _) { return _n.apply(this, arguments); } return n; }());",
    ),
    (
        Way::Expr,
        Place::Ignored("b"),
        "(function n() {});",
        "(function() { var _n = function() {}; function n() { return _n.apply(this, arguments); } return n; }());",
    ),
    (
        Way::Expr,
        Place::Nowhere,
        "(function() { return 1; });",
        "(function() { return 1; });",
    ),
    (
        Way::Expr,
        Place::Nowhere,
        "(function(a, ...b) { c(); });",
        "(function() { var _ref = function(a, ...b) { c(); }; return function(a) { return _ref.apply(this, arguments); }; }());",
    ),
    (
        Way::Expr,
        Place::Nowhere,
        "(async function*(...b) {});",
        "(async function*(...b) {});",
    ),
    (
        Way::Expr,
        Place::As("b"),
        "(function({ c }) {});",
        "(function() { var _ref = function({ c }) {}; return function b(_) { return _ref.apply(this, arguments); }; }());",
    ),
    (
        Way::Expr,
        Place::Ignored("b"),
        "(function(a) {});",
        "(function(a) {});",
    ),
    (
        Way::Arrow,
        Place::Nowhere,
        "() => 1;",
        "(function() { return 1; });",
    ),
    (
        Way::Arrow,
        Place::As("b"),
        "async () => { a(); };",
        "(function() { var _ref = async function() { a(); }; return function b() { return _ref.apply(this, arguments); }; }());",
    ),
    (
        Way::Arrow,
        Place::Nowhere,
        "(a, b = c) => ({});",
        "(function() { var _ref = function(a, b = c) { return ({}); }; return function(a) { return _ref.apply(this, arguments); }; }());",
    ),
    (
        Way::TwoOfExpr,
        Place::As("b"),
        "(function n() {});",
        "(function n() { return _n.apply(this, arguments); }); function _n() { _n = function() {}; return _n.apply(this, arguments); }",
    ),
    (
        Way::TwoOfExpr,
        Place::As("b"),
        "(function(a) {});",
        "(function b(a) { return _ref.apply(this, arguments); }); function _ref() { _ref = function(a) {}; return _ref.apply(this, arguments); }",
    ),
    (
        Way::TwoOfExpr,
        Place::Nowhere,
        "(function() {});",
        "(function() { return _ref.apply(this, arguments); }); function _ref() { _ref = function() {}; return _ref.apply(this, arguments); }",
    ),
    (
        Way::TwoOfDecl,
        Place::Nowhere,
        "function n() {}",
        "function n() { return _n.apply(this, arguments); } function _n() { _n = function() {}; return _n.apply(this, arguments); }",
    ),
];

#[test]
fn functions_stand_for_functions(rt: HostRuntime) -> Result<(), Fail> {
    let alloc = rt.alloc();
    for (way, at, text, want) in WRITTEN.iter() {
        let found = written(alloc, *way, *at, text)?;
        let wanted = laid_out(alloc, want)?;
        assert_eq!(rt; found.as_slice(), wanted.as_slice(), "at {text}");
    }
    Ok(())
}
