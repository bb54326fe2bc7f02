//! Constructors, and the test of an optional chain.
ghost use Rattle.std.specs.Prelude.{◌≡◌, ◌∷◌, [], IfOk};
ghost use Rattle.ecma_utils.specs.Constructors.{args_node, constructor_of, default_constructor_of, loose_test, null_node, opt_chain_test_of, rest_args, strict_test, super_call, undefined_node};

use crate::expr_factory::{ExprFactory, key_of};
use crate::indirect::zero_node;
use ecma_tree::{
    BinaryOp, DUMMY_SP, Expr, JsWord, Kind, NoMemory, Node, Nodes, Span, SyntaxContext, UnaryOp,
};
use std::alloc::Global;

/// `args`
fn args_node(alloc: Global) -> Result<Node, NoMemory>
    ensures { IfOk result (λ node. node ≡ args_node) }
{
    let kind = Kind::Ident {
        sym: JsWord::new(alloc, "args")?,
        ctxt: SyntaxContext::empty(),
        optional: false,
    };
    Ok(Node::leaf(alloc, DUMMY_SP, kind))
}

/// `...args`
fn rest_args(alloc: Global) -> Result<Node, NoMemory>
    ensures { IfOk result (λ node. node ≡ rest_args) }
{
    let name = Node::binding_ident(alloc, DUMMY_SP, args_node(alloc)?, None)?;
    let rest = Node::rest_pat(alloc, DUMMY_SP, name, None)?;
    Node::param(alloc, DUMMY_SP, rest)
}

/// `super(...args);`
fn super_call(alloc: Global) -> Result<Node, NoMemory>
    ensures { IfOk result (λ node. node ≡ super_call) }
{
    let spread = Node::spread_element(alloc, DUMMY_SP, args_node(alloc)?)?;
    let callee = Node::leaf(alloc, DUMMY_SP, Kind::Super);
    let args = Nodes::from_array(alloc, [spread])?;
    let call = Node::call_expr(alloc, DUMMY_SP, callee, args, None)?;
    call.into_stmt(alloc)
}

fn constructor_of(alloc: Global, params: Nodes, stmts: Nodes) -> Result<Node, NoMemory>
    ensures { IfOk result (λ node. node ≡ constructor_of params stmts) }
{
    let key = key_of(alloc, DUMMY_SP, "constructor")?;
    let body = Some(Node::block_stmt(alloc, DUMMY_SP, stmts)?);
    Node::constructor(alloc, DUMMY_SP, None, false, key, params, body)
}

/// The constructor of a class that has none (ECMAScript, 15.7.14): `constructor(...args) { super(...args); }` where the class extends
/// another, else `constructor() {}`. Its only refusal is want of memory.
pub fn default_constructor(alloc: Global, has_super: bool) -> Result<Node, NoMemory>
    ensures { IfOk result (λ node. node ≡ default_constructor_of has_super) }
{
    if has_super {
        let params = Nodes::from_array(alloc, [rest_args(alloc)?])?;
        let stmts = Nodes::from_array(alloc, [super_call(alloc)?])?;
        return constructor_of(alloc, params, stmts);
    }
    constructor_of(alloc, Nodes::new(alloc), Nodes::new(alloc))
}

/// `null`
fn null_node(alloc: Global) -> Node
    ensures { result ≡ null_node }
{
    Node::leaf(alloc, DUMMY_SP, Kind::Null)
}

/// `void 0`
fn undefined_node(alloc: Global) -> Result<Node, NoMemory>
    ensures { IfOk result (λ node. node ≡ undefined_node) }
{
    Node::unary_expr(alloc, DUMMY_SP, UnaryOp::Void, zero_node(alloc))
}

fn loose_test(alloc: Global, span: Span, left: Expr) -> Result<Expr, NoMemory>
    ensures { IfOk result (λ node. node ≡ loose_test span left) }
{
    Node::bin_expr(alloc, span, BinaryOp::EqEq, left, null_node(alloc))
}

fn strict_test(alloc: Global, span: Span, left: Expr, right: Expr) -> Result<Expr, NoMemory>
    ensures { IfOk result (λ node. node ≡ strict_test span left right) }
{
    let is_null = left.make_eq(alloc, null_node(alloc))?;
    let is_undefined = right.make_eq(alloc, undefined_node(alloc)?)?;
    Node::bin_expr(alloc, span, BinaryOp::LogicalOr, is_null, is_undefined)
}

/// Whether an optional chain ends at a value (ECMAScript, 13.3.9.1): `left == null` where no value is `document.all`, which equals null
/// and is neither null nor undefined; else `left === null || right === void 0`, where `left` and `right` give one value.
/// Its only refusal is want of memory.
pub fn opt_chain_test(
    alloc: Global,
    left: Expr,
    right: Expr,
    span: Span,
    no_document_all: bool,
) -> Result<Expr, NoMemory>
    ensures { IfOk result (λ node. node ≡ opt_chain_test_of span no_document_all left right) }
{
    if no_document_all {
        loose_test(alloc, span, left)
    } else {
        strict_test(alloc, span, left, right)
    }
}
