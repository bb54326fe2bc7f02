//! What is written in the place of a function.
ghost use Rattle.std.specs.Prelude.{◌≡◌, ◌++◌, IfOk, codes, string_bytes};
ghost use Rattle.std.specs.Option.{option_map};
ghost use Rattle.ecma_tree.specs.Idents.{ident_node};
ghost use Rattle.ecma_tree.specs.Nodes.{or_absent};
ghost use Rattle.ecma_function_wrappers.specs.Writing.{anonymous, applied, called_at_once, forward, forward_decl, forward_expr, function_with, ref_function, ref_ident, ref_var, with_own_name};

use ecma_function_parts::{arguments_node, binding_of, this_node};
use ecma_tree::{
    AssignOp, DUMMY_SP, Expr, Function, Ident, JsWord, NoMemory, Node, Nodes, Stmt, SyntaxContext,
    VarDeclKind,
};
use ecma_utils::{ExprFactory, FunctionFactory};
use std::alloc::Global;

fn behind_underscore(alloc: Global, sym: &JsWord) -> Result<String, NoMemory>
    ensures { IfOk result (λ text. string_bytes text ≡ codes "_" ++ sym.now) }
{
    let mut text = String::from_str(alloc, "_")?;
    text.push_str(sym.as_str())?;
    Ok(text)
}

/// `_n`, `_ref`
pub(crate) fn ref_ident(
    alloc: Global,
    name: &Option<Ident>,
    ctxt: SyntaxContext,
) -> Result<Ident, NoMemory>
    ensures { IfOk result (λ ident. ident ≡ ref_ident name.now ctxt) }
{
    match name {
        Some(name) => {
            let text = behind_underscore(alloc, &name.sym)?;
            ecma_utils::ident_of_text(alloc, ctxt, name.span, text.as_str())
        }
        None => ecma_utils::ident_of_text(alloc, ctxt, DUMMY_SP, "_ref"),
    }
}

fn name_node(alloc: Global, name: &Ident) -> Result<Expr, NoMemory>
    ensures { IfOk result (λ node. node ≡ ident_node name.now) }
{
    Ok(Node::of_ident(alloc, name.clone()?))
}

/// `return _ref.apply(this, arguments);`
fn applied(alloc: Global, name: &Ident) -> Result<Stmt, NoMemory>
    ensures { IfOk result (λ node. node ≡ applied name.now) }
{
    let args = Nodes::from_array(alloc, [arguments_node(alloc)?])?;
    let callee = name_node(alloc, name)?;
    let call = callee.apply(alloc, DUMMY_SP, this_node(alloc), args)?;
    call.into_return_stmt(alloc)
}

fn function_with(alloc: Global, params: Nodes, stmts: Nodes) -> Result<Function, NoMemory>
    ensures { IfOk result (λ node. node ≡ function_with params stmts) }
{
    let body = Some(Node::block_stmt(alloc, DUMMY_SP, stmts)?);
    Node::function(alloc, DUMMY_SP, false, false, params, body, None, None)
}

/// `function(ps) { return _ref.apply(this, arguments); }`
fn forward(alloc: Global, params: Nodes, reference: &Ident) -> Result<Function, NoMemory>
    ensures { IfOk result (λ node. node ≡ forward params reference.now) }
{
    let stmts = Nodes::from_array(alloc, [applied(alloc, reference)?])?;
    function_with(alloc, params, stmts)
}

/// `function n(ps) { return _n.apply(this, arguments); }`, as an expression
pub(crate) fn forward_expr(
    alloc: Global,
    params: Nodes,
    reference: &Ident,
    name: Option<Ident>,
) -> Result<Expr, NoMemory>
    ensures { IfOk result (λ node. node ≡ forward_expr params reference.now name) }
{
    forward(alloc, params, reference)?.into_fn_expr(alloc, name)
}

fn name_or_absent(alloc: Global, name: Option<Ident>) -> Node
    ensures { result ≡ or_absent (option_map ident_node name) }
{
    match name {
        Some(name) => Node::of_ident(alloc, name),
        None => Node::absent(alloc),
    }
}

/// `function n(ps) { return _n.apply(this, arguments); }`, as a declaration
pub(crate) fn forward_decl(
    alloc: Global,
    params: Nodes,
    reference: &Ident,
    name: Option<Ident>,
) -> Result<Stmt, NoMemory>
    ensures { IfOk result (λ node. node ≡ forward_decl params reference.now name) }
{
    let function = forward(alloc, params, reference)?;
    let name = name_or_absent(alloc, name);
    Node::fn_decl(alloc, DUMMY_SP, false, name, function)
}

/// `function() { s }()`
fn called_at_once(alloc: Global, stmts: Nodes) -> Result<Expr, NoMemory>
    ensures { IfOk result (λ node. node ≡ called_at_once stmts) }
{
    let function = function_with(alloc, Nodes::new(alloc), stmts)?;
    function.into_fn_expr(alloc, None)?.as_iife(alloc)
}

/// `var _ref = F;`
fn ref_var(alloc: Global, name: &Ident, function: Expr) -> Result<Stmt, NoMemory>
    ensures { IfOk result (λ node. node ≡ ref_var name.now function) }
{
    let pattern = binding_of(alloc, name_node(alloc, name)?)?;
    function.into_var_decl(alloc, VarDeclKind::Var, pattern)
}

/// `function _ref() { _ref = F; return _ref.apply(this, arguments); }`
pub(crate) fn ref_function(alloc: Global, name: Ident, function: Expr) -> Result<Stmt, NoMemory>
    ensures { IfOk result (λ node. node ≡ ref_function name function) }
{
    let target = name_node(alloc, &name)?;
    let set = function.make_assign_to(alloc, AssignOp::Assign, target)?;
    let stmts = Nodes::from_array(alloc, [set.into_stmt(alloc)?, applied(alloc, &name)?])?;
    function_with(alloc, Nodes::new(alloc), stmts)?.into_fn_decl(alloc, name)
}

/// What stands for a function without a name of its own.
pub(crate) fn anonymous(
    alloc: Global,
    function: Expr,
    params: Nodes,
    binding: Option<Ident>,
    ctxt: SyntaxContext,
) -> Result<Expr, NoMemory>
    ensures { IfOk result (λ node. node ≡ anonymous function params binding ctxt) }
{
    let name = ref_ident(alloc, &None, ctxt)?;
    let var = ref_var(alloc, &name, function)?;
    let returned = forward_expr(alloc, params, &name, binding)?.into_return_stmt(alloc)?;
    called_at_once(alloc, Nodes::from_array(alloc, [var, returned])?)
}

/// What stands for a function with a name of its own.
pub(crate) fn with_own_name(
    alloc: Global,
    function: Expr,
    params: Nodes,
    name: Ident,
    ctxt: SyntaxContext,
) -> Result<Expr, NoMemory>
    ensures { IfOk result (λ node. node ≡ with_own_name function params name ctxt) }
{
    let returned = name_node(alloc, &name)?.into_return_stmt(alloc)?;
    let reference = ref_ident(alloc, &Some(name.clone()?), ctxt)?;
    let var = ref_var(alloc, &reference, function)?;
    let function = forward_decl(alloc, params, &reference, Some(name))?;
    let stmts = Nodes::from_array(alloc, [var, function, returned])?;
    called_at_once(alloc, stmts)
}
