//! Assignments, each written where it stands.
ghost use Rattle.std.specs.Prelude.{◌≡◌, ◌&&◌, IfOk, OnOk, false, not};
ghost use Rattle.std.specs.Option.{is_some};
ghost use Rattle.ecma_tree.specs.declared.node.Node.{out-Node};
ghost use Rattle.ecma_utils.specs.Expressions.{var_decl_of};
ghost use Rattle.ecma_rewriting.specs.Rewriting.{become};
ghost use Rattle.ecma_lower.specs.Writing.{assigning, at_place, constant, constant_of, declared, export_of, exported_constant, exports_of, import_of, module_exports, required_of, text_of, with_assignments, written};

use crate::assignment::requires_module;
use crate::names::Names;
use crate::seat::{Seat, is_raw, seat_in};
use ecma_tree::{
    AssignOp, DUMMY_SP, Expr, Kind, Module, NoMemory, Node, Nodes, Span, SyntaxContext, VarDeclKind,
};
use ecma_utils::ExprFactory;
use std::alloc::Global;
use std::mem;

fn text_of(name: &Node) -> &str
    ensures { result.now ≡ text_of name.now }
{
    match &name.kind {
        Kind::Ident { sym, .. } => sym.as_str(),
        _ => "",
    }
}

/// `exports.a`
fn exports_of(alloc: Global, free: SyntaxContext, name: &Node) -> Result<Expr, NoMemory>
    ensures { IfOk result (λ node. node ≡ exports_of free name.now) }
{
    let key = ecma_utils::key_of_text(alloc, name.span, text_of(name))?;
    let exports = ecma_utils::member_expr!(alloc, free, DUMMY_SP, exports)?;
    exports.make_member(alloc, key)
}

/// `module.exports`
fn module_exports(alloc: Global, free: SyntaxContext) -> Result<Expr, NoMemory>
    ensures { IfOk result (λ node. node ≡ module_exports free) }
{
    ecma_utils::member_expr!(alloc, free, DUMMY_SP, module.exports)
}

/// `const a = v`
fn declare(alloc: Global, name: Node, v: Expr) -> Result<Node, NoMemory>
    ensures { IfOk result (λ node. node ≡ var_decl_of VarDeclKind.Const (declared name) v) }
{
    let pattern = Node::binding_ident(alloc, name.span, name, None)?;
    v.into_var_decl(alloc, VarDeclKind::Const, pattern)
}

fn at_place(span: Span, node: Node) -> Node
    ensures { result ≡ at_place span node }
{
    Node::new(span, node.kind, node.children)
}

/// `const a = v;`
fn constant(alloc: Global, span: Span, name: Node, v: Expr) -> Result<Node, NoMemory>
    ensures { IfOk result (λ node. node ≡ constant span name v) }
{
    Ok(at_place(span, declare(alloc, name, v)?))
}

/// `const a = exports.a = v;` where `exports` is free, else `export const a = v;`
fn exported_constant(
    alloc: Global,
    free: Option<SyntaxContext>,
    span: Span,
    name: Node,
    v: Expr,
) -> Result<Node, NoMemory>
    ensures { IfOk result (λ node. node ≡ exported_constant free span name v) }
{
    match free {
        Some(free) => {
            let target = exports_of(alloc, free, &name)?;
            let v = v.make_assign_to(alloc, AssignOp::Assign, target)?;
            constant(alloc, span, name, v)
        }
        None => {
            let decl = declare(alloc, name, v)?;
            Node::export_decl(alloc, span, decl)
        }
    }
}

/// An import as a constant, of a dotted name or of a required module.
fn constant_of(
    alloc: Global,
    names: &Names,
    required: bool,
    is_export: bool,
    span: Span,
    name: Node,
    v: Expr,
) -> Result<Node, NoMemory>
    ensures { IfOk result (λ node. node ≡ constant_of names.now required is_export span name v) }
{
    if !is_export {
        return constant(alloc, span, name, v);
    }
    let free = if required { names.free } else { None };
    exported_constant(alloc, free, span, name, v)
}

/// Whether an import stays: it requires a module, and no function is there that does.
fn stays(names: &Names, required: bool) -> bool
    ensures { result ≡ (required && not (is_some names.now.required)) }
{
    required && names.required.is_none()
}

/// Writes an import as a constant, but for one of a required module where no function requires it.
#[tactic(auto, using(crate::proofs::Written::writing))]
fn write_import(
    alloc: Global,
    names: &Names,
    required: bool,
    is_export: bool,
    node: &mut Node,
) -> Result<(), NoMemory>
    requires { (out-Node node.old).kind ≡ Kind.TsImportEqualsDecl is_export false }
    ensures { OnOk result (node.new ≡ import_of names.now required is_export (out-Node node.old).span (out-Node node.old).children) }
{
    if stays(names, required) {
        return Ok(());
    }
    if node.children.len() != 2 {
        return Ok(());
    }
    let name = node.children.replace(0, Node::absent(alloc));
    let v = node.children.replace(1, Node::absent(alloc));
    *node = constant_of(alloc, names, required, is_export, node.span, name, v)?;
    Ok(())
}

/// Writes a required module as a call of the function that requires it, if there is one.
#[tactic(auto, using(crate::proofs::Written::writing))]
fn write_required(alloc: Global, names: &Names, node: &mut Node) -> Result<(), NoMemory>
    requires { (out-Node node.old).kind ≡ Kind.TsExternalModuleRef }
    ensures { OnOk result (node.new ≡ required_of names.now.required (out-Node node.old).span (out-Node node.old).children) }
{
    if let Some(function) = &names.required {
        let callee = Node::of_ident(alloc, function.clone()?);
        let args = mem::replace(&mut node.children, Nodes::new(alloc));
        *node = callee.as_call(alloc, DUMMY_SP, args)?;
    }
    Ok(())
}

/// Writes `export = e` as `module.exports = e;` where `module` is free.
#[tactic(auto, using(crate::proofs::Written::writing))]
fn write_export(alloc: Global, names: &Names, node: &mut Node) -> Result<(), NoMemory>
    requires { (out-Node node.old).kind ≡ Kind.TsExportAssignment }
    ensures { OnOk result (node.new ≡ export_of names.now.free (out-Node node.old).span (out-Node node.old).children) }
{
    if node.children.len() != 1 {
        return Ok(());
    }
    if let Some(free) = names.free {
        let e = node.children.replace(0, Node::absent(alloc));
        let target = module_exports(alloc, free)?;
        let set = e.make_assign_to(alloc, AssignOp::Assign, target)?;
        *node = Node::expr_stmt(alloc, node.span, set)?;
    }
    Ok(())
}

/// Writes an item of a module, over what its children became.
#[tactic(auto, unfolding(crate::specs::Writing::written))]
fn write_item(alloc: Global, names: &Names, required: bool, node: &mut Node) -> Result<(), NoMemory>
    ensures { OnOk result (node.new ≡ written names.now Seat.Item required (out-Node node.old).span (out-Node node.old).kind (out-Node node.old).children) }
{
    match &node.kind {
        Kind::TsImportEqualsDecl {
            is_export,
            is_type_only: false,
        } => {
            let is_export = *is_export;
            write_import(alloc, names, required, is_export, node)
        }
        Kind::TsExportAssignment => write_export(alloc, names, node),
        _ => Ok(()),
    }
}

/// Writes the right side of an import, over what its children became.
#[tactic(auto, unfolding(crate::specs::Writing::written))]
fn write_value(
    alloc: Global,
    names: &Names,
    required: bool,
    node: &mut Node,
) -> Result<(), NoMemory>
    ensures { OnOk result (node.new ≡ written names.now Seat.Value required (out-Node node.old).span (out-Node node.old).kind (out-Node node.old).children) }
{
    match &node.kind {
        Kind::TsQualifiedName => {
            node.kind = Kind::MemberExpr;
            Ok(())
        }
        Kind::TsExternalModuleRef => write_required(alloc, names, node),
        _ => Ok(()),
    }
}

/// Writes a node in its seat, over what its children became.
#[tactic(auto, unfolding(crate::specs::Writing::written))]
fn write_here(
    alloc: Global,
    names: &Names,
    seat: Seat,
    required: bool,
    node: &mut Node,
) -> Result<(), NoMemory>
    ensures { OnOk result (node.new ≡ written names.now seat required (out-Node node.old).span (out-Node node.old).kind (out-Node node.old).children) }
{
    match seat {
        Seat::Item => write_item(alloc, names, required, node),
        Seat::Value => write_value(alloc, names, required, node),
        _ => Ok(()),
    }
}

/// Writes what stands in a tree in this seat.
fn write_in(alloc: Global, names: &Names, seat: Seat, node: &mut Node) -> Result<(), NoMemory>
    ensures { OnOk result (node.new ≡ become (assigning names.now) seat node.old) }
{
    if is_raw(seat) {
        return Ok(());
    }
    let required = requires_module(node);
    let count = node.children.len();
    for i in 0..count {
        let inside = seat_in(seat, &node.kind, i);
        write_in(alloc, names, inside, node.children.get_mut(i))?;
    }
    write_here(alloc, names, seat, required, node)
}

/// Writes the assignments of a module.
pub(crate) fn write_assignments(
    alloc: Global,
    names: &Names,
    tree: &mut Module,
) -> Result<(), NoMemory>
    ensures { OnOk result (tree.new ≡ with_assignments names.now tree.old) }
{
    write_in(alloc, names, Seat::Whole, tree)
}
