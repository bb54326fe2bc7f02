//! Copies of trees.
ghost use Rattle.std.specs.Prelude.{◌≡◌, IfOk};

use crate::node::{Class, Expr, Function, Module, ModuleItem, Node, Nodes, Pat, Stmt};
use ecma_kind::{NoMemory, copy_kind};
use std::alloc::Global;

/// An equal copy of a node with all below it, spans and all. Its only refusal is want of memory.
pub fn copy_node(alloc: Global, node: &Node) -> Result<Node, NoMemory>
    ensures { IfOk result (λ copy. copy ≡ node.now) }
{
    let mut children = Nodes::new(alloc);
    for child in node.children.as_slice() {
        children.push(copy_node(alloc, child)?)?;
    }
    Ok(Node::new(node.span, copy_kind(&node.kind)?, children))
}

/// An equal copy of a module.
pub fn copy_module(alloc: Global, node: &Module) -> Result<Module, NoMemory>
    ensures { IfOk result (λ copy. copy ≡ node.now) }
{
    copy_node(alloc, node)
}

/// An equal copy of a statement or a module declaration.
pub fn copy_item(alloc: Global, item: &ModuleItem) -> Result<ModuleItem, NoMemory>
    ensures { IfOk result (λ copy. copy ≡ item.now) }
{
    copy_node(alloc, item)
}

/// An equal copy of a statement or a declaration.
pub fn copy_stmt(alloc: Global, stmt: &Stmt) -> Result<Stmt, NoMemory>
    ensures { IfOk result (λ copy. copy ≡ stmt.now) }
{
    copy_node(alloc, stmt)
}

/// An equal copy of an expression.
pub fn copy_expr(alloc: Global, expr: &Expr) -> Result<Expr, NoMemory>
    ensures { IfOk result (λ copy. copy ≡ expr.now) }
{
    copy_node(alloc, expr)
}

/// An equal copy of a binding pattern.
pub fn copy_pat(alloc: Global, pat: &Pat) -> Result<Pat, NoMemory>
    ensures { IfOk result (λ copy. copy ≡ pat.now) }
{
    copy_node(alloc, pat)
}

/// An equal copy of a function.
pub fn copy_function(alloc: Global, function: &Function) -> Result<Function, NoMemory>
    ensures { IfOk result (λ copy. copy ≡ function.now) }
{
    copy_node(alloc, function)
}

/// An equal copy of a class.
pub fn copy_class(alloc: Global, class: &Class) -> Result<Class, NoMemory>
    ensures { IfOk result (λ copy. copy ≡ class.now) }
{
    copy_node(alloc, class)
}
