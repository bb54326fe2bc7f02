//! `super(..)` that sets a name to `this`.
ghost use Rattle.std.specs.Prelude.{◌≡◌, IfOk, OnOk, map};
ghost use Rattle.ecma_tree.specs.declared.node.Node.{out-Node};
ghost use Rattle.ecma_function.specs.This.{initialised, initialised_over, is_class, setting_this};

use crate::call::is_super_call;
use ecma_function_parts::this_node;
use ecma_tree::{AssignOp, Expr, Ident, Kind, NoMemory, Node, Nodes, Stmt};
use ecma_utils::ExprFactory;
use std::alloc::Global;
use std::mem;

fn is_class(kind: &Kind) -> bool
    ensures { result ≡ is_class kind.now }
{
    matches!(kind, Kind::Class { .. })
}

/// `(call, name = this)`
fn setting_this(alloc: Global, name: &Ident, call: Expr) -> Result<Expr, NoMemory>
    ensures { IfOk result (λ node. node ≡ setting_this name.now call) }
{
    let span = call.span;
    let target = Node::of_ident(alloc, name.clone()?);
    let set = this_node(alloc).make_assign_to(alloc, AssignOp::Assign, target)?;
    let sequence = Node::of(alloc, span, Kind::SeqExpr, [call, set])?;
    sequence.wrap_with_paren(alloc)
}

/// A node with each `super(..)` setting the name.
fn initialised(alloc: Global, name: &Ident, node: Node) -> Result<Node, NoMemory>
    ensures { IfOk result (λ new. new ≡ initialised name.now node) }
{
    if is_class(&node.kind) {
        return Ok(node);
    }
    let is_call = is_super_call(&node);
    let Node {
        span,
        kind,
        mut children,
    } = node;
    let mut inside = Nodes::new(alloc);
    for i in 0..children.len() {
        let child = children.replace(i, Node::absent(alloc));
        inside.push(initialised(alloc, name, child)?)?;
    }
    let node = Node::new(span, kind, inside);
    if is_call {
        return setting_this(alloc, name, node);
    }
    Ok(node)
}

/// Makes each `super(..)` outside classes `(super(..), name = this)`. The only refusal is want of memory, after which nothing is promised of the statements.
pub fn init_this(alloc: Global, stmts: &mut Vec<Stmt>, this_id: &Ident) -> Result<(), NoMemory>
    ensures { OnOk result (stmts.new.items ≡ map (initialised this_id.now) stmts.old.items) }
{
    for i in 0..stmts.len() {
        let stmt = mem::replace(&mut stmts[i], Node::absent(alloc));
        stmts[i] = initialised(alloc, this_id, stmt)?;
    }
    Ok(())
}
