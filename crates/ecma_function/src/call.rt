//! Calls of `super`.
ghost use Rattle.std.specs.Prelude.{◌≡◌};
ghost use Rattle.ecma_tree.specs.declared.node.Node.{out-Node};
ghost use Rattle.ecma_function.specs.Calls.{first_is, is_super, is_super_call, is_super_stmt};

use ecma_tree::{Kind, Node, Stmt};

fn is_super(node: &Node) -> bool
    ensures { result ≡ is_super node.now }
{
    matches!(node.kind, Kind::Super)
}

/// Whether the node is a call `super(..)`.
pub(crate) fn is_super_call(node: &Node) -> bool
    ensures { result ≡ is_super_call node.now }
{
    match &node.kind {
        Kind::CallExpr => match node.children.get(0) {
            Some(callee) => is_super(callee),
            None => false,
        },
        _ => false,
    }
}

/// Whether the node is a statement `super(..);`.
pub(crate) fn is_super_stmt(node: &Stmt) -> bool
    ensures { result ≡ is_super_stmt node.now }
{
    match &node.kind {
        Kind::ExprStmt => match node.children.get(0) {
            Some(e) => is_super_call(e),
            None => false,
        },
        _ => false,
    }
}
