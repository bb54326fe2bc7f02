//! Nodes of other names as expressions.
ghost use Rattle.std.specs.Prelude.{◌≡◌};
ghost use Rattle.ecma_tree.specs.Idents.{ident_node};

use ecma_tree::{Expr, Ident, Lit, Node};
use std::alloc::Global;

/// The expression that an identifier is. It takes no memory.
pub fn expr_of_ident(alloc: Global, ident: Ident) -> Expr
    ensures { result ≡ ident_node ident }
{
    Node::of_ident(alloc, ident)
}

/// The member expression itself.
pub fn expr_of_member(member: Node) -> Expr
    ensures { result ≡ member }
{
    member
}

/// The call itself.
pub fn expr_of_call(call: Node) -> Expr
    ensures { result ≡ call }
{
    call
}

/// The function expression itself.
pub fn expr_of_fn(function: Node) -> Expr
    ensures { result ≡ function }
{
    function
}

/// The class expression itself.
pub fn expr_of_class(class: Node) -> Expr
    ensures { result ≡ class }
{
    class
}

/// The literal itself.
pub fn expr_of_lit(literal: Lit) -> Expr
    ensures { result ≡ literal }
{
    literal
}
