//! Nodes that are written of functions in more than one place.
ghost use Rattle.std.specs.Prelude.{◌≡◌, IfOk};
ghost use Rattle.ecma_function_parts.specs.Written.{arguments_node, binding_of, first_or_absent, this_node};

use ecma_tree::{DUMMY_SP, Expr, Kind, NoMemory, Node, Nodes, Pat, SyntaxContext};
use std::alloc::Global;

/// `this`
pub fn this_node(alloc: Global) -> Expr
    ensures { result ≡ this_node }
{
    Node::leaf(alloc, DUMMY_SP, Kind::ThisExpr)
}

/// `arguments`
pub fn arguments_node(alloc: Global) -> Result<Expr, NoMemory>
    ensures { IfOk result (λ node. node ≡ arguments_node) }
{
    ecma_utils::name_of_text(alloc, SyntaxContext::empty(), DUMMY_SP, "arguments")
}

/// A name that is declared.
pub fn binding_of(alloc: Global, name: Expr) -> Result<Pat, NoMemory>
    ensures { IfOk result (λ node. node ≡ binding_of name) }
{
    Node::binding_ident(alloc, DUMMY_SP, name, None)
}

/// The one node that another became, where there is one.
pub fn first_or_absent(alloc: Global, nodes: Nodes) -> Node
    ensures { result ≡ first_or_absent nodes }
{
    let mut nodes = nodes;
    if nodes.is_empty() {
        return Node::absent(alloc);
    }
    nodes.replace(0, Node::absent(alloc))
}
