//! What is written of a function.
ghost use Rattle.std.specs.Prelude.{◌≡◌, IfOk};
ghost use Rattle.std.specs.Option.{option_map};
ghost use Rattle.ecma_tree.specs.declared.node.Node.{Node};
ghost use Rattle.ecma_tree.specs.Idents.{ident_node};
ghost use Rattle.ecma_utils.specs.Functions.{function_decl_of, function_expr_of, method_of};

use ecma_tree::{Expr, Function, Ident, NoMemory, Node, Stmt};
use std::alloc::Global;

fn name_node(alloc: Global, ident: Option<Ident>) -> Option<Node>
    ensures { result ≡ option_map ident_node ident }
{
    match ident {
        Some(ident) => Some(Node::of_ident(alloc, ident)),
        None => None,
    }
}

/// What is written of a function. What a call writes has the function's span. The only refusal of each call is want of memory.
pub trait FunctionFactory: Sized {
    /// The function that a value is.
    ghost function: { Self → Node };

    /// The function itself.
    fn into_function(self) -> Function
        ensures { result ≡ function self };

    /// A function expression of this name, if one is given.
    final fn into_fn_expr(self, alloc: Global, ident: Option<Ident>) -> Result<Expr, NoMemory>
        ensures { IfOk result (λ node. node
            ≡ function_expr_of (option_map ident_node ident) (function self)) }
    {
        let function = self.into_function();
        Node::fn_expr(alloc, function.span, name_node(alloc, ident), function)
    }

    /// A function declaration of this name.
    final fn into_fn_decl(self, alloc: Global, ident: Ident) -> Result<Stmt, NoMemory>
        ensures { IfOk result (λ node. node ≡ function_decl_of (ident_node ident) (function self)) }
    {
        let function = self.into_function();
        let name = Node::of_ident(alloc, ident);
        Node::fn_decl(alloc, function.span, false, name, function)
    }

    /// A method of an object, with this key.
    final fn into_method_prop(self, alloc: Global, key: Node) -> Result<Node, NoMemory>
        ensures { IfOk result (λ node. node ≡ method_of key (function self)) }
    {
        let function = self.into_function();
        Node::method_prop(alloc, function.span, key, function)
    }
}

impl FunctionFactory for Node {
    ghost function = { λ node. node };

    fn into_function(self) -> Function {
        self
    }
}
