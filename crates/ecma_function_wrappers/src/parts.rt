//! The parts of functions, and arrow functions as functions.
ghost use Rattle.std.specs.Prelude.{◌≡◌, ◌≢◌, ℕ, IfOk, get_or, map};
ghost use Rattle.ecma_tree.specs.Nodes.{absent};
ghost use Rattle.ecma_utils.specs.Expressions.{param_of};
ghost use Rattle.ecma_function_wrappers.specs.Parts.{body_of, child_of, function_kind, function_of_arrow, params_of};

use ecma_tree::{DUMMY_SP, Expr, Function, Kind, NoMemory, Node, Nodes};
use std::alloc::Global;

/// The child at an index, taken out of the others.
fn taken(alloc: Global, children: &mut Nodes, index: usize) -> Node
    ensures value { result ≡ get_or children.old index absent }
    ensures others { (k : ℕ) → k ≢ index → get_or children.new k absent ≡ get_or children.old k absent }
{
    if children.len() <= index {
        return Node::absent(alloc);
    }
    children.replace(index, Node::absent(alloc))
}

/// The first two children of a node.
pub(crate) fn first_two(alloc: Global, node: Node) -> (Node, Node)
    ensures first { result.0 ≡ child_of node 0 }
    ensures second { result.1 ≡ child_of node 1 }
{
    let Node { mut children, .. } = node;
    let first = taken(alloc, &mut children, 0);
    (first, taken(alloc, &mut children, 1))
}

pub(crate) fn params_of(function: &Function) -> &[Node]
    ensures { result.now ≡ params_of function.now }
{
    match function.children.get(0) {
        Some(list) => list.children.as_slice(),
        None => &[],
    }
}

fn function_kind(kind: &Kind) -> Kind
    ensures { result ≡ function_kind kind.now }
{
    match kind {
        Kind::ArrowExpr {
            is_async,
            is_generator,
        } => Kind::Function {
            is_generator: *is_generator,
            is_async: *is_async,
        },
        _ => Kind::Function {
            is_generator: false,
            is_async: false,
        },
    }
}

/// `{ return e; }` for what an arrow function gives
fn body_of(alloc: Global, body: Node) -> Result<Node, NoMemory>
    ensures { IfOk result (λ node. node ≡ body_of body) }
{
    match body.kind {
        Kind::BlockStmt => Ok(body),
        _ => {
            let span = body.span;
            let stmt = Node::return_stmt(alloc, span, Some(body))?;
            Node::block_stmt(alloc, DUMMY_SP, Nodes::from_array(alloc, [stmt])?)
        }
    }
}

#[tactic(auto, using(ecma_function_parts::proofs::Mapping::mapping))]
fn params_from(alloc: Global, patterns: Nodes) -> Result<Nodes, NoMemory>
    ensures { IfOk result (λ params. params ≡ map param_of patterns) }
{
    let mut params = Nodes::new(alloc);
    for pattern in patterns.into_vec() {
        params.push(Node::param(alloc, DUMMY_SP, pattern)?)?;
    }
    Ok(params)
}

/// An arrow function as a function.
pub(crate) fn function_of_arrow(alloc: Global, arrow: Expr) -> Result<Function, NoMemory>
    ensures { IfOk result (λ node. node ≡ function_of_arrow arrow) }
{
    let span = arrow.span;
    let kind = function_kind(&arrow.kind);
    let (params, body) = first_two(alloc, arrow);
    let params = Node::list(params_from(alloc, params.children)?);
    let body = body_of(alloc, body)?;
    let (no_types, no_type) = (Node::absent(alloc), Node::absent(alloc));
    Node::of(alloc, span, kind, [params, body, no_types, no_type])
}
