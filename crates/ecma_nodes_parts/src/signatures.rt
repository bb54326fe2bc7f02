//! Functions by what stands behind their names.
ghost use Rattle.std.specs.Prelude.{◌≡◌, IfOk, map};
ghost use Rattle.ecma_grammar.specs.trees.Functions.{function_of, parameters, wrapped};

use ecma_tree::{Kind, NoMemory, Node, Nodes, Span};
use std::alloc::Global;

/// A parameter of a function; a parameter property is one by itself.
fn wrapped(alloc: Global, pattern: Node) -> Result<Node, NoMemory>
    ensures { IfOk result (λ x. x ≡ wrapped pattern) }
{
    if matches!(pattern.kind, Kind::TsParamProp { .. }) {
        return Ok(pattern);
    }
    let span = pattern.span;
    Node::of(alloc, span, Kind::Param, [pattern])
}

/// The parameters of a list of patterns.
#[tactic(auto, using(ecma_grammar::proofs::Steps::mapping))]
pub fn parameters(alloc: Global, patterns: Node) -> Result<Node, NoMemory>
    ensures { IfOk result (λ x. x ≡ parameters patterns) }
{
    let Node { children, .. } = patterns;
    let mut all = Nodes::new(alloc);
    for pattern in children.into_vec() {
        all.push(wrapped(alloc, pattern)?)?;
    }
    Ok(Node::list(all))
}

/// What stands behind the name of a function.
#[derive(Drop)]
pub struct Signature {
    /// `<T>`, or nothing.
    pub type_params: Node,
    /// A list of patterns.
    pub params: Node,
    /// The annotation of what is returned, or nothing.
    pub return_type: Node,
    /// A block, or nothing.
    pub body: Node,
}

/// A function of what stands behind its name.
pub fn function_of(
    alloc: Global,
    span: Span,
    is_async: bool,
    is_generator: bool,
    signature: Signature,
) -> Result<Node, NoMemory>
    ensures { IfOk result (λ x. x ≡ function_of span is_async is_generator signature.type_params signature.params signature.return_type signature.body) }
{
    let Signature {
        type_params,
        params,
        return_type,
        body,
    } = signature;
    let params = parameters(alloc, params)?;
    let kind = Kind::Function {
        is_generator,
        is_async,
    };
    Node::of(alloc, span, kind, [params, body, type_params, return_type])
}
