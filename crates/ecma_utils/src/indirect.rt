//! Calls that give their callee no `this`.
ghost use Rattle.std.specs.Prelude.{◌≡◌, Bool, IfOk, IsTrue};
ghost use Rattle.ecma_tree.specs.declared.node.Node.{out-Node};
ghost use Rattle.ecma_utils.specs.Indirect.{calls_expression, indirect_call, indirect_callee, is_expression, with_indirect_first, zero_node};

use ecma_number::JsNumber;
use ecma_tree::{DUMMY_SP, Expr, Kind, NoMemory, Node, Nodes};
use std::alloc::Global;

/// `0`
pub(crate) fn zero_node(alloc: Global) -> Node
    ensures { result ≡ zero_node }
{
    let value = Some(JsNumber::from(0i32));
    Node::leaf(alloc, DUMMY_SP, Kind::Number { value, raw: None })
}

/// `(0, e)`
fn indirect_callee(alloc: Global, e: Expr) -> Result<Expr, NoMemory>
    ensures { IfOk result (λ node. node ≡ indirect_callee e) }
{
    let exprs = Nodes::from_array(alloc, [zero_node(alloc), e])?;
    Ok(Node::seq_expr(DUMMY_SP, exprs))
}

/// The callee of a call as a value of its own, so that a call may stand there: as in `f()()`.
#[derive(Debug, Drop)]
pub struct Callee {
    pub node: Expr,
}

/// What calls something.
pub trait IntoIndirectCall: Sized {
    type Item;

    /// Whether an expression is called, and not `super` or `import`.
    ghost is_expression_called: { Self → Bool };

    /// The same with `(0, callee)` in the callee's place.
    ghost indirect: { Self → Self.Item };

    /// Puts `(0, callee)` in the callee's place, which has to be an expression. Its only refusal is want of memory.
    fn into_indirect(self, alloc: Global) -> Result<Self::Item, NoMemory>
        requires { IsTrue (is_expression_called self) }
        ensures { IfOk result (λ item. item ≡ indirect self) };
}

/// A call, and a template behind a tag, which is then its callee.
impl IntoIndirectCall for Node {
    type Item = Node;

    ghost is_expression_called = { calls_expression };

    ghost indirect = { indirect_call };

    fn into_indirect(self, alloc: Global) -> Result<Node, NoMemory> {
        let Node {
            span,
            kind,
            mut children,
        } = self;
        let callee = children.replace(0, Node::absent(alloc));
        children.set(0, indirect_callee(alloc, callee)?);
        Ok(Node::new(span, kind, children))
    }
}

impl IntoIndirectCall for Callee {
    type Item = Callee;

    ghost is_expression_called = { λ callee. is_expression callee.node };

    ghost indirect = { λ callee. record { node = indirect_callee callee.node } };

    fn into_indirect(self, alloc: Global) -> Result<Callee, NoMemory> {
        let Callee { node } = self;
        let node = indirect_callee(alloc, node)?;
        Ok(Callee { node })
    }
}
