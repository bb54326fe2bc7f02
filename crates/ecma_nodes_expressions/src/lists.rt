//! Lists, sequences, type assertions.
ghost use Rattle.std.specs.Prelude.{◌≡◌, IfOk, take};
ghost use Rattle.ecma_grammar.specs.trees.Parts.{framed};
ghost use Rattle.ecma_grammar.specs.trees.Others.{assertion, const_assertion, elements, sequence, swapped, the_one, type_assertion};

use ecma_nodes_parts::{is_absent, one, two};
use ecma_tree::{Kind, NoMemory, Node, Nodes, Span};
use std::alloc::Global;

/// The nodes, the last two exchanged.
pub fn swapped(items: Nodes) -> Nodes
    ensures { result ≡ swapped items }
{
    let mut items = items.into_vec();
    let count = items.len();
    if 2 <= count {
        items.swap(count - 2, count - 1);
    }
    Nodes::from_vec(items)
}

/// The nodes, without the last where that is missing.
pub fn elements(items: Nodes) -> Nodes
    ensures { result ≡ elements items }
{
    let front = items.len().saturating_sub(1);
    let ends_missing = match items.get(front) {
        Some(last) => is_absent(last),
        None => false,
    };
    if !ends_missing {
        return items;
    }
    let mut items = items.into_vec();
    items.truncate(front);
    Nodes::from_vec(items)
}

/// The one node that was read.
pub fn only(alloc: Global, items: Nodes) -> Node
    ensures { result ≡ framed 1 the_one items }
{
    match one(items) {
        Some(only) => only,
        None => Node::absent(alloc),
    }
}

/// The one node, or a sequence of all.
pub fn sequence(alloc: Global, span: Span, items: Nodes) -> Node
    ensures { result ≡ sequence span items }
{
    if items.len() != 1 {
        return Node::new(span, Kind::SeqExpr, items);
    }
    only(alloc, items)
}

fn const_assertion(alloc: Global, span: Span, items: Nodes) -> Result<Node, NoMemory>
    ensures { IfOk result (λ x. x ≡ framed 1 (const_assertion span) items) }
{
    match one(items) {
        Some(operand) => Node::of(alloc, span, Kind::TsConstAssertion, [operand]),
        None => Ok(Node::absent(alloc)),
    }
}

fn type_assertion(alloc: Global, span: Span, items: Nodes) -> Result<Node, NoMemory>
    ensures { IfOk result (λ x. x ≡ framed 2 (type_assertion span) items) }
{
    match two(items) {
        Some((type_, operand)) => Node::of(alloc, span, Kind::TsTypeAssertion, [operand, type_]),
        None => Ok(Node::absent(alloc)),
    }
}

/// `<T>e`, or `<const>e`.
pub fn assertion(alloc: Global, span: Span, items: Nodes) -> Result<Node, NoMemory>
    ensures { IfOk result (λ x. x ≡ assertion span items) }
{
    if items.len() == 1 {
        const_assertion(alloc, span, items)
    } else {
        type_assertion(alloc, span, items)
    }
}
