//! Chains of operators, members and calls; templates; constructions.
ghost use Rattle.std.specs.Prelude.{◌≡◌, IfOk, map};
ghost use Rattle.ecma_tree.specs.declared.node.Node.{fold-Node};
ghost use Rattle.ecma_grammar.specs.trees.Chains.{call_of, callee_of, chained, construction, goes_on, goes_on_step, in_front_link, in_front_logical, is_and, is_or, is_text_part, linked, links, logical, member_of, new_expr, optional_of, right_in_front, tagged_of, template};
ghost use Rattle.ecma_grammar.specs.trees.Parts.{framed, in_front, kind_of};

use ecma_nodes_parts::{let_go, one, three, two};
use ecma_tree::{BinaryOp, Kind, MetaPropKind, NoMemory, Node, Nodes, Span};
use std::alloc::Global;

/// A node that holds what stands before it as its first child.
fn in_front(before: Node, node: Node) -> Node
    ensures { result ≡ in_front before node }
{
    let span = Span {
        lo: before.span.lo,
        hi: node.span.hi,
    };
    let Node {
        kind,
        mut children,
        ..
    } = node;
    if children.is_empty() {
        let_go(before);
    } else {
        children.set(0, before);
    }
    Node::new(span, kind, children)
}

/// The first part, in which each other holds what stands before it.
#[tactic(auto, using(ecma_grammar::proofs::Steps::stepping))]
pub fn chained(alloc: Global, items: Nodes) -> Node
    ensures { result ≡ chained items }
{
    let mut chain = None;
    for node in items.into_vec() {
        chain = Some(match chain {
            None => node,
            Some(before) => in_front(before, node),
        });
    }
    match chain {
        Some(node) => node,
        None => Node::absent(alloc),
    }
}

/// Whether a node is `&&`.
fn is_and(node: &Node) -> bool
    ensures { result ≡ is_and (kind_of node.now) }
{
    matches!(
        node.kind,
        Kind::BinExpr {
            op: BinaryOp::LogicalAnd
        }
    )
}

/// Whether a node is `||`.
fn is_or(node: &Node) -> bool
    ensures { result ≡ is_or (kind_of node.now) }
{
    matches!(
        node.kind,
        Kind::BinExpr {
            op: BinaryOp::LogicalOr
        }
    )
}

/// A binary expression whose right side goes on.
fn right_in_front(
    alloc: Global,
    span: Span,
    kind: Kind,
    node: Node,
    sides: Nodes,
) -> Result<Node, NoMemory>
    ensures { IfOk result (λ x. x ≡ framed 2 (right_in_front span kind node) sides) }
{
    match two(sides) {
        Some((left, right)) => { Node::of(alloc, span, kind, [left, in_front(right, node)]) }
        None => Ok(Node::absent(alloc)),
    }
}

/// A logical operator behind what stands before it.
fn in_front_logical(alloc: Global, before: Node, node: Node) -> Result<Node, NoMemory>
    ensures { IfOk result (λ x. x ≡ in_front_logical before node) }
{
    if !is_and(&node) || !is_or(&before) {
        return Ok(in_front(before, node));
    }
    let span = Span {
        lo: before.span.lo,
        hi: node.span.hi,
    };
    let Node { kind, children, .. } = before;
    right_in_front(alloc, span, kind, node, children)
}

/// The same as [`chained`] for logical operators, where `&&` holds more tightly than `||`.
#[tactic(auto, using(ecma_grammar::proofs::Steps::stepping))]
pub fn logical(alloc: Global, items: Nodes) -> Result<Node, NoMemory>
    ensures { IfOk result (λ x. x ≡ logical items) }
{
    let mut chain = None;
    for node in items.into_vec() {
        chain = Some(match chain {
            None => node,
            Some(before) => in_front_logical(alloc, before, node)?,
        });
    }
    match chain {
        Some(node) => Ok(node),
        None => Ok(Node::absent(alloc)),
    }
}

/// Whether an optional chain goes on behind a node.
fn goes_on(node: &Node) -> bool
    ensures { result ≡ goes_on node.now }
{
    match node.kind {
        Kind::OptChainExpr { .. } => true,
        Kind::TsNonNullExpr | Kind::TsInstantiation => match node.children.as_slice() {
            [inner, ..] => goes_on(inner),
            [] => false,
        },
        _ => false,
    }
}

/// A link of an optional chain without a `?.` of its own.
fn linked(alloc: Global, node: Node) -> Result<Node, NoMemory>
    ensures { IfOk result (λ x. x ≡ linked node) }
{
    let span = node.span;
    Node::of(alloc, span, Kind::OptChainExpr { optional: false }, [node])
}

/// What is called, with its type arguments.
fn callee_of(alloc: Global, before: Node) -> (Node, Node)
    ensures { result ≡ callee_of before }
{
    if !matches!(before.kind, Kind::TsInstantiation) {
        return (before, Node::absent(alloc));
    }
    let Node { children, .. } = before;
    match two(children) {
        Some((callee, type_args)) => { (callee, type_args) }
        None => (Node::absent(alloc), Node::absent(alloc)),
    }
}

fn member_of(alloc: Global, before: Node, node: Node) -> Result<Node, NoMemory>
    ensures { IfOk result (λ x. x ≡ member_of before node (kind_of before)) }
{
    if matches!(before.kind, Kind::Super) {
        let member = in_front(before, node);
        let Node { span, children, .. } = member;
        return Ok(Node::new(span, Kind::SuperPropExpr, children));
    }
    if goes_on(&before) {
        return linked(alloc, in_front(before, node));
    }
    Ok(in_front(before, node))
}

fn call_of(alloc: Global, span: Span, callee: (Node, Node), parts: Nodes) -> Result<Node, NoMemory>
    ensures { IfOk result (λ x. x ≡ framed 3 (call_of span callee) parts) }
{
    let (callee, type_args) = callee;
    let Some((none, args, no_types)) = three(parts) else {
        return Ok(Node::absent(alloc));
    };
    let_go(none);
    let_go(no_types);
    if goes_on(&callee) {
        let call = Node::of(alloc, span, Kind::OptCall, [callee, args, type_args])?;
        return linked(alloc, call);
    }
    Node::of(alloc, span, Kind::CallExpr, [callee, args, type_args])
}

fn tagged_of(
    alloc: Global,
    span: Span,
    callee: (Node, Node),
    parts: Nodes,
) -> Result<Node, NoMemory>
    ensures { IfOk result (λ x. x ≡ framed 3 (tagged_of span callee) parts) }
{
    let (tag, type_args) = callee;
    let Some((none, no_types, template)) = three(parts) else {
        return Ok(Node::absent(alloc));
    };
    let_go(none);
    let_go(no_types);
    Node::of(alloc, span, Kind::TaggedTpl, [tag, type_args, template])
}

fn optional_of(alloc: Global, span: Span, before: Node, parts: Nodes) -> Result<Node, NoMemory>
    ensures { IfOk result (λ x. x ≡ framed 1 (optional_of span before) parts) }
{
    match one(parts) {
        Some(base) => {
            let base = in_front(before, base);
            Node::of(alloc, span, Kind::OptChainExpr { optional: true }, [base])
        }
        None => Ok(Node::absent(alloc)),
    }
}

/// A link behind what stands before it.
fn in_front_link(alloc: Global, before: Node, node: Node) -> Result<Node, NoMemory>
    ensures { IfOk result (λ x. x ≡ in_front_link before node) }
{
    let span = Span {
        lo: before.span.lo,
        hi: node.span.hi,
    };
    match node.kind {
        Kind::MemberExpr => member_of(alloc, before, node),
        Kind::CallExpr => call_of(alloc, span, callee_of(alloc, before), node.children),
        Kind::TaggedTpl => tagged_of(alloc, span, callee_of(alloc, before), node.children),
        Kind::OptChainExpr { .. } => optional_of(alloc, span, before, node.children),
        _ => Ok(in_front(before, node)),
    }
}

/// The same as [`chained`] for members, calls and templates.
#[tactic(auto, using(ecma_grammar::proofs::Steps::stepping))]
pub fn links(alloc: Global, items: Nodes) -> Result<Node, NoMemory>
    ensures { IfOk result (λ x. x ≡ links items) }
{
    let mut chain = None;
    for node in items.into_vec() {
        chain = Some(match chain {
            None => node,
            Some(before) => in_front_link(alloc, before, node)?,
        });
    }
    match chain {
        Some(node) => Ok(node),
        None => Ok(Node::absent(alloc)),
    }
}

fn new_expr(alloc: Global, span: Span, items: Nodes) -> Result<Node, NoMemory>
    ensures { IfOk result (λ x. x ≡ framed 3 (new_expr span) items) }
{
    match three(items) {
        Some((callee, type_args, args)) => {
            Node::of(alloc, span, Kind::NewExpr, [callee, args, type_args])
        }
        None => Ok(Node::absent(alloc)),
    }
}

/// `new.target`, or a construction.
pub fn construction(alloc: Global, span: Span, items: Nodes) -> Result<Node, NoMemory>
    ensures { IfOk result (λ x. x ≡ construction span items) }
{
    if items.len() == 0 {
        let kind = Kind::MetaPropExpr {
            kind: MetaPropKind::NewTarget,
        };
        return Ok(Node::leaf(alloc, span, kind));
    }
    new_expr(alloc, span, items)
}

fn is_text_part(node: &Node) -> bool
    ensures { result ≡ is_text_part node.now }
{
    matches!(node.kind, Kind::TplElement { .. })
}

/// A template of its text parts and what stands between them.
#[tactic(auto, using(ecma_grammar::proofs::Steps::filtering))]
pub fn template(alloc: Global, span: Span, items: Nodes) -> Result<Node, NoMemory>
    ensures { IfOk result (λ x. x ≡ template span items) }
{
    let mut exprs = Nodes::new(alloc);
    let mut quasis = Nodes::new(alloc);
    for node in items.into_vec() {
        if is_text_part(&node) {
            quasis.push(node)?;
        } else {
            exprs.push(node)?;
        }
    }
    Node::of(
        alloc,
        span,
        Kind::Tpl,
        [Node::list(exprs), Node::list(quasis)],
    )
}
