//! What stands for names of members and for reads of them.
ghost use Rattle.std.specs.Prelude.{◌≡◌, IfOk, get_or};
ghost use Rattle.ecma_tree.specs.Nodes.{absent};
ghost use Rattle.ecma_tree.specs.declared.node.Node.{out-Node};
ghost use Rattle.ecma_lower_enums.specs.Writing.{answer_by, answered, bound_answer, bound_name, member_answer, name_answer, pair, pattern_answer, read, short_answer, short_name, target_of, value_read, with_default};

use crate::forms::member;
use crate::known::{KnownEnums, alias};
use crate::parts::is_absent;
use crate::place::Place;
use ecma_enums::known_read;
use ecma_tree::{Expr, Ident, Kind, NoMemory, Node, Nodes, Pat, Span};
use std::alloc::Global;

/// What stands for a node.
#[derive(Debug, Drop)]
pub enum Answer {
    /// This node.
    Instead(Node),
    /// `key: e` in a pattern, with the default of the node.
    Pattern(Node, Node),
}

/// The value of a member that an expression reads, where it is known.
fn value_read(alloc: Global, enums: &KnownEnums, e: &Expr) -> Result<Option<Expr>, NoMemory>
    ensures { IfOk result (λ value. value ≡ value_read enums.now e.now) }
{
    match known_read(&enums.members, enums.may_change, e)? {
        Some(value) => value.into_expr(alloc),
        None => Ok(None),
    }
}

fn read(alloc: Global, enums: &KnownEnums, e: Expr) -> Result<Expr, NoMemory>
    ensures { IfOk result (λ node. node ≡ read enums.now e) }
{
    match value_read(alloc, enums, &e)? {
        Some(value) => Ok(value),
        None => Ok(e),
    }
}

/// `{ A: e }`
fn pair(alloc: Global, span: Span, sym: &str, e: Expr) -> Result<Node, NoMemory>
    ensures { IfOk result (λ node. node ≡ pair span sym.now e) }
{
    let key = ecma_utils::key_of_text(alloc, span, sym)?;
    Node::of(alloc, span, Kind::KeyValueProp, [key, e])
}

fn named_answer(
    alloc: Global,
    enums: &KnownEnums,
    place: Place,
    span: Span,
    sym: &str,
    of: Ident,
) -> Result<Option<Answer>, NoMemory>
    ensures { IfOk result (λ answer. answer ≡ name_answer enums.now place span sym.now (Some of)) }
{
    match place {
        Place::Read => {
            let e = member(alloc, of, sym)?;
            Ok(Some(Answer::Instead(read(alloc, enums, e)?)))
        }
        Place::Target => Ok(Some(Answer::Instead(member(alloc, of, sym)?))),
        Place::Property => {
            let e = member(alloc, of, sym)?;
            let e = read(alloc, enums, e)?;
            Ok(Some(Answer::Instead(pair(alloc, span, sym, e)?)))
        }
        _ => Ok(None),
    }
}

fn name_answer(
    alloc: Global,
    enums: &KnownEnums,
    place: Place,
    span: Span,
    sym: &str,
    of: Option<Ident>,
) -> Result<Option<Answer>, NoMemory>
    ensures { IfOk result (λ answer. answer ≡ name_answer enums.now place span sym.now of) }
{
    match of {
        Some(of) => named_answer(alloc, enums, place, span, sym, of),
        None => Ok(None),
    }
}

fn target_of(alloc: Global, enums: &KnownEnums, name: &Ident) -> Result<Option<Answer>, NoMemory>
    ensures { IfOk result (λ answer. answer ≡ target_of enums.now name.now) }
{
    match alias(enums.names.as_slice(), &name.sym, name.ctxt)? {
        Some(of) => Ok(Some(Answer::Instead(member(alloc, of, name.sym.as_str())?))),
        None => Ok(None),
    }
}

fn bound_name(node: &Node) -> Result<Option<Ident>, NoMemory>
    ensures { IfOk result (λ name. name ≡ bound_name (out-Node node.now).children) }
{
    match node.children.get(0) {
        Some(name) => name.to_ident(),
        None => Ok(None),
    }
}

fn bound_target(alloc: Global, enums: &KnownEnums, node: &Node) -> Result<Option<Answer>, NoMemory>
    ensures { IfOk result (λ answer. answer
        ≡ bound_answer enums.now Place.Target (out-Node node.now).children) }
{
    match bound_name(node)? {
        Some(name) => target_of(alloc, enums, &name),
        None => Ok(None),
    }
}

fn bound_answer(
    alloc: Global,
    enums: &KnownEnums,
    place: Place,
    node: &Node,
) -> Result<Option<Answer>, NoMemory>
    ensures { IfOk result (λ answer. answer
        ≡ bound_answer enums.now place (out-Node node.now).children) }
{
    match place {
        Place::Target => bound_target(alloc, enums, node),
        _ => Ok(None),
    }
}

fn pattern_answer(
    alloc: Global,
    enums: &KnownEnums,
    name: &Ident,
) -> Result<Option<Answer>, NoMemory>
    ensures { IfOk result (λ answer. answer ≡ pattern_answer enums.now name.now) }
{
    match alias(enums.names.as_slice(), &name.sym, name.ctxt)? {
        Some(of) => {
            let key = ecma_utils::key_of_text(alloc, name.span, name.sym.as_str())?;
            let e = member(alloc, of, name.sym.as_str())?;
            Ok(Some(Answer::Pattern(key, e)))
        }
        None => Ok(None),
    }
}

fn short_name(node: &Node) -> Result<Option<Ident>, NoMemory>
    ensures { IfOk result (λ name. name ≡ short_name (out-Node node.now).children) }
{
    match node.children.get(0) {
        Some(key) => bound_name(key),
        None => Ok(None),
    }
}

fn short_target(alloc: Global, enums: &KnownEnums, node: &Node) -> Result<Option<Answer>, NoMemory>
    ensures { IfOk result (λ answer. answer
        ≡ short_answer enums.now Place.Target (out-Node node.now).children) }
{
    match short_name(node)? {
        Some(name) => pattern_answer(alloc, enums, &name),
        None => Ok(None),
    }
}

fn short_answer(
    alloc: Global,
    enums: &KnownEnums,
    place: Place,
    node: &Node,
) -> Result<Option<Answer>, NoMemory>
    ensures { IfOk result (λ answer. answer
        ≡ short_answer enums.now place (out-Node node.now).children) }
{
    match place {
        Place::Target => short_target(alloc, enums, node),
        _ => Ok(None),
    }
}

fn member_answer(
    alloc: Global,
    enums: &KnownEnums,
    place: Place,
    e: &Expr,
) -> Result<Option<Answer>, NoMemory>
    ensures { IfOk result (λ answer. answer ≡ member_answer enums.now place e.now) }
{
    match place {
        Place::Read => match value_read(alloc, enums, e)? {
            Some(value) => Ok(Some(Answer::Instead(value))),
            None => Ok(None),
        },
        _ => Ok(None),
    }
}

/// What stands for a node in its place, if anything does.
#[tactic(auto, unfolding(crate::specs::Writing::answer_by))]
pub(crate) fn answer_of(
    alloc: Global,
    enums: &KnownEnums,
    place: Place,
    node: &Node,
) -> Result<Option<Answer>, NoMemory>
    ensures { IfOk result (λ answer. answer ≡ answer_by enums.now place
        (out-Node node.now).span (out-Node node.now).kind (out-Node node.now).children) }
{
    match &node.kind {
        Kind::Ident { sym, ctxt, .. } => {
            let of = alias(enums.names.as_slice(), sym, *ctxt)?;
            name_answer(alloc, enums, place, node.span, sym.as_str(), of)
        }
        Kind::BindingIdent => bound_answer(alloc, enums, place, node),
        Kind::AssignPatProp => short_answer(alloc, enums, place, node),
        Kind::MemberExpr => member_answer(alloc, enums, place, node),
        _ => Ok(None),
    }
}

fn with_default(alloc: Global, span: Span, e: Expr, value: Node) -> Result<Pat, NoMemory>
    ensures { IfOk result (λ node. node ≡ with_default span e value) }
{
    if is_absent(&value) {
        return Ok(e);
    }
    Node::of(alloc, span, Kind::AssignPat, [e, value])
}

fn second_of(alloc: Global, mut children: Nodes) -> Node
    ensures { result ≡ get_or children 1 absent }
{
    if 1 < children.len() {
        children.replace(1, Node::absent(alloc))
    } else {
        Node::absent(alloc)
    }
}

/// A node over what its children became, by what stands for it.
pub(crate) fn answered(
    alloc: Global,
    answer: Option<Answer>,
    span: Span,
    kind: Kind,
    children: Nodes,
) -> Result<Node, NoMemory>
    ensures { IfOk result (λ node. node ≡ answered answer span kind children) }
{
    match answer {
        None => Ok(Node::new(span, kind, children)),
        Some(Answer::Instead(e)) => Ok(e),
        Some(Answer::Pattern(key, e)) => {
            let value = second_of(alloc, children);
            let pattern = with_default(alloc, span, e, value)?;
            Node::of(alloc, span, Kind::KeyValuePatProp, [key, pattern])
        }
    }
}
