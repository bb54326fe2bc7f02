//! The tree in which what would be read as something else stands in parentheses.
ghost use Rattle.std.specs.Prelude.{◌≡◌, ◌≤◌, codes, length, OnOk};
ghost use Rattle.ecma_kind.specs.Sorts.{is_type_wrapper};
ghost use Rattle.ecma_rules.specs.Children.{is_named};
ghost use Rattle.ecma_rules.specs.Statements.{is_text};
ghost use Rattle.ecma_strip.specs.Staying.{is_empty_stmt};
ghost use Rattle.ecma_enclose.specs.Enclosing.{behind_directives, enclosed, enclosed_at, first_in, front_length, goes, in_parentheses, is_async_under_types, is_enclosed, is_text_statement, is_text_under_types};

use crate::place::{Place, place_in};
use ecma_strip::stays;
use ecma_tree::{Kind, Module, NoMemory, Node};
use std::alloc::Global;
use std::mem;

fn is_text(kind: &Kind) -> bool
    ensures { result ≡ is_text kind.now }
{
    matches!(kind, Kind::Str { .. })
}

fn is_async(kind: &Kind) -> bool
    ensures { result ≡ is_named (codes "async") kind.now }
{
    match kind {
        Kind::Ident { sym, .. } => sym.as_str() == "async",
        _ => false,
    }
}

fn is_empty_stmt(kind: &Kind) -> bool
    ensures { result ≡ is_empty_stmt kind.now }
{
    matches!(kind, Kind::EmptyStmt)
}

fn is_type_wrapper(kind: &Kind) -> bool
    ensures { result ≡ is_type_wrapper kind.now }
{
    matches!(
        kind,
        Kind::TsTypeAssertion
            | Kind::TsConstAssertion
            | Kind::TsNonNullExpr
            | Kind::TsAsExpr
            | Kind::TsInstantiation
            | Kind::TsSatisfiesExpr
    )
}

/// Whether a node is a text, perhaps with types round it.
#[tactic(auto, using(crate::proofs::Under::texts))]
fn is_text_under_types(node: &Node) -> bool
    ensures { result ≡ is_text_under_types node.now }
{
    if is_text(&node.kind) {
        return true;
    }
    if !is_type_wrapper(&node.kind) {
        return false;
    }
    match node.children.get(0) {
        Some(inner) => is_text_under_types(inner),
        None => false,
    }
}

/// Whether a node is the name `async`, perhaps with types round it.
#[tactic(auto, using(crate::proofs::Under::asyncs))]
fn is_async_under_types(node: &Node) -> bool
    ensures { result ≡ is_async_under_types node.now }
{
    if is_async(&node.kind) {
        return true;
    }
    if !is_type_wrapper(&node.kind) {
        return false;
    }
    match node.children.get(0) {
        Some(inner) => is_async_under_types(inner),
        None => false,
    }
}

/// Whether a node stands in parentheses there.
fn is_enclosed(place: Place, node: &Node) -> bool
    ensures { result ≡ is_enclosed place node.now }
{
    match place {
        Place::Text => is_text_under_types(node),
        Place::Left => is_type_wrapper(&node.kind) && is_async_under_types(node),
        _ => false,
    }
}

/// Whether a statement is a text alone, as a directive is.
fn is_text_statement(node: &Node) -> bool
    ensures { result ≡ is_text_statement node.now }
{
    if !matches!(node.kind, Kind::ExprStmt) {
        return false;
    }
    match node.children.get(0) {
        Some(expression) => is_text(&expression.kind),
        None => false,
    }
}

/// Whether a statement goes when the types go.
fn goes(node: &Node) -> bool
    ensures { result ≡ goes node.now }
{
    !stays(node) || is_empty_stmt(&node.kind)
}

/// How many statements stand before the first that is no directive.
fn directives_of(statements: &[Node]) -> usize
    ensures value { result ≡ front_length is_text_statement statements.now }
    ensures within { result ≤ length statements.now }
{
    for i in 0..statements.len() {
        if !is_text_statement(&statements[i]) {
            return i;
        }
    }
    statements.len()
}

/// How many statements stand before the first that stays.
fn gone_of(statements: &[Node]) -> usize
    ensures value { result ≡ front_length goes statements.now }
    ensures within { result ≤ length statements.now }
{
    for i in 0..statements.len() {
        if !goes(&statements[i]) {
            return i;
        }
    }
    statements.len()
}

/// The index of the statement that stands first behind the directives once what goes is gone.
fn behind_directives(statements: &[Node]) -> usize
    ensures { result ≡ behind_directives statements.now }
{
    let directives = directives_of(statements);
    directives + gone_of(&statements[directives..])
}

/// That index in a list of statements; it is not asked for elsewhere.
fn first_in(place: Place, node: &Node) -> usize
    ensures { result ≡ first_in place node.now }
{
    match place {
        Place::Statements => behind_directives(node.children.as_slice()),
        _ => 0,
    }
}

/// Puts parentheses round an expression.
fn parenthesize(alloc: Global, node: &mut Node) -> Result<(), NoMemory>
    ensures { OnOk result (node.new ≡ in_parentheses node.old) }
{
    let inner = mem::replace(node, Node::absent(alloc));
    *node = Node::paren_expr(alloc, inner.span, inner)?;
    Ok(())
}

fn enclose_at(alloc: Global, place: Place, node: &mut Node) -> Result<(), NoMemory>
    ensures { OnOk result (node.new ≡ enclosed_at node.old place) }
{
    if is_enclosed(place, node) {
        return parenthesize(alloc, node);
    }
    let first = first_in(place, node);
    let count = node.children.len();
    for i in 0..count {
        let inside = place_in(place, &node.kind, first, i);
        enclose_at(alloc, inside, node.children.get_mut(i))?;
    }
    Ok(())
}

/// Puts parentheses round each text that comes to stand where a directive stands and is none, and round each `async` that comes to stand before `of` once
/// the types are gone. Its only refusal is want of memory, which leaves the tree half done.
pub fn enclose(alloc: Global, tree: &mut Module) -> Result<(), NoMemory>
    ensures { OnOk result (tree.new ≡ enclosed tree.old) }
{
    enclose_at(alloc, Place::Elsewhere, tree)
}
