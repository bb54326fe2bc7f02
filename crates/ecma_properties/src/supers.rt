//! `super(..)` in the constructor of a class with parameter properties.
ghost use Rattle.std.specs.Prelude.{◌≡◌, ◌+◌};
ghost use Rattle.std.specs.List.{list_any};
ghost use Rattle.ecma_kind.specs.Sorts.{is_type_wrapper};
ghost use Rattle.ecma_rules.specs.Supers.{is_super};
ghost use Rattle.ecma_properties.specs.Supers as table;
ghost use Rattle.ecma_properties.specs.Supers.{calls_once, class_parts, count, cut, first_alone, goes_at, is_entered, is_super_call, is_super_stmt, shares, statements_of, supers_at, supers_of};

use crate::classes::{constructor_of, has_properties};
use ecma_rules::{has_child, items_at};
use ecma_strip::stays;
use ecma_tree::{Class, Expr, Kind, Node, Stmt};

fn is_super(kind: &Kind) -> bool
    ensures { result ≡ is_super kind.now }
{
    matches!(kind, Kind::Super)
}

/// Whether a node is `super(..)`.
fn is_super_call(node: &Node) -> bool
    ensures { result ≡ is_super_call node.now }
{
    match &node.kind {
        Kind::CallExpr => match node.children.get(0) {
            Some(callee) => is_super(&callee.kind),
            None => false,
        },
        _ => false,
    }
}

fn is_type_wrapper(kind: &Kind) -> bool
    ensures { result ≡ is_type_wrapper kind.now }
{
    matches!(
        kind,
        Kind::TsTypeAssertion
            | Kind::TsConstAssertion
            | Kind::TsNonNullExpr
            | Kind::TsAsExpr
            | Kind::TsInstantiation
            | Kind::TsSatisfiesExpr
    )
}

/// An expression without the types round it.
#[tactic(auto, using(crate::proofs::Under::under))]
pub fn under_types(e: &Expr) -> &Expr
    ensures { result.now ≡ table.under_types e.now }
{
    if !is_type_wrapper(&e.kind) {
        return e;
    }
    match e.children.get(0) {
        Some(inner) => under_types(inner),
        None => e,
    }
}

/// Whether a statement is `super(..);`, perhaps with types round the call.
pub fn is_super_stmt(stmt: &Stmt) -> bool
    ensures { result ≡ is_super_stmt stmt.now }
{
    match &stmt.kind {
        Kind::ExprStmt => match stmt.children.get(0) {
            Some(e) => is_super_call(under_types(e)),
            None => false,
        },
        _ => false,
    }
}

fn any_is_super_stmt(stmts: &[Stmt]) -> bool
    ensures { result ≡ list_any is_super_stmt stmts.now }
{
    for stmt in stmts {
        if is_super_stmt(stmt) {
            return true;
        }
    }
    false
}

/// The key of a member, and nothing else of it.
fn first_alone(index: usize) -> bool
    ensures { result ≡ first_alone index }
{
    index == 0
}

/// What a class extends, and its members.
fn class_parts(index: usize) -> bool
    ensures { result ≡ class_parts index }
{
    index < 2
}

/// Whether the child at an index, of a node of this kind, belongs to the function around.
pub fn shares(kind: &Kind, index: usize) -> bool
    ensures { result ≡ shares kind.now index }
{
    match kind {
        Kind::Function { .. } | Kind::StaticBlock => false,
        Kind::Class { .. } => class_parts(index),
        Kind::GetterProp
        | Kind::SetterProp
        | Kind::Constructor { .. }
        | Kind::ClassMethod { .. }
        | Kind::PrivateMethod { .. }
        | Kind::ClassProp { .. }
        | Kind::PrivateProp { .. } => first_alone(index),
        _ => true,
    }
}

/// Whether the child at an index is an item of a list that goes with the types.
pub(crate) fn goes_at(node: &Node, index: usize) -> bool
    ensures { result ≡ goes_at node.now index }
{
    if !matches!(node.kind, Kind::List) {
        return false;
    }
    match node.children.get(index) {
        Some(item) => !stays(item),
        None => false,
    }
}

fn is_entered(node: &Node, index: usize) -> bool
    ensures { result ≡ is_entered node.now index }
{
    shares(&node.kind, index) && !goes_at(node, index)
}

fn count(is_one: bool) -> usize
    ensures { result ≡ count is_one }
{
    if is_one { 1 } else { 0 }
}

/// The sum, or the greatest number.
fn sum(first: usize, second: usize) -> usize
    ensures { result ≡ cut (first + second) }
{
    first.saturating_add(second)
}

/// How many `super(..)` a child has that is entered.
#[cycle(supers)]
#[tactic(auto, using(crate::proofs::Counting::counting))]
fn supers_within(node: &Node, index: usize) -> usize
    ensures { result ≡ cut (table.supers_within node.now index) }
{
    if !is_entered(node, index) {
        return 0;
    }
    match node.children.get(index) {
        Some(child) => supers_in(child),
        None => 0,
    }
}

/// How many `super(..)` a part of a function has of its own, or the greatest number.
#[cycle(supers)]
#[tactic(auto, using(crate::proofs::Counting::counting))]
fn supers_in(node: &Node) -> usize
    ensures { result ≡ cut (table.supers_in node.now) }
{
    let mut all = count(is_super_call(node));
    for i in 0..node.children.len() {
        let more = supers_within(node, i);
        all = sum(all, more);
    }
    all
}

fn supers_at(node: &Node, index: usize) -> usize
    ensures { result ≡ cut (supers_at node.now index) }
{
    match node.children.get(index) {
        Some(child) => supers_in(child),
        None => 0,
    }
}

/// How many `super(..)` a constructor has of its own, or the greatest number.
#[tactic(auto, using(crate::proofs::Counting::counting))]
fn supers_of(constructor: &Node) -> usize
    ensures { result ≡ cut (supers_of constructor.now) }
{
    let of_parameters = supers_at(constructor, 1);
    let of_body = supers_at(constructor, 2);
    sum(of_parameters, of_body)
}

fn statements_of(constructor: &Node) -> &[Stmt]
    ensures { result.now ≡ statements_of constructor.now }
{
    match constructor.children.get(2) {
        Some(body) => items_at(body, 0),
        None => &[],
    }
}

/// Whether a constructor has one `super(..)` of its own, which is a statement of its body.
#[tactic(auto, using(crate::proofs::Counting::counting))]
fn calls_once(constructor: &Node) -> bool
    ensures { result ≡ calls_once constructor.now }
{
    supers_of(constructor) == 1 && any_is_super_stmt(statements_of(constructor))
}

fn constructor_calls_once(class: &Class) -> bool
    ensures { result ≡ table.constructor_calls_once class.now }
{
    match constructor_of(class) {
        Some(constructor) => calls_once(constructor),
        None => false,
    }
}

/// Whether a class extends another and has parameter properties, and its constructor has no such `super(..)`.
pub(crate) fn misplaces_super(class: &Class) -> bool
    ensures { result ≡ table.misplaces_super class.now }
{
    has_child(class, 0) && has_properties(class) && !constructor_calls_once(class)
}
