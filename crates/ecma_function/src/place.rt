//! Where nodes stand in the body of a constructor, as far as calls of `super` are looked for there.
ghost use Rattle.std.specs.Prelude.{◌≡◌};
ghost use Rattle.ecma_function.specs.Places.{case_part, class_part, first_inside, in_list, in_statement, is_outside, place_in};

use ecma_tree::Kind;

/// Where a node stands.
#[derive(Clone, Copy, Debug)]
pub enum Place {
    /// It is a list of statements.
    Statements,
    /// It is an item of such a list.
    Item,
    /// It is the expression of a statement that is an item.
    Alone,
    /// It stands anywhere else that the constructor itself evaluates.
    Inside,
    /// It is not entered: it belongs to a function or a class.
    Outside,
}

pub(crate) fn is_outside(place: Place) -> bool
    ensures { result ≡ is_outside place }
{
    matches!(place, Place::Outside)
}

/// The first child, which is a key, stands inside, and no other does.
fn first_inside(index: usize) -> Place
    ensures { result ≡ first_inside index }
{
    if index == 0 {
        Place::Inside
    } else {
        Place::Outside
    }
}

/// Of a class what it extends and the list of its members.
fn class_part(index: usize) -> Place
    ensures { result ≡ class_part index }
{
    if index < 2 {
        Place::Inside
    } else {
        Place::Outside
    }
}

/// Of a case its test, and a list of statements.
fn case_part(index: usize) -> Place
    ensures { result ≡ case_part index }
{
    if index == 1 {
        Place::Statements
    } else {
        Place::Inside
    }
}

fn in_list(place: Place) -> Place
    ensures { result ≡ in_list place }
{
    match place {
        Place::Statements => Place::Item,
        other => other,
    }
}

fn in_statement(place: Place) -> Place
    ensures { result ≡ in_statement place }
{
    match place {
        Place::Item => Place::Alone,
        _ => Place::Inside,
    }
}

/// Where the child at an index stands, in a node of this kind that stands here and is entered.
pub(crate) fn place_in(place: Place, kind: &Kind, index: usize) -> Place
    ensures { result ≡ place_in place kind.now index }
{
    match kind {
        Kind::List => in_list(place),
        Kind::ExprStmt => in_statement(place),
        Kind::BlockStmt => Place::Statements,
        Kind::SwitchCase => case_part(index),
        Kind::Function { .. } | Kind::StaticBlock => Place::Outside,
        Kind::Class { .. } => class_part(index),
        Kind::GetterProp
        | Kind::SetterProp
        | Kind::Constructor { .. }
        | Kind::ClassMethod { .. }
        | Kind::PrivateMethod { .. }
        | Kind::ClassProp { .. }
        | Kind::PrivateProp { .. } => first_inside(index),
        _ => Place::Inside,
    }
}
