//! What a node is there for, as far as names are asked of there.
ghost use Rattle.std.specs.Prelude.{◌≡◌};
ghost use Rattle.ecma_references.specs.Seats.{child_seat, first_as, seat_in, seat_of};

use ecma_tree::{Kind, Sort, field_shapes};

/// What a node is there for.
#[derive(Clone, Copy, Debug)]
pub enum Seat {
    /// An expression: a name here is read.
    Read,
    /// What a call calls, or the tag of a template: a name here is read too.
    Called,
    /// What is assigned to or a pattern, or a property of one: a name here is written to.
    Target,
    /// What a declarator declares: a name here stays.
    Declared,
    /// A property of an object: a name here is a shorthand, and is read.
    Property,
    /// All else: a name here is a key, a label or a declared name, and stays.
    Other,
}

/// What a child of this sort is there for.
fn seat_of(sort: Sort) -> Seat
    ensures { result ≡ seat_of sort }
{
    match sort {
        Sort::Expr | Sort::ExprOrSpread | Sort::BlockStmtOrExpr | Sort::VarDeclOrExpr => Seat::Read,
        Sort::Callee => Seat::Called,
        Sort::AssignTarget | Sort::Pat | Sort::ForHead | Sort::ObjectPatProp => Seat::Target,
        Sort::PropOrSpread | Sort::Prop => Seat::Property,
        _ => Seat::Other,
    }
}

fn child_seat(kind: &Kind, index: usize) -> Seat
    ensures { result ≡ child_seat kind.now index }
{
    match field_shapes(kind).get(index) {
        Some(child) => seat_of(child.shape.sort),
        None => Seat::Other,
    }
}

fn first_as(first: Seat, kind: &Kind, index: usize) -> Seat
    ensures { result ≡ first_as first kind.now index }
{
    if index == 0 {
        first
    } else {
        child_seat(kind, index)
    }
}

/// What the child at an index of a node of this kind is there for.
#[tactic(auto, unfolding(crate::specs::Seats::seat_in))]
pub(crate) fn seat_in(seat: Seat, kind: &Kind, index: usize) -> Seat
    ensures { result ≡ seat_in seat kind.now index }
{
    match kind {
        Kind::List => seat,
        Kind::SeqExpr => Seat::Read,
        Kind::TaggedTpl => first_as(Seat::Called, kind, index),
        Kind::VarDeclarator { .. } => first_as(Seat::Declared, kind, index),
        _ => child_seat(kind, index),
    }
}
