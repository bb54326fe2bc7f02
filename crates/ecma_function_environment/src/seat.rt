//! What a node is there for, as far as a function's surroundings are asked for.
ghost use Rattle.std.specs.Prelude.{◌≡◌};
ghost use Rattle.ecma_function_environment.specs.Seats.{call_part, callee_seat, child_seat, drops, first_as, handed, in_list, is_entered, is_read, key_alone, member_part, over_seat, round_part, seat_in, seat_of};

use ecma_tree::{Kind, Sort, field_shapes};

/// What a node is there for.
#[derive(Clone, Copy, Debug)]
pub enum Seat {
    /// An expression that is evaluated for its value.
    Read,
    /// What is assigned to, but not by `=` alone.
    Target,
    /// A member of `super` that is assigned to by `=`.
    Assigned,
    /// A member of `super` that is called.
    Called,
    /// A call in a chain whose callee is a member of `super` with `?.` behind it.
    Chained,
    /// That member.
    ChainCalled,
    /// A member of `super` that is the tag of a template.
    Tag,
    /// Arguments, with a receiver before them.
    Received,
    /// The key of a member of `super`.
    Key,
    /// What is not written again.
    Gone,
    /// What is not entered: it belongs to a function or a class.
    Outside,
    /// All else.
    Other,
}

pub(crate) fn is_entered(seat: Seat) -> bool
    ensures { result ≡ is_entered seat }
{
    !matches!(seat, Seat::Gone | Seat::Outside)
}

pub(crate) fn is_read(seat: Seat) -> bool
    ensures { result ≡ is_read seat }
{
    matches!(seat, Seat::Read)
}

/// Whether parentheses round a member of `super` go.
pub(crate) fn drops(seat: Seat) -> bool
    ensures { result ≡ drops seat }
{
    matches!(
        seat,
        Seat::Assigned | Seat::Called | Seat::ChainCalled | Seat::Tag
    )
}

/// What a child of this sort is there for.
fn seat_of(sort: Sort) -> Seat
    ensures { result ≡ seat_of sort }
{
    match sort {
        Sort::Expr
        | Sort::ExprOrSpread
        | Sort::Callee
        | Sort::BlockStmtOrExpr
        | Sort::VarDeclOrExpr => Seat::Read,
        Sort::AssignTarget | Sort::Pat | Sort::ForHead => Seat::Target,
        _ => Seat::Other,
    }
}

fn child_seat(kind: &Kind, index: usize) -> Seat
    ensures { result ≡ child_seat kind.now index }
{
    match field_shapes(kind).get(index) {
        Some(child) => seat_of(child.shape.sort),
        None => Seat::Other,
    }
}

fn first_as(first: Seat, kind: &Kind, index: usize) -> Seat
    ensures { result ≡ first_as first kind.now index }
{
    if index == 0 {
        first
    } else {
        child_seat(kind, index)
    }
}

/// Of a getter or a setter the key alone.
fn key_alone(index: usize) -> Seat
    ensures { result ≡ key_alone index }
{
    if index == 0 {
        Seat::Other
    } else {
        Seat::Outside
    }
}

fn in_list(seat: Seat) -> Seat
    ensures { result ≡ in_list seat }
{
    match seat {
        Seat::Received => Seat::Read,
        other => other,
    }
}

/// Of a member of `super` the key.
fn member_part(index: usize) -> Seat
    ensures { result ≡ member_part index }
{
    if index == 1 { Seat::Key } else { Seat::Gone }
}

/// Of a call of a member of `super` that member, and the arguments.
fn call_part(callee: Seat, index: usize) -> Seat
    ensures { result ≡ call_part callee index }
{
    if index == 0 {
        callee
    } else if index == 1 {
        Seat::Received
    } else {
        Seat::Other
    }
}

fn callee_seat(seat: Seat) -> Seat
    ensures { result ≡ callee_seat seat }
{
    match seat {
        Seat::Chained => Seat::ChainCalled,
        _ => Seat::Called,
    }
}

/// What is in parentheses round a member of `super`.
fn handed(seat: Seat) -> Seat
    ensures { result ≡ handed seat }
{
    match seat {
        Seat::Target | Seat::Assigned | Seat::Called | Seat::ChainCalled | Seat::Tag => seat,
        _ => Seat::Read,
    }
}

/// Of parentheses round a member of `super` what is in them; a type goes with them.
fn round_part(seat: Seat, index: usize) -> Seat
    ensures { result ≡ round_part seat index }
{
    if index == 0 {
        return handed(seat);
    }
    if drops(seat) { Seat::Gone } else { Seat::Other }
}

/// The child at an index of a node that is about a member of `super`.
fn over_seat(seat: Seat, kind: &Kind, index: usize) -> Seat
    ensures { result ≡ over_seat seat kind.now index }
{
    match kind {
        Kind::SuperPropExpr => member_part(index),
        Kind::CallExpr => call_part(Seat::Called, index),
        Kind::OptCall => call_part(callee_seat(seat), index),
        Kind::OptChainExpr { .. } => Seat::Chained,
        Kind::TaggedTpl => first_as(Seat::Tag, kind, index),
        Kind::AssignExpr { .. } => first_as(Seat::Assigned, kind, index),
        Kind::UpdateExpr { .. } => Seat::Target,
        _ => round_part(seat, index),
    }
}

/// What the child at an index is there for, in a node of this kind and seat, which is about a member of `super` or not.
pub(crate) fn seat_in(over: bool, seat: Seat, kind: &Kind, index: usize) -> Seat
    ensures { result ≡ seat_in over seat kind.now index }
{
    match kind {
        Kind::List => in_list(seat),
        Kind::SeqExpr | Kind::ComputedPropName => Seat::Read,
        Kind::Function { .. } | Kind::Class { .. } => Seat::Outside,
        Kind::GetterProp | Kind::SetterProp => key_alone(index),
        _ => {
            if over {
                over_seat(seat, kind, index)
            } else {
                child_seat(kind, index)
            }
        }
    }
}
