//! Where a node stands, as far as assignments are written there.
ghost use Rattle.std.specs.Prelude.{◌≡◌};
ghost use Rattle.ecma_kind.specs.Sorts.{is_type_wrapper};
ghost use Rattle.ecma_lower.specs.Seats.{at_child, is_raw, of_import, of_module, of_name, seat_in};

use ecma_tree::Kind;

/// Where a node stands.
#[derive(Clone, Copy, Debug)]
pub enum Seat {
    /// The module.
    Whole,
    /// An item of the module.
    Item,
    /// The right side of an import, or what stands before a dot there.
    Value,
    /// Where nothing is written.
    Raw,
}

pub(crate) fn is_raw(seat: Seat) -> bool
    ensures { result ≡ is_raw seat }
{
    matches!(seat, Seat::Raw)
}

pub(crate) fn is_type_wrapper(kind: &Kind) -> bool
    ensures { result ≡ is_type_wrapper kind.now }
{
    matches!(
        kind,
        Kind::TsTypeAssertion
            | Kind::TsConstAssertion
            | Kind::TsNonNullExpr
            | Kind::TsAsExpr
            | Kind::TsInstantiation
            | Kind::TsSatisfiesExpr
    )
}

fn at_child(wanted: usize, index: usize, seat: Seat) -> Seat
    ensures { result ≡ at_child wanted index seat }
{
    if index == wanted { seat } else { Seat::Raw }
}

fn of_module(seat: Seat, index: usize) -> Seat
    ensures { result ≡ of_module seat index }
{
    match seat {
        Seat::Whole => at_child(0, index, Seat::Item),
        _ => Seat::Raw,
    }
}

fn of_import(seat: Seat, index: usize) -> Seat
    ensures { result ≡ of_import seat index }
{
    match seat {
        Seat::Item => at_child(1, index, Seat::Value),
        _ => Seat::Raw,
    }
}

fn of_name(seat: Seat, index: usize) -> Seat
    ensures { result ≡ of_name seat index }
{
    match seat {
        Seat::Value => at_child(0, index, Seat::Value),
        _ => Seat::Raw,
    }
}

/// Where the child at an index of a node of this kind stands.
#[tactic(auto, unfolding(crate::specs::Seats::seat_in))]
pub(crate) fn seat_in(seat: Seat, kind: &Kind, index: usize) -> Seat
    ensures { result ≡ seat_in seat kind.now index }
{
    match kind {
        Kind::Module { .. } => of_module(seat, index),
        Kind::List => seat,
        Kind::TsImportEqualsDecl {
            is_type_only: false,
            ..
        } => of_import(seat, index),
        Kind::TsQualifiedName => of_name(seat, index),
        Kind::TsTypeAssertion
        | Kind::TsConstAssertion
        | Kind::TsNonNullExpr
        | Kind::TsAsExpr
        | Kind::TsInstantiation
        | Kind::TsSatisfiesExpr => at_child(0, index, seat),
        _ => Seat::Raw,
    }
}
