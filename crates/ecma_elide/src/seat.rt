//! Where a node stands, as far as elision asks.
ghost use Rattle.std.specs.Prelude.{◌≡◌};
ghost use Rattle.ecma_elide.specs.Elision.{at_first, in_items, in_node, in_others, seat_in};
ghost use Rattle.ecma_elide.specs.Rules.{exported};

use ecma_tree::Kind;

/// Where a node stands.
#[derive(Clone, Copy, Debug)]
pub enum Seat {
    /// Where nothing else is said: also the items of a namespace.
    Elsewhere,
    /// An item of a module, or the list of them.
    Items,
    /// A specifier of an import, or the list of them.
    Imported,
    /// A specifier of an export without a source, or the list of them.
    Exported,
    /// A specifier of an export with a source, or the list of them.
    Reexported,
}

fn at_first(seat: Seat, index: usize) -> Seat
    ensures { result ≡ at_first seat index }
{
    if index == 0 { seat } else { Seat::Elsewhere }
}

/// The specifiers of an export, with a source or without.
pub(crate) fn exported(sourced: bool) -> Seat
    ensures { result ≡ exported sourced }
{
    if sourced {
        Seat::Reexported
    } else {
        Seat::Exported
    }
}

fn in_items(kind: &Kind, sourced: bool, index: usize) -> Seat
    ensures { result ≡ in_items kind.now sourced index }
{
    match kind {
        Kind::ImportDecl { .. } => at_first(Seat::Imported, index),
        Kind::NamedExport { .. } => at_first(exported(sourced), index),
        _ => Seat::Elsewhere,
    }
}

fn in_others(kind: &Kind, index: usize) -> Seat
    ensures { result ≡ in_others kind.now index }
{
    match kind {
        Kind::Module { .. } => at_first(Seat::Items, index),
        _ => Seat::Elsewhere,
    }
}

fn in_node(seat: Seat, kind: &Kind, sourced: bool, index: usize) -> Seat
    ensures { result ≡ in_node seat kind.now sourced index }
{
    match seat {
        Seat::Items => in_items(kind, sourced, index),
        Seat::Elsewhere => in_others(kind, index),
        _ => Seat::Elsewhere,
    }
}

/// The seat of the child at an index; an item has that of its list, and an export may have a source.
#[tactic(auto, unfolding(crate::specs::Elision::seat_in))]
pub(crate) fn seat_in(seat: Seat, kind: &Kind, sourced: bool, index: usize) -> Seat
    ensures { result ≡ seat_in seat kind.now sourced index }
{
    match kind {
        Kind::List => seat,
        _ => in_node(seat, kind, sourced, index),
    }
}
