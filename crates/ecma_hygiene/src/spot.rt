//! What a node is to the object and to the parents that it stands in, as the walks of hygiene hand it down.
ghost use Rattle.std.specs.Prelude.{◌≡◌, ◌==◌, cond};
ghost use Rattle.ecma_kind.specs.declared.kind.Kind.TheVariants as kind;
ghost use Rattle.ecma_hygiene.specs.declared.spot.Spot.TheVariants as spot;
ghost use Rattle.ecma_hygiene.specs.Renamed.{is_sourced, spot_in};

use ecma_scope::Role;
use ecma_tree::Kind;

/// What a node is to an object.
#[derive(Clone, Copy, Debug)]
pub enum Spot {
    Elsewhere,
    /// The list of its properties.
    Properties,
    /// One of them: an identifier here is a shorthand.
    Property,
}

/// What a node is to its parents.
#[derive(Clone, Copy, Debug)]
pub struct Standing {
    pub role: Role,
    pub spot: Spot,
}

pub(crate) fn is_sourced(role: Role) -> bool
    ensures { result ≡ is_sourced role }
{
    matches!(role, Role::Sourced)
}

fn properties_at(index: usize) -> Spot
    ensures { result ≡ cond (index == 0) spot.Properties spot.Elsewhere }
{
    if index == 0 {
        Spot::Properties
    } else {
        Spot::Elsewhere
    }
}

fn item_of(spot: Spot) -> Spot
    ensures { result ≡ spot_in spot kind.List 0 }
{
    match spot {
        Spot::Properties => Spot::Property,
        _ => Spot::Elsewhere,
    }
}

/// What the child at an index of a node of this kind is to an object.
pub(crate) fn spot_in(spot: Spot, kind: &Kind, index: usize) -> Spot
    ensures { result ≡ spot_in spot kind.now index }
{
    match kind {
        Kind::ObjectLit => properties_at(index),
        Kind::List => item_of(spot),
        _ => Spot::Elsewhere,
    }
}
