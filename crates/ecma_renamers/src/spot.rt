//! What a node is to what stands around it, as a renaming hands it down.
ghost use Rattle.std.specs.Prelude.{◌≡◌, ◌==◌, if◌then◌else◌};
ghost use Rattle.ecma_kind.specs.declared.kind.Kind.TheVariants as kind;
ghost use Rattle.ecma_renamers.specs.declared.spot.Spot.TheVariants as spot;
ghost use Rattle.ecma_renamers.specs.Renaming.{is_kept, is_type, spot_by};

use ecma_tree::Kind;

/// What a node is to an object or a specifier.
#[derive(Clone, Copy, Debug)]
pub enum Spot {
    Elsewhere,
    /// The list of properties of an object.
    Properties,
    /// One of them: an identifier here is a shorthand.
    Property,
    /// The name that others know a specifier's by, which stays.
    Kept,
}

fn is_type(kind: &Kind) -> bool
    ensures { result ≡ is_type kind.now }
{
    matches!(
        kind,
        Kind::TsTypeAnn
            | Kind::TsType
            | Kind::TsTypeParamDecl
            | Kind::TsTypeParamInstantiation
            | Kind::TsInterfaceDecl { .. }
            | Kind::TsTypeAliasDecl { .. }
    )
}

/// Whether nothing changes in a node: it is a type, or a name that stays.
pub(crate) fn is_kept(spot: Spot, kind: &Kind) -> bool
    ensures { result ≡ is_kept spot kind.now }
{
    match spot {
        Spot::Kept => true,
        _ => is_type(kind),
    }
}

fn properties_at(index: usize) -> Spot
    ensures { result ≡ (if index == 0 then spot.Properties else spot.Elsewhere) }
{
    if index == 0 {
        Spot::Properties
    } else {
        Spot::Elsewhere
    }
}

fn item_of(spot: Spot) -> Spot
    ensures { result ≡ spot_by spot kind.List 0 }
{
    match spot {
        Spot::Properties => Spot::Property,
        _ => Spot::Elsewhere,
    }
}

/// What the child at an index of a node of this kind is to an object.
pub(crate) fn spot_by(spot: Spot, kind: &Kind, index: usize) -> Spot
    ensures { result ≡ spot_by spot kind.now index }
{
    match kind {
        Kind::ObjectLit => properties_at(index),
        Kind::List => item_of(spot),
        _ => Spot::Elsewhere,
    }
}
