//! Whether two kinds are equal.
ghost use Rattle.std.specs.Prelude.{◌≡◌, ◌↔◌, IsTrue};

use crate::kind::Kind;

/// Whether the two are equal, with all their data.
pub fn same_kind(kind: &Kind, other: &Kind) -> bool
    ensures { IsTrue result ↔ (kind.now ≡ other.now) }
{
    kind == other
}
