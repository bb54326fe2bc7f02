//! The least of places.
ghost use Rattle.std.specs.Prelude.{◌≡◌};
ghost use Rattle.ecma_rules.specs.Failing.{failing_here, least};

use ecma_tree::Node;

/// The place at which a node begins, where it fails.
pub fn failing_here(fails: bool, node: &Node) -> Option<u32>
    ensures { result ≡ failing_here fails node.now }
{
    if fails { Some(node.span.lo) } else { None }
}

/// The lesser of two places, each of which may be missing.
pub fn least(place: Option<u32>, other: Option<u32>) -> Option<u32>
    ensures { result ≡ least place other }
{
    match place {
        None => other,
        Some(i) => match other {
            None => Some(i),
            Some(j) => Some(i.min(j)),
        },
    }
}
