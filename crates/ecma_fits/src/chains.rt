//! Links of optional chains.
ghost use Rattle.std.specs.Prelude.{◌≡◌};
ghost use Rattle.ecma_rules.specs.Children.{child_holds};
ghost use Rattle.ecma_fits.specs.Chains.{goes_on, is_behind_chain, is_link, is_loose, keeps_chain};

use ecma_tree::{Kind, Node};

fn is_link(kind: &Kind) -> bool
    ensures { result ≡ is_link kind.now }
{
    matches!(kind, Kind::OptChainExpr { .. })
}

fn keeps_chain(kind: &Kind) -> bool
    ensures { result ≡ keeps_chain kind.now }
{
    matches!(kind, Kind::TsNonNullExpr | Kind::TsInstantiation)
}

/// Whether an optional chain goes on after a node.
#[tactic(auto, using(crate::proofs::Going::going))]
fn goes_on(node: &Node) -> bool
    ensures { result ≡ goes_on node.now }
{
    if is_link(&node.kind) {
        return true;
    }
    if !keeps_chain(&node.kind) {
        return false;
    }
    match node.children.get(0) {
        Some(inner) => goes_on(inner),
        None => false,
    }
}

/// Whether the object or the callee of a link is one that a chain goes on after.
fn is_behind_chain(base: &Node) -> bool
    ensures { result ≡ is_behind_chain base.now }
{
    match base.children.get(0) {
        Some(object) => goes_on(object),
        None => false,
    }
}

fn base_is_behind_chain(node: &Node) -> bool
    ensures { result ≡ child_holds is_behind_chain node.now 0 }
{
    match node.children.get(0) {
        Some(base) => is_behind_chain(base),
        None => false,
    }
}

/// Whether a node is a link without its own `?.` that goes on with no chain.
pub(crate) fn is_loose(node: &Node) -> bool
    ensures { result ≡ is_loose node.now }
{
    match &node.kind {
        Kind::OptChainExpr { optional } => !*optional && !base_is_behind_chain(node),
        _ => false,
    }
}
