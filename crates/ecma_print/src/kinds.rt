//! What a child is, where its parent has to know.
ghost use Rattle.std.specs.Prelude.{◌≡◌};
ghost use Rattle.ecma_print.specs.Laid.{is_absent, is_block, is_computed, is_named, is_object_pattern};
ghost use Rattle.ecma_print.specs.Layout.{laid};

use ecma_tree::{Kind, Node};

#[tactic(auto, using(crate::proofs::LaidOut::kinds))]
pub(crate) fn is_absent(node: &Node) -> bool
    ensures { result ≡ is_absent (laid node.now).kind }
{
    matches!(node.kind, Kind::Absent)
}

#[tactic(auto, using(crate::proofs::LaidOut::kinds))]
pub(crate) fn is_block(node: &Node) -> bool
    ensures { result ≡ is_block (laid node.now).kind }
{
    matches!(node.kind, Kind::BlockStmt)
}

#[tactic(auto, using(crate::proofs::LaidOut::kinds))]
pub(crate) fn is_object_pattern(node: &Node) -> bool
    ensures { result ≡ is_object_pattern (laid node.now).kind }
{
    matches!(node.kind, Kind::ObjectPat { .. })
}

/// A key in brackets.
#[tactic(auto, using(crate::proofs::LaidOut::kinds))]
pub(crate) fn is_computed(node: &Node) -> bool
    ensures { result ≡ is_computed (laid node.now).kind }
{
    matches!(node.kind, Kind::ComputedPropName)
}

/// A specifier that stands in braces.
#[tactic(auto, using(crate::proofs::LaidOut::kinds))]
pub(crate) fn is_named(node: &Node) -> bool
    ensures { result ≡ is_named (laid node.now).kind }
{
    matches!(
        node.kind,
        Kind::ImportNamedSpecifier { .. } | Kind::ExportNamedSpecifier { .. }
    )
}
