//! Where `super` stands.
ghost use Rattle.std.specs.Prelude.{◌≡◌};
ghost use Rattle.ecma_rules.specs.Children.{child_is};
ghost use Rattle.ecma_rules.specs.Supers.{is_linked, is_lone_super, is_private_name, is_private_of_super, is_super, is_super_member};

use crate::standing::Standing;
use ecma_tree::{Kind, Node};

fn is_linked(standing: Standing) -> bool
    ensures { result ≡ is_linked standing }
{
    matches!(standing, Standing::Linked)
}

fn is_super(kind: &Kind) -> bool
    ensures { result ≡ is_super kind.now }
{
    matches!(kind, Kind::Super)
}

/// Whether a node is `super` before no member and no arguments.
///
///     class A extends B { constructor() { super(); super.c; } }
///     class A extends B { f() { super; } }   // refused
pub(crate) fn is_lone_super(standing: Standing, node: &Node) -> bool
    ensures { result ≡ is_lone_super standing node.now }
{
    is_super(&node.kind) && !is_linked(standing)
}

fn is_super_member(kind: &Kind) -> bool
    ensures { result ≡ is_super_member kind.now }
{
    matches!(kind, Kind::SuperPropExpr)
}

fn has_private_name(node: &Node) -> bool
    ensures { result ≡ child_is is_private_name node.now 1 }
{
    match node.children.get(1) {
        Some(property) => matches!(property.kind, Kind::PrivateName { .. }),
        None => false,
    }
}

/// Whether a node is a member of `super` with a private name.
///
///     class A extends B { f() { super.c; } }
///     class A extends B { #c; f() { super.#c; } }   // refused
pub(crate) fn is_private_of_super(node: &Node) -> bool
    ensures { result ≡ is_private_of_super node.now }
{
    is_super_member(&node.kind) && has_private_name(node)
}
