//! `arguments` in patterns that are assigned to.
ghost use Rattle.std.specs.Prelude.{◌≡◌, codes};
ghost use Rattle.ecma_rules.specs.Children.{child_is, is_named};
ghost use Rattle.ecma_fits.specs.Strays.{all_held, arguments_in, behind_key, in_field, in_function, is_stray_target, not_held};

use crate::role::{Role, is_assigned, is_bound_name};
use ecma_tree::{Kind, Node};

/// What `arguments` belongs to.
#[derive(Clone, Copy, Debug)]
pub struct Arguments {
    /// An enum initialiser or a namespace body is around.
    pub held: bool,
    /// It belongs to nothing inside that.
    pub stray: bool,
}

pub(crate) fn not_held() -> Arguments
    ensures { result ≡ not_held }
{
    Arguments {
        held: false,
        stray: false,
    }
}

fn all_held() -> Arguments
    ensures { result ≡ all_held }
{
    Arguments {
        held: true,
        stray: true,
    }
}

fn in_function(arguments: Arguments) -> Arguments
    ensures { result ≡ in_function arguments }
{
    Arguments {
        held: arguments.held,
        stray: false,
    }
}

fn in_field(arguments: Arguments) -> Arguments
    ensures { result ≡ in_field arguments }
{
    Arguments {
        held: arguments.held,
        stray: arguments.held,
    }
}

fn behind_key(index: usize, inside: Arguments, arguments: Arguments) -> Arguments
    ensures { result ≡ behind_key index inside arguments }
{
    if index == 0 { arguments } else { inside }
}

/// What `arguments` belongs to in the child at an index of a node of this kind.
#[tactic(auto, unfolding(crate::specs::Strays::arguments_in))]
pub(crate) fn arguments_in(arguments: Arguments, kind: &Kind, index: usize) -> Arguments
    ensures { result ≡ arguments_in arguments kind.now index }
{
    match kind {
        Kind::Function { .. } => in_function(arguments),
        Kind::Constructor { .. } => behind_key(index, in_function(arguments), arguments),
        Kind::GetterProp => behind_key(index, in_function(arguments), arguments),
        Kind::SetterProp => behind_key(index, in_function(arguments), arguments),
        Kind::ClassProp { .. } => behind_key(index, in_field(arguments), arguments),
        Kind::PrivateProp { .. } => behind_key(index, in_field(arguments), arguments),
        Kind::StaticBlock => in_field(arguments),
        Kind::TsEnumMember => behind_key(index, all_held(), arguments),
        Kind::TsModuleBlock => all_held(),
        _ => arguments,
    }
}

fn is_named_arguments(kind: &Kind) -> bool
    ensures { result ≡ is_named (codes "arguments") kind.now }
{
    match kind {
        Kind::Ident { sym, .. } => sym.as_str() == "arguments",
        _ => false,
    }
}

fn binds_arguments(node: &Node) -> bool
    ensures { result ≡ child_is (is_named (codes "arguments")) node.now 0 }
{
    match node.children.get(0) {
        Some(name) => is_named_arguments(&name.kind),
        None => false,
    }
}

/// Whether a node is `arguments`, which is assigned to in a pattern and belongs to nothing.
pub(crate) fn is_stray_target(role: Role, arguments: Arguments, node: &Node) -> bool
    ensures { result ≡ is_stray_target role arguments node.now }
{
    arguments.stray && is_assigned(role) && is_bound_name(&node.kind) && binds_arguments(node)
}
