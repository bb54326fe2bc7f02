//! How many contexts are needed for all that becomes of a tree.
ghost use Rattle.std.specs.Prelude.{◌≡◌, ◌+◌, ◌≤◌, cond};
ghost use Rattle.ecma_tree.specs.declared.node.Node.{out-Node};
ghost use Rattle.ecma_scope.specs.Needs.{capped, has_computed_key, helpers_by, needed, needed_at, needed_here};

use crate::role::{Role, opens, role_in};
use ecma_tree::{Kind, Module, Node};

fn has_computed_key(node: &Node) -> bool
    ensures { result ≡ has_computed_key (out-Node node.now).children }
{
    match node.children.get(0) {
        Some(key) => matches!(key.kind, Kind::ComputedPropName),
        None => false,
    }
}

fn count_of(is: bool) -> u64
    ensures value { result ≡ cond is 1 0 }
    ensures small { result ≤ 1 }
{
    if is { 1 } else { 0 }
}

#[tactic(auto, unfolding(crate::specs::Needs::helpers_by))]
fn helpers(node: &Node) -> u64
    ensures value { result ≡ helpers_by (out-Node node.now).kind (has_computed_key (out-Node node.now).children) }
    ensures small { result ≤ 1 }
{
    match &node.kind {
        Kind::Class { .. } => 1,
        Kind::ClassProp { .. } => count_of(has_computed_key(node)),
        _ => 0,
    }
}

fn needed_here(role: Role, node: &Node) -> u64
    ensures { result ≡ needed_here role node.now }
{
    let scope = count_of(opens(role, node));
    scope + helpers(node)
}

fn needed_at(role: Role, node: &Node) -> u64
    ensures { result ≡ capped (needed_at node.now role) }
{
    let mut total = needed_here(role, node);
    for i in 0..node.children.len() {
        let below = needed_at(role_in(role, node, i), node.children.at(i));
        total = total.saturating_add(below);
    }
    total
}

/// How many contexts are needed for all that becomes of a module: one for each scope, each class and each field with a key in
/// brackets, and 16 more; the greatest number of 64 bits where there are more.
pub fn needs(tree: &Module) -> u64
    ensures { result ≡ capped (needed tree.now) }
{
    needed_at(Role::Root, tree).saturating_add(16)
}
