//! The tree in which names with types round them are bound.
ghost use Rattle.std.specs.Prelude.{◌≡◌, OnOk};
ghost use Rattle.ecma_kind.specs.Sorts.{is_type_wrapper};
ghost use Rattle.ecma_fits.specs.Roles.{is_name};
ghost use Rattle.ecma_rules.specs.Finishing.{binding};
ghost use Rattle.ecma_bind.specs.Binding.{binds, bound_at, is_name_under_types, is_typed_name, under_types, with_bound_names};

use ecma_fits::{Role, role_in};
use ecma_tree::{Kind, Module, NoMemory, Node};
use std::alloc::Global;
use std::mem;

fn is_name(kind: &Kind) -> bool
    ensures { result ≡ is_name kind.now }
{
    matches!(kind, Kind::Ident { .. })
}

fn is_type_wrapper(kind: &Kind) -> bool
    ensures { result ≡ is_type_wrapper kind.now }
{
    matches!(
        kind,
        Kind::TsTypeAssertion
            | Kind::TsConstAssertion
            | Kind::TsNonNullExpr
            | Kind::TsAsExpr
            | Kind::TsInstantiation
            | Kind::TsSatisfiesExpr
    )
}

/// Whether a node is a name, perhaps with types round it.
#[tactic(auto, using(crate::proofs::Names::names))]
fn is_name_under_types(node: &Node) -> bool
    ensures { result ≡ is_name_under_types node.now }
{
    if is_name(&node.kind) {
        return true;
    }
    if !is_type_wrapper(&node.kind) {
        return false;
    }
    match node.children.get(0) {
        Some(inner) => is_name_under_types(inner),
        None => false,
    }
}

/// Whether a name is bound there: in a pattern that is assigned to, and before `in` or `of`.
fn binds(role: Role) -> bool
    ensures { result ≡ binds role }
{
    matches!(
        role,
        Role::Head
            | Role::Assigned
            | Role::AssignedValue
            | Role::AssignedElement
            | Role::AssignedName
    )
}

fn is_typed_name(role: Role, node: &Node) -> bool
    ensures { result ≡ is_typed_name role node.now }
{
    binds(role) && is_type_wrapper(&node.kind) && is_name_under_types(node)
}

/// Takes away the types round an expression.
#[tactic(auto, using(crate::proofs::Names::unwrapping))]
fn drop_types(alloc: Global, node: &mut Node)
    ensures { node.new ≡ under_types node.old }
{
    if !is_type_wrapper(&node.kind) {
        return;
    }
    if node.children.is_empty() {
        return;
    }
    let mut inner = node.children.replace(0, Node::absent(alloc));
    drop_types(alloc, &mut inner);
    *node = inner;
}

/// Makes a name a pattern, without the types round it.
fn bind(alloc: Global, node: &mut Node) -> Result<(), NoMemory>
    ensures { OnOk result (node.new ≡ binding (under_types node.old)) }
{
    drop_types(alloc, node);
    let name = mem::replace(node, Node::absent(alloc));
    *node = Node::binding_ident(alloc, name.span, name, None)?;
    Ok(())
}

fn bind_at(alloc: Global, role: Role, node: &mut Node) -> Result<(), NoMemory>
    ensures { OnOk result (node.new ≡ bound_at node.old role) }
{
    if is_typed_name(role, node) {
        return bind(alloc, node);
    }
    let count = node.children.len();
    for i in 0..count {
        let inside = role_in(role, &node.kind, i);
        bind_at(alloc, inside, node.children.get_mut(i))?;
    }
    Ok(())
}

/// Binds each name with a type round it that stands in a pattern that is assigned to, or before `in` or `of`, as finishing binds a name without
/// types. Its only refusal is want of memory, which leaves the tree half done.
pub fn bind_names(alloc: Global, tree: &mut Module) -> Result<(), NoMemory>
    ensures { OnOk result (tree.new ≡ with_bound_names tree.old) }
{
    bind_at(alloc, Role::Free, tree)
}
