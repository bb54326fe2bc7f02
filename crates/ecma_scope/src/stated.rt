//! What a scope declares.
ghost use Rattle.std.specs.Prelude.{◌≡◌, ◌++◌, OnOk, IfOk};
ghost use Rattle.ecma_scope.specs.Indexed.{states_of};
ghost use Rattle.ecma_scope.specs.Declarations.{holds_vars, is_body, is_hoisted, is_own, is_stated, own_part};
ghost use Rattle.ecma_scope.specs.Located.{located_names, located_vars};

use crate::form::{Declaration, Form, Located, Part, Sought};
use crate::index::{Index, states};
use crate::names::push_declarations;
use crate::role::{Role, is_ambient};
use ecma_tree::{Kind, NoMemory, Node};
use item_list::ItemList;
use std::alloc::Global;

fn is_hoisted(form: Form) -> bool
    ensures { result ≡ is_hoisted form }
{
    matches!(form, Form::Var | Form::Function)
}

pub(crate) fn is_stated(stated: Option<bool>) -> bool
    ensures { result ≡ is_stated stated }
{
    stated.is_some()
}

fn is_own(role: Role, around: &Index, name: &Declaration) -> bool
    ensures { result ≡ is_own role (states_of around.now) name.now }
{
    match role {
        Role::Body => !(is_hoisted(name.form) && is_stated(states(around, &name.sym))),
        _ => true,
    }
}

/// Whether a node in this role is the body of a function, or the block of a static block.
pub(crate) fn is_body(role: Role) -> bool
    ensures { result ≡ is_body role }
{
    matches!(role, Role::Body | Role::StaticBody)
}

/// Whether the names of `var` statements inside belong to the scope that a node of this role and kind opens.
#[tactic(auto, unfolding(crate::specs::Declarations::holds_vars))]
pub fn holds_vars(role: Role, kind: &Kind) -> bool
    ensures { result ≡ holds_vars role kind.now }
{
    match kind {
        Kind::Module { .. } => true,
        Kind::Script { .. } => true,
        Kind::TsModuleBlock => true,
        Kind::BlockStmt => is_body(role),
        _ => false,
    }
}

/// Where the names of the scope that a node in this role opens are looked for, but for its `var` names.
pub fn own_part(role: Role) -> Part
    ensures { result ≡ own_part role }
{
    match role {
        Role::Default => Part::Item,
        _ => Part::Scope,
    }
}

/// Puts the `var` names that belong to the scope of a node after those that are there.
fn push_vars(
    role: Role,
    stays: bool,
    node: &Node,
    own: &mut ItemList<Located>,
) -> Result<(), NoMemory>
    ensures { OnOk result (own.new ≡ own.old ++ located_vars role stays node.now) }
{
    if holds_vars(role, &node.kind) {
        let part = Part::Var;
        push_declarations(Sought { part, stays }, node, own)
    } else {
        Ok(())
    }
}

/// What the scope that a node opens declares, where the scope directly around it declares these names.
pub(crate) fn own_names(
    alloc: Global,
    role: Role,
    around: &Index,
    node: &Node,
) -> Result<ItemList<Located>, NoMemory>
    ensures { IfOk result (λ own. own ≡ located_names role (states_of around.now) node.now) }
{
    let stays = !is_ambient(role);
    let mut own = ItemList::new(alloc);
    let part = own_part(role);
    push_declarations(Sought { part, stays }, node, &mut own)?;
    push_vars(role, stays, node, &mut own)?;
    own.retain(|name| is_own(role, around, &name.declaration));
    Ok(own)
}
