//! Declarations that may not stand beside each other.
ghost use Rattle.std.specs.Prelude.{◌≡◌, ◌<◌, ◌&&◌, ◌||◌, [], List, ℕ, IfOk, OnOk, cond, map, true, false};
ghost use Rattle.std.specs.Option.{option_map};
ghost use Rattle.ecma_tree.specs.declared.node.Node.{out-Node};
ghost use Rattle.ecma_scope.specs.declared.form.Form.TheVariants as form;
ghost use Rattle.ecma_scope.specs.Declarations.{is_body, is_stated, names, stated};
ghost use Rattle.ecma_scope.specs.Bodies.{may_hold_body};
ghost use Rattle.ecma_scope.specs.Indexed.{states_of};
ghost use Rattle.ecma_scope.specs.Scopes.{opens};
ghost use Rattle.ecma_scope.specs.Meetings.{clashes_first, meets, met_in};
ghost use Rattle.ecma_scope.specs.Located.{declarations_of, has_merged, located_marked, located_meeting, located_names, located_passing};
ghost use Rattle.ecma_scope.specs.Clashes.{Answers, clash_at, clashes_among, clashes_at, clashes_below, first_clash, first_redeclared, name_of};
ghost use Rattle.ecma_scope.specs.Conflicts.{is_catch, has_parameters, is_lexical, is_parameter, child_surrounding, chosen, is_var, may_be_merged, may_merge, surrounding};

use crate::clash::{Clash, sooner};
use crate::error::ScopeError;
use crate::form::{Declaration, Form, Located, Part, Sought};
use crate::index::{Index, empty_index, index_of, states};
use crate::meetings::{Meetings, Met, hit, lesser, meet, met_in, no_meetings, only};
use crate::names::push_declarations;
use crate::role::{Role, covers, is_ambient, is_root, opens, role_in};
use crate::stated::{holds_vars, is_body, is_stated, own_names};
use ecma_tree::{JsWord, Kind, Module, NoMemory, Node};
use item_list::ItemList;
use std::alloc::Global;

pub(crate) fn is_lexical(role: Role, form: Form) -> bool
    ensures { result ≡ is_lexical role form }
{
    match form {
        Form::Import => true,
        Form::Lexical => true,
        Form::Class => true,
        Form::Function => !is_body(role),
        Form::Enum => !is_root(role),
        Form::Namespace => !is_root(role),
        _ => false,
    }
}

pub(crate) fn is_catch(form: Form) -> bool
    ensures { result ≡ is_catch form }
{
    matches!(form, Form::Catch)
}

pub(crate) fn is_var(form: Form) -> bool
    ensures { result ≡ is_var form }
{
    matches!(form, Form::Var)
}

pub(crate) fn is_parameter(form: Form) -> bool
    ensures { result ≡ is_parameter form }
{
    matches!(form, Form::Parameter)
}

fn may_merge(form: Form) -> bool
    ensures { result ≡ may_merge form }
{
    matches!(form, Form::Enum | Form::Namespace)
}

fn may_be_merged(form: Form) -> bool
    ensures { result ≡ may_be_merged form }
{
    matches!(
        form,
        Form::Class | Form::Function | Form::Enum | Form::Namespace | Form::Merged
    )
}

/// Whether parameters are declared in the scope around.
fn has_parameters(role: Role) -> bool
    ensures { result ≡ has_parameters role }
{
    matches!(role, Role::Body | Role::CatchBody)
}

fn has_merged(earlier: &[Located], name: &Declaration) -> bool
    ensures { result ≡ has_merged earlier.now name.now }
{
    for other in earlier {
        if other.declaration.sym.as_str() == name.sym.as_str()
            && may_be_merged(other.declaration.form)
        {
            return true;
        }
    }
    false
}

/// Whether a declaration merges with one of those before it.
fn merges(earlier: &[Located], name: &Declaration) -> bool
    ensures { result ≡ (may_merge name.now.form && has_merged earlier.now name.now) }
{
    may_merge(name.form) && has_merged(earlier, name)
}

/// Where a declaration clashes first with one of those that were met, or with a parameter that stands around it.
fn clashes_first(role: Role, around: &Index, met: Met, name: &Located) -> Option<u32>
    ensures { result ≡ clashes_first role (states_of around.now) met name.now }
{
    let at = name.at;
    let declaration = &name.declaration;
    let before = hit(role, met, declaration.form).map(|other| other.max(at));
    let in_body = has_parameters(role)
        && (is_lexical(role, declaration.form) && is_stated(states(around, &declaration.sym)));
    lesser(before, only(in_body, Some(at)))
}

fn set_merged(name: &mut Located, merged: bool)
    ensures { name.new ≡ record name.old { declaration = cond merged (record name.old.declaration { form = form.Merged }) name.old.declaration } }
{
    if merged {
        name.declaration.form = Form::Merged;
    }
}

/// Marks the declarations that merge with one before them.
fn mark_merged(names: &mut ItemList<Located>)
    ensures { names.new ≡ located_marked [] names.old }
{
    let count = names.len();
    for i in 0..count {
        let merged = merges(&names.as_slice()[..i], &names.at(i).declaration);
        set_merged(names.get_mut(i), merged);
    }
}

/// The `var` names that pass through the scope of a node, as values that stay.
fn passing(alloc: Global, role: Role, node: &Node) -> Result<ItemList<Located>, NoMemory>
    ensures { IfOk result (λ names. names ≡ located_passing role node.now) }
{
    let mut names = ItemList::new(alloc);
    if holds_vars(role, &node.kind) {
        return Ok(names);
    }
    let stays = !is_ambient(role);
    let part = Part::Var;
    push_declarations(Sought { part, stays }, node, &mut names)?;
    names.retain(|name| name.declaration.stays);
    Ok(names)
}

/// Whether a name of this text belongs to a scope further out.
fn is_further_out(role: Role, around: &Index, passed: &Index, sym: &JsWord) -> bool
    ensures { result ≡ (is_stated (states_of passed.now sym.now) || (has_parameters role && is_stated (states_of around.now sym.now))) }
{
    is_stated(states(passed, sym)) || (has_parameters(role) && is_stated(states(around, sym)))
}

/// The declarations that meet in the scope of a node, which declares these names.
fn meeting(
    alloc: Global,
    role: Role,
    around: &Index,
    node: &Node,
    own: ItemList<Located>,
) -> Result<ItemList<Located>, NoMemory>
    requires { own ≡ located_names role (states_of around.now) node.now }
    ensures { IfOk result (λ names. names ≡ located_meeting role (states_of around.now) node.now) }
{
    let passed = passing(alloc, role, node)?;
    let index = index_of(alloc, &passed)?;
    let mut names = own;
    names.retain(|name| {
        name.declaration.stays || is_further_out(role, around, &index, &name.declaration.sym)
    });
    mark_merged(&mut names);
    names.append(passed)?;
    Ok(names)
}

/// The clash of a declaration, if it clashes at some offset.
fn clash_of(name: &Located, at: Option<u32>) -> Result<Option<Clash>, NoMemory>
    ensures { IfOk result (λ clash. clash ≡ option_map (clash_at name.now.declaration.sym) at) }
{
    let Some(at) = at else {
        return Ok(None);
    };
    let name = name.declaration.sym.clone()?;
    Ok(Some(Clash { name, at }))
}

/// Adds a declaration that so many others are still to meet.
fn meet_before(
    role: Role,
    meetings: &mut Meetings,
    name: &Located,
    others: usize,
) -> Result<(), NoMemory>
    ensures { OnOk result (0 < others → (text : List ℕ) → met_in meetings.new text ≡ meets role (met_in meetings.old) name.now text) }
{
    if others == 0 {
        return Ok(());
    }
    meet(role, meetings, name)
}

/// The first clash among these declarations.
fn first_among(
    alloc: Global,
    role: Role,
    around: &Index,
    names: &ItemList<Located>,
) -> Result<Option<Clash>, NoMemory>
    ensures { IfOk result (λ first. first ≡ first_clash (clashes_among role (states_of around.now) [] names.now)) }
{
    let mut meetings = no_meetings(alloc);
    let mut first = None;
    let count = names.len();
    for i in 0..count {
        let name = names.at(i);
        let met = met_in(&meetings, &name.declaration.sym);
        let clash = clash_of(name, clashes_first(role, around, met, name))?;
        first = sooner(first, clash);
        meet_before(role, &mut meetings, name, count - i - 1)?;
    }
    Ok(first)
}

fn chosen<'a>(covered: bool, own: &'a Index, around: &'a Index) -> &'a Index
    ensures { result.now ≡ chosen covered own.now around.now }
{
    if covered { own } else { around }
}

/// Whether a node of this kind may have the body of a function, or the block of a `catch`, as its child.
fn may_hold_body(kind: &Kind) -> bool
    ensures { result ≡ may_hold_body kind.now }
{
    match kind {
        Kind::Function { .. } => true,
        Kind::ArrowExpr { .. } => true,
        Kind::Constructor { .. } => true,
        Kind::GetterProp => true,
        Kind::SetterProp => true,
        Kind::CatchClause => true,
        _ => false,
    }
}

/// An index of these declarations where the node may hold the body of a function, and else of none.
fn index_for_bodies(alloc: Global, kind: &Kind, own: &ItemList<Located>) -> Result<Index, NoMemory>
    ensures { IfOk result (λ index. may_hold_body kind.now ≡ true → (text : List ℕ) → states_of index text ≡ stated (declarations_of own.now) text) }
{
    if may_hold_body(kind) {
        index_of(alloc, own)
    } else {
        Ok(empty_index(alloc))
    }
}

/// The first clash in a node.
#[cycle(checking)]
fn first_in(
    alloc: Global,
    role: Role,
    around: &Index,
    node: &Node,
) -> Result<Option<Clash>, NoMemory>
    ensures { IfOk result (λ first. first ≡ first_clash (clashes_at node.now (surrounding role around.now))) }
{
    if opens(role, node) {
        first_in_scope(alloc, role, around, node)
    } else {
        first_in_plain(alloc, role, around, node)
    }
}

/// The same for a node that opens a scope.
#[cycle(checking)]
fn first_in_scope(
    alloc: Global,
    role: Role,
    around: &Index,
    node: &Node,
) -> Result<Option<Clash>, NoMemory>
    requires { opens role node.now ≡ true }
    ensures { IfOk result (λ first. first ≡ first_clash (clashes_at node.now (surrounding role around.now))) }
{
    let own = own_names(alloc, role, around, node)?;
    let index = index_for_bodies(alloc, &node.kind, &own)?;
    let names = meeting(alloc, role, around, node, own)?;
    let here = first_among(alloc, role, around, &names)?;
    let below = first_below(alloc, role, &index, around, node)?;
    Ok(sooner(here, below))
}

/// The same for a node that opens no scope.
#[cycle(checking)]
fn first_in_plain(
    alloc: Global,
    role: Role,
    around: &Index,
    node: &Node,
) -> Result<Option<Clash>, NoMemory>
    requires { opens role node.now ≡ false }
    ensures { IfOk result (λ first. first ≡ first_clash (clashes_at node.now (surrounding role around.now))) }
{
    let mut first = None;
    for i in 0..node.children.len() {
        let clash = first_in(alloc, role_in(role, node, i), around, node.children.at(i))?;
        first = sooner(first, clash);
    }
    Ok(first)
}

/// The same for the children of a node whose scope declares what an index of its own says.
#[cycle(checking)]
fn first_below(
    alloc: Global,
    role: Role,
    own: &Index,
    around: &Index,
    node: &Node,
) -> Result<Option<Clash>, NoMemory>
    ensures { IfOk result (λ first. first ≡ first_clash (clashes_below (child_surrounding role own.now around.now node.now) 0 (map clashes_at (out-Node node.now).children))) }
{
    let mut first = None;
    for i in 0..node.children.len() {
        let inner = chosen(covers(role, &node.kind, i), own, around);
        let clash = first_in(alloc, role_in(role, node, i), inner, node.children.at(i))?;
        first = sooner(first, clash);
    }
    Ok(first)
}

/// What a check answers whose first clash is this.
fn answer(first: Option<Clash>) -> Result<(), ScopeError>
    ensures { Answers result (option_map name_of first) }
{
    match first {
        None => Ok(()),
        Some(Clash { name, .. }) => Err(ScopeError::Redeclared { name }),
    }
}

/// Whether no name is declared again where it may not be; else `Redeclared` tells the name that is, first in the text: of each two declarations
/// that may not stand beside each other the later counts.
pub fn check_scopes(alloc: Global, tree: &Module) -> Result<(), ScopeError>
    ensures { Answers result (first_redeclared tree.now) }
{
    let none = empty_index(alloc);
    let first = first_in(alloc, Role::Root, &none, tree)?;
    answer(first)
}
