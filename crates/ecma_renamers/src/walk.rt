//! The walk of a renaming.
ghost use Rattle.std.specs.Prelude.{◌≡◌, Some, None, IfOk, OnOk, if◌then◌else◌};
ghost use Rattle.std.specs.Option.{option_copied};
ghost use Rattle.ecma_tree.specs.declared.node.Node.{out-Node};
ghost use Rattle.ecma_tree.specs.Idents.{ident_of};
ghost use Rattle.ecma_renamers.specs.Renamers.{renaming_of};
ghost use Rattle.ecma_renamers.specs.Renaming.{key_name, lone_name, new_ident, old_by, old_ident, old_of, parted, renamed_at, shared_by, shared_name, shorthand, split_name, spot_in, with_ident};
ghost use Rattle.ecma_renamers.specs.Walked.{with_renamed};

use crate::expand::{expand, is_absent};
use crate::rule::{Rule, change, parts, splits};
use crate::spot::{Spot, is_kept, spot_by};
use ecma_tree::{Ident, Kind, NoMemory, Node, Nodes};
use std::alloc::Global;

/// The name of a specifier that has one name.
#[tactic(auto, using(crate::proofs::Writing::writing))]
fn lone_name(children: &Nodes) -> Option<&Node>
    ensures { option_copied result ≡ lone_name children.now }
{
    if children.len() == 2 && is_absent(children.at(1)) {
        Some(children.at(0))
    } else {
        None
    }
}

/// The identifier of a shorthand pattern.
#[tactic(auto, using(crate::proofs::Writing::writing))]
fn key_name(children: &Nodes) -> Option<&Node>
    ensures { option_copied result ≡ key_name children.now }
{
    if children.len() == 2 {
        children.at(0).children.get(0)
    } else {
        None
    }
}

fn shorthand(spot: Spot, node: &Node) -> Option<&Node>
    ensures { option_copied result ≡ shorthand spot node.now }
{
    match spot {
        Spot::Property => Some(node),
        _ => None,
    }
}

fn split_name<'a>(rule: &Rule<'_>, node: &'a Node) -> Option<&'a Node>
    ensures { option_copied result ≡ split_name (renaming_of rule.now) node.now }
{
    if splits(rule, &node.kind) {
        lone_name(&node.children)
    } else {
        None
    }
}

/// The identifier of a node that is also a key, or a name that others know.
#[tactic(auto, unfolding(crate::specs::Renaming::shared_by))]
fn shared_name<'a>(rule: &Rule<'_>, spot: Spot, node: &'a Node) -> Option<&'a Node>
    ensures { option_copied result ≡ shared_name (renaming_of rule.now) spot node.now }
{
    match &node.kind {
        Kind::Ident { .. } => shorthand(spot, node),
        Kind::ImportNamedSpecifier { .. } => split_name(rule, node),
        Kind::ExportNamedSpecifier { .. } => split_name(rule, node),
        Kind::AssignPatProp => key_name(&node.children),
        _ => None,
    }
}

/// The identifier that a node becomes, if it is one and becomes another.
fn new_ident(rule: &Rule<'_>, node: &Node) -> Result<Option<Ident>, NoMemory>
    ensures { IfOk result (λ new. new ≡ new_ident (renaming_of rule.now) node.now) }
{
    match node.to_ident()? {
        Some(ident) => change(rule, &ident),
        None => Ok(None),
    }
}

fn parted(rule: &Rule<'_>, old: Ident, new: Option<Ident>) -> Option<Ident>
    ensures { result ≡ parted (renaming_of rule.now) old new }
{
    match new {
        Some(new) => {
            if parts(rule, &old, &new) {
                Some(old)
            } else {
                None
            }
        }
        None => None,
    }
}

/// A name as it is, if it gets a second one.
fn old_of(rule: &Rule<'_>, name: &Node) -> Result<Option<Ident>, NoMemory>
    ensures { IfOk result (λ old. old ≡ old_of (renaming_of rule.now) name.now) }
{
    match name.to_ident()? {
        Some(old) => {
            let new = change(rule, &old)?;
            Ok(parted(rule, old, new))
        }
        None => Ok(None),
    }
}

fn old_ident(rule: &Rule<'_>, spot: Spot, node: &Node) -> Result<Option<Ident>, NoMemory>
    ensures { IfOk result (λ old. old
        ≡ old_ident (renaming_of rule.now) (shared_name (renaming_of rule.now) spot node.now)) }
{
    match shared_name(rule, spot, node) {
        Some(name) => old_of(rule, name),
        None => Ok(None),
    }
}

/// Makes a node another identifier.
fn set_ident(new: Option<Ident>, node: &mut Node)
    ensures { node.new ≡ with_ident new node.old }
{
    if let Some(new) = new {
        node.span = new.span;
        node.kind = Kind::Ident {
            sym: new.sym,
            ctxt: new.ctxt,
            optional: new.optional,
        };
    }
}

/// What the child at an index of a node of this kind is to what stands around it.
fn spot_in(rule: &Rule<'_>, spot: Spot, kind: &Kind, index: usize) -> Spot
    ensures { result ≡ spot_in (renaming_of rule.now) spot kind.now index }
{
    if splits(rule, kind) && index == 1 {
        Spot::Kept
    } else {
        spot_by(spot, kind, index)
    }
}

/// Renames a node.
#[cycle(renaming)]
pub(crate) fn rename(
    alloc: Global,
    rule: &Rule<'_>,
    spot: Spot,
    node: &mut Node,
) -> Result<(), NoMemory>
    ensures { OnOk result (node.new ≡ renamed_at (renaming_of rule.now) node.old spot) }
{
    if is_kept(spot, &node.kind) {
        return Ok(());
    }
    let span = node.span;
    let new = new_ident(rule, node)?;
    let old = old_ident(rule, spot, node)?;
    rename_children(alloc, rule, spot, node)?;
    set_ident(new, node);
    expand(alloc, span, old, node)?;
    Ok(())
}

/// Renames the children of a node.
#[cycle(renaming)]
fn rename_children(
    alloc: Global,
    rule: &Rule<'_>,
    spot: Spot,
    node: &mut Node,
) -> Result<(), NoMemory>
    ensures { OnOk result (node.new ≡ with_renamed (renaming_of rule.now) spot node.old) }
{
    let count = node.children.len();
    for i in 0..count {
        let inside = spot_in(rule, spot, &node.kind, i);
        rename(alloc, rule, inside, node.children.get_mut(i))?;
    }
    Ok(())
}
