//! The finished tree: what is assigned to is a pattern where it was read as a literal, the cover grammar of such patterns.
ghost use Rattle.std.specs.Prelude.{◌≡◌, OnOk};
ghost use Rattle.ecma_tree.specs.declared.node.Node.{out-Node};
ghost use Rattle.ecma_rules.specs.Finishing.{binding, default_by, element_by, finished, finished_at, finished_by, left_by, name_by, part_by, property_by, shorthand, with_kind, with_type};
ghost use Rattle.ecma_rules.specs.Walks.{asks_targets};

use crate::target::{Target, target_in};
use ecma_tree::{AssignOp, Kind, NoMemory, Node};
use std::alloc::Global;
use std::mem;

fn set_kind(node: &mut Node, kind: Kind)
    ensures { node.new ≡ with_kind kind (out-Node node.old) }
{
    node.kind = kind;
}

/// Makes a node one of another kind that has room for a type after its children.
fn add_type(alloc: Global, node: &mut Node, kind: Kind) -> Result<(), NoMemory>
    ensures { OnOk result (node.new ≡ with_type kind (out-Node node.old)) }
{
    node.children.push(Node::absent(alloc))?;
    set_kind(node, kind);
    Ok(())
}

/// Makes a name a pattern.
fn bind(alloc: Global, node: &mut Node) -> Result<(), NoMemory>
    ensures { OnOk result (node.new ≡ binding node.old) }
{
    let name = mem::replace(node, Node::absent(alloc));
    *node = Node::binding_ident(alloc, name.span, name, None)?;
    Ok(())
}

/// Makes a name a property of a pattern.
fn shorten(alloc: Global, node: &mut Node) -> Result<(), NoMemory>
    ensures { OnOk result (node.new ≡ shorthand node.old) }
{
    bind(alloc, node)?;
    let span = node.span;
    let name = mem::replace(node, Node::absent(alloc));
    *node = Node::assign_pat_prop(alloc, span, name, None)?;
    Ok(())
}

fn finish_left(alloc: Global, node: &mut Node) -> Result<(), NoMemory>
    ensures { OnOk result (node.new ≡ left_by (out-Node node.old).kind (out-Node node.old)) }
{
    match &node.kind {
        Kind::ArrayLit => add_type(alloc, node, Kind::ArrayPat { optional: false }),
        Kind::ObjectLit => add_type(alloc, node, Kind::ObjectPat { optional: false }),
        _ => Ok(()),
    }
}

fn finish_name(alloc: Global, node: &mut Node) -> Result<(), NoMemory>
    ensures { OnOk result (node.new ≡ name_by (out-Node node.old).kind (out-Node node.old)) }
{
    match &node.kind {
        Kind::Ident { .. } => bind(alloc, node),
        _ => Ok(()),
    }
}

fn finish_part(alloc: Global, node: &mut Node) -> Result<(), NoMemory>
    ensures { OnOk result (node.new ≡ part_by (out-Node node.old).kind (out-Node node.old)) }
{
    match &node.kind {
        Kind::Ident { .. } => bind(alloc, node),
        _ => finish_left(alloc, node),
    }
}

fn finish_default(op: AssignOp, node: &mut Node)
    ensures { node.new ≡ default_by op (out-Node node.old) }
{
    if let AssignOp::Assign = op {
        set_kind(node, Kind::AssignPat);
    }
}

fn finish_element(alloc: Global, node: &mut Node) -> Result<(), NoMemory>
    ensures { OnOk result (node.new ≡ element_by (out-Node node.old).kind (out-Node node.old)) }
{
    match &node.kind {
        Kind::SpreadElement => add_type(alloc, node, Kind::RestPat),
        Kind::AssignExpr { op } => {
            finish_default(*op, node);
            Ok(())
        }
        _ => finish_part(alloc, node),
    }
}

fn finish_property(alloc: Global, node: &mut Node) -> Result<(), NoMemory>
    ensures { OnOk result (node.new ≡ property_by (out-Node node.old).kind (out-Node node.old)) }
{
    match &node.kind {
        Kind::KeyValueProp => {
            set_kind(node, Kind::KeyValuePatProp);
            Ok(())
        }
        Kind::AssignProp => {
            set_kind(node, Kind::AssignPatProp);
            Ok(())
        }
        Kind::SpreadElement => add_type(alloc, node, Kind::RestPat),
        Kind::Ident { .. } => shorten(alloc, node),
        _ => Ok(()),
    }
}

/// Makes a node whose children are finished what it has to be.
fn finish_here(alloc: Global, target: Target, node: &mut Node) -> Result<(), NoMemory>
    ensures { OnOk result (node.new ≡ finished_by target (out-Node node.old)) }
{
    match target {
        Target::Left => finish_left(alloc, node),
        Target::Head => finish_part(alloc, node),
        Target::Part => finish_part(alloc, node),
        Target::Rest => finish_name(alloc, node),
        Target::Name => finish_name(alloc, node),
        Target::Element => finish_element(alloc, node),
        Target::Property => finish_property(alloc, node),
        _ => Ok(()),
    }
}

/// Whether something is asked of a child of a node of this kind, of which nothing is asked.
fn asks_targets(kind: &Kind) -> bool
    ensures { result ≡ asks_targets kind.now }
{
    matches!(
        kind,
        Kind::AssignExpr { .. } | Kind::UpdateExpr { .. } | Kind::ForInStmt | Kind::ForOfStmt { .. }
    )
}

#[cycle(finishing)]
fn finish_at(alloc: Global, target: Target, node: &mut Node) -> Result<(), NoMemory>
    ensures { OnOk result (node.new ≡ finished_at node.old target) }
{
    let count = node.children.len();
    for i in 0..count {
        let inside = target_in(target, &node.kind, i);
        finish_as(alloc, inside, node.children.get_mut(i))?;
    }
    finish_here(alloc, target, node)
}

/// The same, done faster where nothing is asked of the tree.
#[cycle(finishing)]
fn finish_as(alloc: Global, target: Target, node: &mut Node) -> Result<(), NoMemory>
    ensures { OnOk result (node.new ≡ finished_at node.old target) }
{
    match target {
        Target::Free => finish_freely(alloc, node),
        _ => finish_at(alloc, target, node),
    }
}

/// The same in a tree of which nothing is asked.
#[cycle(finishing)]
fn finish_freely(alloc: Global, node: &mut Node) -> Result<(), NoMemory>
    ensures { OnOk result (node.new ≡ finished node.old) }
{
    if asks_targets(&node.kind) {
        return finish_at(alloc, Target::Free, node);
    }
    let count = node.children.len();
    for i in 0..count {
        finish_freely(alloc, node.children.get_mut(i))?;
    }
    Ok(())
}

/// Makes patterns of the literals of a raw tree that are assigned to. Its only refusal is want of memory, which leaves the tree
/// half done.
pub fn finish(alloc: Global, tree: &mut Node) -> Result<(), NoMemory>
    ensures { OnOk result (tree.new ≡ finished tree.old) }
{
    finish_freely(alloc, tree)
}
