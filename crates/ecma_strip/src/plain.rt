//! What becomes of a node whose children have no types any more.
ghost use Rattle.std.specs.Prelude.{◌≡◌, false};
ghost use Rattle.ecma_tree.specs.Nodes.{node_of};
ghost use Rattle.ecma_tree.specs.declared.node.Node.{out-Node};
ghost use Rattle.ecma_strip.specs.Staying.{is_empty_stmt};
ghost use Rattle.ecma_strip.specs.Stripping.{body_of, changed_at, operand, plain, plain_children, plain_kind, plain_modifiers, without_empty, without_this};

use crate::staying::{is_empty_stmt, item_stays};
use ecma_tree::{Kind, MemberModifiers, Node, Nodes};
use std::alloc::Global;

fn plain_modifiers(modifiers: &mut MemberModifiers)
    ensures { modifiers.new ≡ plain_modifiers modifiers.old }
{
    modifiers.accessibility = None;
    modifiers.is_abstract = false;
    modifiers.is_optional = false;
    modifiers.is_override = false;
}

fn plain_field(readonly: &mut bool, declare: &mut bool, definite: &mut bool)
    ensures readonly { readonly.new ≡ false }
    ensures declare { declare.new ≡ false }
    ensures definite { definite.new ≡ false }
{
    *readonly = false;
    *declare = false;
    *definite = false;
}

/// Takes out what the kind itself says of types: `?`, `!` after a name, and modifiers.
#[tactic(auto, unfolding(crate::specs::Stripping::plain_kind))]
fn plain_kind(kind: &mut Kind)
    ensures { kind.new ≡ plain_kind kind.old }
{
    match kind {
        Kind::Ident { optional, .. } => *optional = false,
        Kind::ArrayPat { optional } => *optional = false,
        Kind::ObjectPat { optional } => *optional = false,
        Kind::VarDeclarator { definite } => *definite = false,
        Kind::Class { is_abstract } => *is_abstract = false,
        Kind::Constructor {
            accessibility,
            is_optional,
        } => {
            *accessibility = None;
            *is_optional = false;
        }
        Kind::ClassMethod { modifiers, .. } => plain_modifiers(modifiers),
        Kind::PrivateMethod { modifiers, .. } => plain_modifiers(modifiers),
        Kind::ClassProp {
            modifiers,
            readonly,
            declare,
            definite,
        } => {
            plain_modifiers(modifiers);
            plain_field(readonly, declare, definite);
        }
        Kind::PrivateProp {
            modifiers,
            readonly,
            declare,
            definite,
        } => {
            plain_modifiers(modifiers);
            plain_field(readonly, declare, definite);
        }
        _ => {}
    }
}

/// Takes the empty statements out of a list.
fn drop_empty(list: &mut Node)
    ensures { list.new ≡ without_empty list.old }
{
    list.children.retain(|item| !is_empty_stmt(&item.kind));
}

/// Puts an empty statement in the place of a declaration that goes.
fn empty_body(alloc: Global, body: &mut Node)
    ensures { body.new ≡ body_of body.old }
{
    if !item_stays(body) {
        *body = Node::leaf(alloc, body.span, Kind::EmptyStmt);
    }
}

/// Takes the empty statements out of the list at an index, if there is one.
#[tactic(auto, using(crate::proofs::ChangingAt::at))]
fn drop_empty_at(children: &mut Nodes, index: usize)
    ensures { children.new ≡ changed_at index without_empty children.old }
{
    if index < children.len() {
        drop_empty(children.get_mut(index));
    }
}

#[tactic(auto, using(crate::proofs::ChangingAt::at))]
fn empty_body_at(alloc: Global, children: &mut Nodes, index: usize)
    ensures { children.new ≡ changed_at index body_of children.old }
{
    if index < children.len() {
        empty_body(alloc, children.get_mut(index));
    }
}

/// Takes away the parameter `this` of a setter.
fn drop_this(alloc: Global, this: &mut Node)
    ensures { this.new ≡ without_this this.old }
{
    if !matches!(this.kind, Kind::Absent) {
        *this = Node::absent(alloc);
    }
}

#[tactic(auto, using(crate::proofs::ChangingAt::at))]
fn drop_this_at(alloc: Global, children: &mut Nodes, index: usize)
    ensures { children.new ≡ changed_at index without_this children.old }
{
    if index < children.len() {
        drop_this(alloc, children.get_mut(index));
    }
}

/// Takes out what goes of a node's children by what kind of node it is: empty statements of lists, declarations that are the
/// body of a statement, and the `this` of a setter.
#[tactic(auto, unfolding(crate::specs::Stripping::plain_children))]
fn plain_children(alloc: Global, kind: &Kind, children: &mut Nodes)
    ensures { children.new ≡ plain_children kind.now children.old }
{
    match kind {
        Kind::Module { .. } => drop_empty_at(children, 0),
        Kind::Script { .. } => drop_empty_at(children, 0),
        Kind::BlockStmt => drop_empty_at(children, 0),
        Kind::TsModuleBlock => drop_empty_at(children, 0),
        Kind::SwitchCase => drop_empty_at(children, 1),
        Kind::IfStmt => {
            empty_body_at(alloc, children, 2);
            empty_body_at(alloc, children, 1);
        }
        Kind::LabeledStmt => empty_body_at(alloc, children, 1),
        Kind::WhileStmt => empty_body_at(alloc, children, 1),
        Kind::DoWhileStmt => empty_body_at(alloc, children, 1),
        Kind::ForStmt => empty_body_at(alloc, children, 3),
        Kind::ForInStmt => empty_body_at(alloc, children, 2),
        Kind::ForOfStmt { .. } => empty_body_at(alloc, children, 2),
        Kind::SetterProp => drop_this_at(alloc, children, 1),
        _ => {}
    }
}

/// Puts the expression in the place of an expression with a type round it.
#[tactic(auto, using(crate::proofs::ChangingAt::operands))]
fn keep_operand(alloc: Global, node: &mut Node)
    ensures { node.new ≡ operand (out-Node node.old).span (out-Node node.old).kind (out-Node node.old).children }
{
    if !node.children.is_empty() {
        let operand = node.children.replace(0, Node::absent(alloc));
        *node = operand;
    }
}

fn keep_plain(alloc: Global, node: &mut Node)
    ensures { node.new ≡ node_of (out-Node node.old).span (plain_kind (out-Node node.old).kind) (plain_children (out-Node node.old).kind (out-Node node.old).children) }
{
    plain_children(alloc, &node.kind, &mut node.children);
    plain_kind(&mut node.kind);
}

/// Takes the types out of a node whose children have none any more, and whose list has lost what goes.
#[tactic(auto, unfolding(crate::specs::Stripping::plain))]
pub(crate) fn make_plain(alloc: Global, node: &mut Node)
    ensures { node.new ≡ plain (out-Node node.old).span (out-Node node.old).kind (out-Node node.old).children }
{
    match &node.kind {
        Kind::TsTypeAnn => *node = Node::absent(alloc),
        Kind::TsType => *node = Node::absent(alloc),
        Kind::TsTypeParamDecl => *node = Node::absent(alloc),
        Kind::TsTypeParamInstantiation => *node = Node::absent(alloc),
        Kind::TsTypeAssertion => keep_operand(alloc, node),
        Kind::TsConstAssertion => keep_operand(alloc, node),
        Kind::TsNonNullExpr => keep_operand(alloc, node),
        Kind::TsAsExpr => keep_operand(alloc, node),
        Kind::TsInstantiation => keep_operand(alloc, node),
        Kind::TsSatisfiesExpr => keep_operand(alloc, node),
        _ => keep_plain(alloc, node),
    }
}
