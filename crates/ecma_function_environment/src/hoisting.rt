//! What a tree needs of its surroundings, and the tree with names for it.
ghost use Rattle.std.specs.Prelude.{◌≡◌, false, true, ◌++◌, ◌∷◌, [], IfOk, OnOk, codes};
ghost use Rattle.ecma_tree.specs.Nodes.{dummy_span, node_of};
ghost use Rattle.ecma_tree.specs.declared.node.Node.{out-Node};
ghost use Rattle.ecma_utils.specs.Expressions.{call_of, member_of};
ghost use Rattle.ecma_function_environment.specs.Needs.{name_of_need};
ghost use Rattle.ecma_function_environment.specs.Hoisting.{access_call, arguments_by, brackets_as, by_key, hoisted, hoisted_by, ident_as, is_arguments, key_named, key_needs, left_as, list_as, member_as, member_needs, name_as, names_arguments, needs_by, needs_in, over_member, read_member, receiver_needs, receiver_of, round_as, this_as, updated_of};

use crate::member::{is_round, key_at};
use crate::need::{Access, Names, Need, name_of_need};
use crate::seat::{Seat, drops, is_entered, is_read, seat_in};
use ecma_function_parts::this_node;
use ecma_tree::{
    DUMMY_SP, Expr, JsWord, Kind, MetaPropKind, NoMemory, Node, Nodes, Span, SyntaxContext,
};
use ecma_utils::ExprFactory;
use item_list::ItemList;
use short_texts::is_same;
use std::alloc::Global;

/// What is hoisted.
#[derive(Clone, Copy, Debug)]
pub struct Flags {
    /// The context of free names.
    pub unresolved: SyntaxContext,
    pub arguments_disabled: bool,
    pub this_disabled: bool,
    pub super_disabled: bool,
}

fn names_arguments(flags: &Flags, sym: &JsWord, ctxt: SyntaxContext) -> bool
    ensures { result ≡ names_arguments flags.now sym.now ctxt }
{
    is_same(sym.as_str(), "arguments")
        && (ctxt == flags.unresolved || ctxt == SyntaxContext::empty())
}

fn is_arguments(flags: &Flags, seat: Seat, sym: &JsWord, ctxt: SyntaxContext) -> bool
    ensures { result ≡ is_arguments flags.now seat sym.now ctxt }
{
    is_read(seat) && !flags.arguments_disabled && names_arguments(flags, sym, ctxt)
}

fn arguments_by(flags: &Flags, seat: Seat, kind: &Kind) -> bool
    ensures { result ≡ arguments_by flags.now seat kind.now }
{
    match kind {
        Kind::Ident { sym, ctxt, .. } => is_arguments(flags, seat, sym, *ctxt),
        _ => false,
    }
}

// ---- what is needed

fn push_receiver(flags: &Flags, to: &mut ItemList<Need>) -> Result<(), NoMemory>
    ensures { OnOk result (to.new ≡ to.old ++ receiver_needs flags.now) }
{
    if !flags.this_disabled {
        to.push(Need::This)?;
    }
    Ok(())
}

fn push_access(
    access: Access,
    key: &Option<JsWord>,
    to: &mut ItemList<Need>,
) -> Result<(), NoMemory>
    ensures { OnOk result (to.new ≡ to.old ++ Need.Super access key.now ∷ []) }
{
    let key = match key {
        Some(key) => Some(key.clone()?),
        None => None,
    };
    to.push(Need::Super { access, key })?;
    Ok(())
}

#[tactic(auto, using(ecma_function_parts::proofs::Mapping::mapping))]
fn push_update(key: &Option<JsWord>, to: &mut ItemList<Need>) -> Result<(), NoMemory>
    ensures { OnOk result (to.new ≡ to.old ++ Need.Super Access.Get key.now ∷ Need.Super Access.Set key.now ∷ Need.Super Access.Update key.now ∷ []) }
{
    push_access(Access::Get, key, to)?;
    push_access(Access::Set, key, to)?;
    push_access(Access::Update, key, to)
}

#[tactic(auto, using(ecma_function_parts::proofs::Mapping::mapping))]
fn push_member(
    flags: &Flags,
    seat: Seat,
    key: &Option<JsWord>,
    to: &mut ItemList<Need>,
) -> Result<(), NoMemory>
    ensures { OnOk result (to.new ≡ to.old ++ member_needs flags.now seat key.now) }
{
    match seat {
        Seat::Assigned => push_access(Access::Set, key, to),
        Seat::Target => push_update(key, to),
        Seat::Called | Seat::ChainCalled | Seat::Tag => {
            push_access(Access::Get, key, to)?;
            push_receiver(flags, to)
        }
        _ => push_access(Access::Get, key, to),
    }
}

fn push_key(
    flags: &Flags,
    seat: Seat,
    key: &Option<Option<JsWord>>,
    to: &mut ItemList<Need>,
) -> Result<(), NoMemory>
    ensures { OnOk result (to.new ≡ to.old ++ key_needs flags.now seat key.now) }
{
    match key {
        Some(key) => push_member(flags, seat, key, to),
        None => Ok(()),
    }
}

/// What a node itself needs.
fn push_here(
    flags: &Flags,
    seat: Seat,
    key: &Option<Option<JsWord>>,
    kind: &Kind,
    to: &mut ItemList<Need>,
) -> Result<(), NoMemory>
    ensures { OnOk result (to.new ≡ to.old ++ needs_by flags.now seat key.now kind.now) }
{
    match kind {
        Kind::ThisExpr => push_receiver(flags, to),
        Kind::MetaPropExpr {
            kind: MetaPropKind::NewTarget,
        } => {
            to.push(Need::NewTarget)?;
            Ok(())
        }
        Kind::Ident { sym, ctxt, .. } => {
            if is_arguments(flags, seat, sym, *ctxt) {
                to.push(Need::Arguments)?;
            }
            Ok(())
        }
        Kind::SuperPropExpr => push_key(flags, seat, key, to),
        _ => Ok(()),
    }
}

/// Puts what a tree needs where it stands behind the others.
pub(crate) fn push_needs(
    flags: &Flags,
    seat: Seat,
    node: &Node,
    to: &mut ItemList<Need>,
) -> Result<(), NoMemory>
    ensures { OnOk result (to.new ≡ to.old ++ needs_in flags.now seat node.now) }
{
    if !is_entered(seat) {
        return Ok(());
    }
    let key = key_at(flags.super_disabled, node)?;
    push_here(flags, seat, &key, &node.kind, to)?;
    let over = key.is_some();
    for i in 0..node.children.len() {
        let below = seat_in(over, seat, &node.kind, i);
        push_needs(flags, below, node.children.at(i), to)?;
    }
    Ok(())
}

// ---- the tree, given names

fn one(alloc: Global, node: Node) -> Result<Nodes, NoMemory>
    ensures { IfOk result (λ nodes. nodes ≡ node ∷ []) }
{
    Ok(Nodes::from_array(alloc, [node])?)
}

fn receiver_of(alloc: Global, flags: &Flags, names: &Names) -> Result<Expr, NoMemory>
    ensures { IfOk result (λ node. node ≡ receiver_of flags.now names.now.entries) }
{
    if flags.this_disabled {
        return Ok(this_node(alloc));
    }
    name_of_need(alloc, names, &Need::This)
}

pub(crate) fn key_named(alloc: Global, text: &str) -> Result<Node, NoMemory>
    ensures { IfOk result (λ node. node ≡ key_named text.now) }
{
    ecma_utils::key_of_text(alloc, DUMMY_SP, text)
}

/// `name(args)` of what is done with a member of `super`.
pub(crate) fn access_call(
    alloc: Global,
    names: &Names,
    access: Access,
    key: Option<JsWord>,
    span: Span,
    args: Nodes,
) -> Result<Expr, NoMemory>
    ensures { IfOk result (λ node. node ≡ access_call names.now.entries access key span args) }
{
    let need = Need::Super { access, key };
    let callee = name_of_need(alloc, names, &need)?;
    callee.as_call(alloc, span, args)
}

/// What gives a target.
fn updated_of(
    alloc: Global,
    names: &Names,
    key: Option<JsWord>,
    span: Span,
    args: Nodes,
) -> Result<Expr, NoMemory>
    ensures { IfOk result (λ node. node ≡ updated_of names.now.entries key span args) }
{
    match key {
        Some(key) => {
            let need = Need::Super {
                access: Access::Update,
                key: Some(key),
            };
            name_of_need(alloc, names, &need)
        }
        None => access_call(alloc, names, Access::Update, None, span, args),
    }
}

/// A member of what was read.
fn read_member(
    alloc: Global,
    names: &Names,
    key: Option<JsWord>,
    span: Span,
    args: Nodes,
    text: &str,
) -> Result<Expr, NoMemory>
    ensures { IfOk result (λ node. node ≡ read_member names.now.entries key span args text.now) }
{
    let read = access_call(alloc, names, Access::Get, key, span, args)?;
    read.make_member(alloc, key_named(alloc, text)?)
}

/// A target.
fn target_as(
    alloc: Global,
    names: &Names,
    key: Option<JsWord>,
    span: Span,
    args: Nodes,
) -> Result<Nodes, NoMemory>
    ensures { IfOk result (λ nodes. nodes ≡ member_of (updated_of names.now.entries key span args) (key_named (codes "_")) ∷ []) }
{
    let target = updated_of(alloc, names, key, span, args)?;
    one(alloc, target.make_member(alloc, key_named(alloc, "_")?)?)
}

/// A callee.
fn called_as(
    alloc: Global,
    names: &Names,
    key: Option<JsWord>,
    span: Span,
    args: Nodes,
) -> Result<Nodes, NoMemory>
    ensures { IfOk result (λ nodes. nodes ≡ read_member names.now.entries key span args (codes "call") ∷ []) }
{
    one(alloc, read_member(alloc, names, key, span, args, "call")?)
}

/// A callee with `?.` behind it.
fn chain_called_as(
    alloc: Global,
    names: &Names,
    key: Option<JsWord>,
    span: Span,
    args: Nodes,
) -> Result<Nodes, NoMemory>
    ensures { IfOk result (λ nodes. nodes ≡ node_of dummy_span (Kind.OptChainExpr true) (read_member names.now.entries key span args (codes "call") ∷ []) ∷ []) }
{
    let inside = called_as(alloc, names, key, span, args)?;
    let kind = Kind::OptChainExpr { optional: true };
    one(alloc, Node::new(DUMMY_SP, kind, inside))
}

/// A tag.
fn tag_as(
    alloc: Global,
    flags: &Flags,
    names: &Names,
    key: Option<JsWord>,
    span: Span,
    args: Nodes,
) -> Result<Nodes, NoMemory>
    ensures { IfOk result (λ nodes. nodes ≡ call_of dummy_span (read_member names.now.entries key span args (codes "bind")) (receiver_of flags.now names.now.entries ∷ []) ∷ []) }
{
    let member = read_member(alloc, names, key, span, args, "bind")?;
    let receiver = one(alloc, receiver_of(alloc, flags, names)?)?;
    one(alloc, member.as_call(alloc, DUMMY_SP, receiver)?)
}

/// What is read.
fn read_as(
    alloc: Global,
    names: &Names,
    key: Option<JsWord>,
    span: Span,
    args: Nodes,
) -> Result<Nodes, NoMemory>
    ensures { IfOk result (λ nodes. nodes ≡ access_call names.now.entries Access.Get key span args ∷ []) }
{
    one(
        alloc,
        access_call(alloc, names, Access::Get, key, span, args)?,
    )
}

/// A member of `super`, by what it is there for, over its key in brackets.
fn member_as(
    alloc: Global,
    flags: &Flags,
    names: &Names,
    seat: Seat,
    key: Option<JsWord>,
    span: Span,
    args: Nodes,
) -> Result<Nodes, NoMemory>
    ensures { IfOk result (λ nodes. nodes ≡ member_as flags.now names.now.entries seat key span args) }
{
    match seat {
        Seat::Assigned => Ok(args),
        Seat::Target => target_as(alloc, names, key, span, args),
        Seat::Called => called_as(alloc, names, key, span, args),
        Seat::ChainCalled => chain_called_as(alloc, names, key, span, args),
        Seat::Tag => tag_as(alloc, flags, names, key, span, args),
        _ => read_as(alloc, names, key, span, args),
    }
}

// A function that may let go of a node is proved for every kind that it may have: so this one alone does.
fn let_go(_node: Node) {}

/// What stands in a node.
fn inside_of(node: Node) -> Nodes
    ensures { result ≡ (out-Node node).children }
{
    node.children
}

/// Nothing in the place of a node.
fn nothing(alloc: Global, node: Node) -> Nodes
    ensures { result ≡ [] }
{
    let_go(node);
    Nodes::new(alloc)
}

/// A name in the place of a node.
fn name_instead(alloc: Global, names: &Names, need: &Need, node: Node) -> Result<Nodes, NoMemory>
    ensures { IfOk result (λ nodes. nodes ≡ name_of_need names.now.entries need.now ∷ []) }
{
    let_go(node);
    one(alloc, name_of_need(alloc, names, need)?)
}

fn round_as(alloc: Global, seat: Seat, node: Node) -> Result<Nodes, NoMemory>
    ensures { IfOk result (λ nodes. nodes ≡ round_as seat node) }
{
    if is_round(&node.kind) && drops(seat) {
        return Ok(inside_of(node));
    }
    one(alloc, node)
}

/// A member of `super` that is assigned to by `=`.
fn set_as(alloc: Global, names: &Names, key: Option<JsWord>, node: Node) -> Result<Nodes, NoMemory>
    ensures { IfOk result (λ nodes. nodes ≡ access_call names.now.entries Access.Set key (out-Node node).span (out-Node node).children ∷ []) }
{
    let span = node.span;
    let args = inside_of(node);
    one(
        alloc,
        access_call(alloc, names, Access::Set, key, span, args)?,
    )
}

/// A chain whose `?.` stands further in.
fn chain_as(alloc: Global, node: Node) -> Result<Nodes, NoMemory>
    ensures { IfOk result (λ nodes. nodes ≡ node_of (out-Node node).span (Kind.OptChainExpr false) (out-Node node).children ∷ []) }
{
    let span = node.span;
    let kind = Kind::OptChainExpr { optional: false };
    one(alloc, Node::new(span, kind, inside_of(node)))
}

/// A node about a member of `super`.
fn over_member(
    alloc: Global,
    flags: &Flags,
    names: &Names,
    seat: Seat,
    key: Option<JsWord>,
    node: Node,
) -> Result<Nodes, NoMemory>
    ensures { IfOk result (λ nodes. nodes ≡ over_member flags.now names.now.entries seat key node) }
{
    match node.kind {
        Kind::SuperPropExpr => {
            let span = node.span;
            member_as(alloc, flags, names, seat, key, span, inside_of(node))
        }
        Kind::AssignExpr { .. } => set_as(alloc, names, key, node),
        Kind::OptChainExpr { .. } => chain_as(alloc, node),
        _ => round_as(alloc, seat, node),
    }
}

fn by_key(
    alloc: Global,
    flags: &Flags,
    names: &Names,
    seat: Seat,
    key: Option<Option<JsWord>>,
    node: Node,
) -> Result<Nodes, NoMemory>
    ensures { IfOk result (λ nodes. nodes ≡ by_key flags.now names.now.entries seat key node) }
{
    match key {
        Some(key) => over_member(alloc, flags, names, seat, key, node),
        None => one(alloc, node),
    }
}

fn this_as(alloc: Global, flags: &Flags, names: &Names, node: Node) -> Result<Nodes, NoMemory>
    ensures { IfOk result (λ nodes. nodes ≡ this_as flags.now names.now.entries node) }
{
    if flags.this_disabled {
        return one(alloc, node);
    }
    name_instead(alloc, names, &Need::This, node)
}

fn ident_as(alloc: Global, names: &Names, is_arguments: bool, node: Node) -> Result<Nodes, NoMemory>
    ensures { IfOk result (λ nodes. nodes ≡ ident_as names.now.entries is_arguments node) }
{
    if is_arguments {
        return name_instead(alloc, names, &Need::Arguments, node);
    }
    one(alloc, node)
}

/// Arguments behind the receiver.
fn received(alloc: Global, flags: &Flags, names: &Names, items: Nodes) -> Result<Nodes, NoMemory>
    ensures { IfOk result (λ nodes. nodes ≡ receiver_of flags.now names.now.entries ∷ items) }
{
    let mut all = one(alloc, receiver_of(alloc, flags, names)?)?;
    all.append(items)?;
    Ok(all)
}

fn list_as(
    alloc: Global,
    flags: &Flags,
    names: &Names,
    seat: Seat,
    node: Node,
) -> Result<Nodes, NoMemory>
    ensures { IfOk result (λ nodes. nodes ≡ list_as flags.now names.now.entries seat node) }
{
    match seat {
        Seat::Received => {
            let Node {
                span,
                kind,
                children,
            } = node;
            let items = received(alloc, flags, names, children)?;
            one(alloc, Node::new(span, kind, items))
        }
        _ => one(alloc, node),
    }
}

fn name_as(alloc: Global, seat: Seat, node: Node) -> Result<Nodes, NoMemory>
    ensures { IfOk result (λ nodes. nodes ≡ name_as seat node) }
{
    match seat {
        Seat::Key => Ok(nothing(alloc, node)),
        _ => one(alloc, node),
    }
}

fn brackets_as(alloc: Global, seat: Seat, node: Node) -> Result<Nodes, NoMemory>
    ensures { IfOk result (λ nodes. nodes ≡ brackets_as seat node) }
{
    match seat {
        Seat::Key => Ok(inside_of(node)),
        _ => one(alloc, node),
    }
}

/// What a node becomes, once its children are what they became.
fn hoisted_by(
    alloc: Global,
    flags: &Flags,
    names: &Names,
    seat: Seat,
    key: Option<Option<JsWord>>,
    node: Node,
) -> Result<Nodes, NoMemory>
    ensures { IfOk result (λ nodes. nodes ≡ hoisted_by flags.now names.now.entries seat key node) }
{
    match node.kind {
        Kind::List => list_as(alloc, flags, names, seat, node),
        Kind::ThisExpr => this_as(alloc, flags, names, node),
        Kind::MetaPropExpr {
            kind: MetaPropKind::NewTarget,
        } => name_instead(alloc, names, &Need::NewTarget, node),
        Kind::Ident { .. } => {
            let is_arguments = arguments_by(flags, seat, &node.kind);
            ident_as(alloc, names, is_arguments, node)
        }
        Kind::IdentName { .. } => name_as(alloc, seat, node),
        Kind::ComputedPropName => brackets_as(alloc, seat, node),
        _ => by_key(alloc, flags, names, seat, key, node),
    }
}

/// A node that is not entered.
fn left_as(alloc: Global, seat: Seat, node: Node) -> Result<Nodes, NoMemory>
    ensures { IfOk result (λ nodes. nodes ≡ left_as seat node) }
{
    match seat {
        Seat::Gone => Ok(nothing(alloc, node)),
        _ => one(alloc, node),
    }
}

/// A tree with names in the places of what it needs.
pub(crate) fn hoist(
    alloc: Global,
    flags: &Flags,
    names: &Names,
    seat: Seat,
    node: Node,
) -> Result<Nodes, NoMemory>
    ensures { IfOk result (λ nodes. nodes ≡ hoisted flags.now names.now.entries node seat) }
{
    if !is_entered(seat) {
        return left_as(alloc, seat, node);
    }
    let key = key_at(flags.super_disabled, &node)?;
    let over = key.is_some();
    let Node {
        span,
        kind,
        mut children,
    } = node;
    let mut inside = Nodes::new(alloc);
    for i in 0..children.len() {
        let below = seat_in(over, seat, &kind, i);
        let child = children.replace(i, Node::absent(alloc));
        inside.append(hoist(alloc, flags, names, below, child)?)?;
    }
    let node = Node::new(span, kind, inside);
    hoisted_by(alloc, flags, names, seat, key, node)
}
