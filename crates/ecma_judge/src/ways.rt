//! What is left of an expression whose value is not wanted.
ghost use Rattle.std.specs.Prelude.{◌≡◌, false, get_or, map};
ghost use Rattle.ecma_tree.specs.declared.node.Node.{out-Node};
ghost use Rattle.ecma_judge.specs.Extraction as table;
ghost use Rattle.ecma_judge.specs.Extraction.{is_name};
ghost use Rattle.ecma_judge.specs.Parts.{has_no_items, passes_at};

use crate::ctx::ExprCtx;
use crate::effects::has_effects;
use crate::globals::is_global;
use crate::parts::{has_no_items, is_spread};
use ecma_tree::{BinaryOp, Kind, Node, UnaryOp};

/// What is left of a node.
#[derive(Clone, Copy, Debug)]
pub(crate) enum Way {
    Nothing,
    /// The node itself.
    Whole,
    /// What is left of its children, in order.
    Parts,
    /// What is left of its first child.
    First,
    /// An object with those of its properties that have effects.
    Kept,
}

#[cycle(names)]
#[tactic(auto, using(crate::proofs::Extracting::names))]
fn is_name_at(node: &Node, index: usize) -> bool
    ensures { result ≡ get_or (map is_name (out-Node node.now).children) index false }
{
    match node.children.get(index) {
        Some(child) => is_name(child),
        None => false,
    }
}

/// Whether a node is a name, parentheses and types round it aside.
#[cycle(names)]
#[tactic(auto, using(crate::proofs::Extracting::names), unfolding(crate::specs::Extraction::is_name_by))]
fn is_name(node: &Node) -> bool
    ensures { result ≡ is_name node.now }
{
    match &node.kind {
        Kind::Ident { .. } => true,
        Kind::ParenExpr => is_name_at(node, 0),
        Kind::TsTypeAssertion => is_name_at(node, 0),
        Kind::TsConstAssertion => is_name_at(node, 0),
        Kind::TsNonNullExpr => is_name_at(node, 0),
        Kind::TsAsExpr => is_name_at(node, 0),
        Kind::TsInstantiation => is_name_at(node, 0),
        Kind::TsSatisfiesExpr => is_name_at(node, 0),
        _ => false,
    }
}

fn has_name(node: &Node) -> bool
    ensures { result ≡ passes_at is_name 0 node.now }
{
    match node.children.get(0) {
        Some(arg) => is_name(arg),
        None => false,
    }
}

fn unary_way(op: UnaryOp, node: &Node) -> Way
    ensures { result ≡ table.unary_way op node.now }
{
    match op {
        UnaryOp::Delete => Way::Whole,
        UnaryOp::TypeOf => {
            if has_name(node) {
                return Way::Nothing;
            }
            Way::Parts
        }
        _ => Way::Parts,
    }
}

fn binary_way(op: BinaryOp) -> Way
    ensures { result ≡ table.binary_way op }
{
    match op {
        BinaryOp::LogicalOr | BinaryOp::LogicalAnd | BinaryOp::NullishCoalescing => Way::Whole,
        _ => Way::Parts,
    }
}

fn has_spread(items: &Node) -> bool
    ensures { result ≡ table.has_spread items.now }
{
    for item in items.children.as_slice() {
        if is_spread(&item.kind) {
            return true;
        }
    }
    false
}

fn array_way(node: &Node) -> Way
    ensures { result ≡ table.array_way node.now }
{
    let spreads = match node.children.get(0) {
        Some(items) => has_spread(items),
        None => false,
    };
    if spreads {
        return Way::Whole;
    }
    Way::Parts
}

fn is_kept(kind: &Kind) -> bool
    ensures { result ≡ table.is_kept kind.now }
{
    matches!(kind, Kind::SpreadElement | Kind::AssignProp)
}

fn has_kept(properties: &Node) -> bool
    ensures { result ≡ table.has_kept properties.now }
{
    for property in properties.children.as_slice() {
        if is_kept(&property.kind) {
            return true;
        }
    }
    false
}

fn object_way(node: &Node) -> Way
    ensures { result ≡ table.object_way node.now }
{
    let keeps = match node.children.get(0) {
        Some(properties) => has_kept(properties),
        None => false,
    };
    if keeps {
        return Way::Kept;
    }
    Way::Parts
}

fn constructs_date(ctx: &ExprCtx, node: &Node) -> bool
    ensures { result ≡ passes_at (table.is_date ctx.now) 0 node.now }
{
    match node.children.get(0) {
        Some(callee) => is_global(ctx, "Date", &callee.kind),
        None => false,
    }
}

fn has_no_args(node: &Node) -> bool
    ensures { result ≡ passes_at has_no_items 1 node.now }
{
    match node.children.get(1) {
        Some(args) => has_no_items(args),
        None => false,
    }
}

fn new_way(ctx: &ExprCtx, node: &Node) -> Way
    ensures { result ≡ table.new_way ctx.now node.now }
{
    if constructs_date(ctx, node) && has_no_args(node) {
        return Way::Nothing;
    }
    Way::Whole
}

fn name_way(ctx: &ExprCtx, node: &Node) -> Way
    ensures { result ≡ table.name_way ctx.now node.now }
{
    if has_effects(ctx, node) {
        return Way::Whole;
    }
    Way::Nothing
}

#[tactic(auto, unfolding(crate::specs::Extraction::part_way_by))]
fn part_way(node: &Node) -> Way
    ensures { result ≡ table.part_way_by (out-Node node.now).kind }
{
    match &node.kind {
        Kind::Absent => Way::Nothing,
        Kind::List => Way::Parts,
        Kind::IdentName { .. } => Way::Nothing,
        Kind::ComputedPropName => Way::Parts,
        Kind::KeyValueProp => Way::Parts,
        Kind::GetterProp => Way::First,
        Kind::SetterProp => Way::First,
        Kind::MethodProp => Way::First,
        _ => Way::Whole,
    }
}

/// What is left of a node whose value is not wanted.
#[tactic(auto, unfolding(crate::specs::Extraction::way_by))]
pub(crate) fn way_of(ctx: &ExprCtx, node: &Node) -> Way
    ensures { result ≡ table.way_of ctx.now node.now }
{
    match &node.kind {
        Kind::Ident { .. } => name_way(ctx, node),
        Kind::Str { .. } => Way::Nothing,
        Kind::Bool { .. } => Way::Nothing,
        Kind::Null => Way::Nothing,
        Kind::Number { .. } => Way::Nothing,
        Kind::BigInt { .. } => Way::Nothing,
        Kind::Regex { .. } => Way::Nothing,
        Kind::ThisExpr => Way::Nothing,
        Kind::PrivateName { .. } => Way::Nothing,
        Kind::FnExpr => Way::Nothing,
        Kind::ArrowExpr { .. } => Way::Nothing,
        Kind::UnaryExpr { op } => unary_way(*op, node),
        Kind::BinExpr { op } => binary_way(*op),
        Kind::SeqExpr => Way::Parts,
        Kind::ParenExpr => Way::Parts,
        Kind::TsTypeAssertion => Way::First,
        Kind::TsConstAssertion => Way::First,
        Kind::TsNonNullExpr => Way::First,
        Kind::TsAsExpr => Way::First,
        Kind::TsInstantiation => Way::First,
        Kind::TsSatisfiesExpr => Way::First,
        Kind::Tpl => Way::First,
        Kind::ArrayLit => array_way(node),
        Kind::ObjectLit => object_way(node),
        Kind::NewExpr => new_way(ctx, node),
        _ => part_way(node),
    }
}
