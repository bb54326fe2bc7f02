//! Whether to evaluate a node may have effects.
ghost use Rattle.std.specs.Prelude.{◌≡◌, not};
ghost use Rattle.ecma_tree.specs.declared.node.Node.{out-Node};
ghost use Rattle.ecma_judge.specs.Effects as table;
ghost use Rattle.ecma_judge.specs.Effects.{is_delete, name_has_effects};
ghost use Rattle.ecma_judge.specs.Judged.{judged, kids_of};
ghost use Rattle.ecma_judge.specs.Judgement.{any_has_effects, kid, purity_of};
ghost use Rattle.ecma_judge.specs.Parts.{has_kind, is_empty_block, is_optional_call, passes_at};

use crate::callees::{is_pure_callee, is_pure_callee_here};
use crate::ctx::ExprCtx;
use crate::globals::is_among;
use crate::members::reads_plainly;
use crate::parts::{is_empty_block, is_optional_call};
use ecma_number::Purity;
use ecma_tree::{Class, Kind, Node, SyntaxContext, UnaryOp};

/// The names of the global object that each host has.
const SAFE_NAMES: [&str; 15] = [
    "Infinity",
    "NaN",
    "Math",
    "undefined",
    "Object",
    "Array",
    "Promise",
    "Boolean",
    "Number",
    "String",
    "BigInt",
    "Error",
    "RegExp",
    "Function",
    "document",
];

fn is_safe_name(text: &str) -> bool
    ensures { result ≡ table.is_safe_name text.now }
{
    let names: [&str; 15] = SAFE_NAMES;
    is_among(text, names.as_slice())
}

fn name_has_effects(ctx: &ExprCtx, sym: &str, ctxt: SyntaxContext) -> bool
    ensures { result ≡ name_has_effects ctx.now sym.now ctxt }
{
    !ctx.is_unresolved_ref_safe && ctxt == ctx.unresolved_ctxt && !is_safe_name(sym)
}

fn is_delete(op: UnaryOp) -> bool
    ensures { result ≡ is_delete op }
{
    matches!(op, UnaryOp::Delete)
}

fn has_empty_body(node: &Node) -> bool
    ensures { result ≡ passes_at is_empty_block 0 node.now }
{
    match node.children.get(0) {
        Some(body) => is_empty_block(body),
        None => false,
    }
}

fn is_call(node: &Node) -> bool
    ensures { result ≡ passes_at (has_kind is_optional_call) 0 node.now }
{
    match node.children.get(0) {
        Some(base) => is_optional_call(&base.kind),
        None => false,
    }
}

/// Whether the child at an index is a callee whose call has no effects of its own.
#[tactic(auto, using(crate::proofs::Judging::callees))]
fn has_pure_callee(ctx: &ExprCtx, node: &Node) -> bool
    ensures { result ≡ (kid (kids_of ctx.now node.now) 0).pure_callee }
{
    match node.children.get(0) {
        Some(callee) => is_pure_callee_here(ctx, callee),
        None => false,
    }
}

#[cycle(effects)]
#[tactic(auto, using(crate::proofs::Judging::effects))]
fn effects_at(ctx: &ExprCtx, node: &Node, index: usize) -> bool
    ensures { result ≡ (kid (kids_of ctx.now node.now) index).effects }
{
    match node.children.get(index) {
        Some(child) => has_effects(ctx, child),
        None => false,
    }
}

/// Whether one of the children may have effects.
#[cycle(effects)]
#[tactic(auto, using(crate::proofs::Judging::effects))]
fn any_has_effects(ctx: &ExprCtx, node: &Node) -> bool
    ensures { result ≡ any_has_effects (kids_of ctx.now node.now) }
{
    for child in node.children.as_slice() {
        if has_effects(ctx, child) {
            return true;
        }
    }
    false
}

/// Whether one of the first two children may have effects.
#[cycle(effects)]
fn first_two_have_effects(ctx: &ExprCtx, node: &Node) -> bool
    ensures { result ≡ table.first_two_have_effects (kids_of ctx.now node.now) }
{
    effects_at(ctx, node, 0) || effects_at(ctx, node, 1)
}

/// Of what stands in classes and objects, and of lists.
#[cycle(effects)]
#[tactic(auto, unfolding(crate::specs::Effects::part_effects_by))]
fn part_effects(ctx: &ExprCtx, node: &Node) -> bool
    ensures { result ≡ table.part_effects_by (out-Node node.now).kind node.now (kids_of ctx.now node.now) }
{
    match &node.kind {
        Kind::Absent => false,
        Kind::List => any_has_effects(ctx, node),
        Kind::IdentName { .. } => false,
        Kind::ComputedPropName => effects_at(ctx, node, 0),
        Kind::KeyValueProp => first_two_have_effects(ctx, node),
        Kind::GetterProp => effects_at(ctx, node, 0),
        Kind::SetterProp => effects_at(ctx, node, 0),
        Kind::MethodProp => effects_at(ctx, node, 0),
        Kind::Class { .. } => first_two_have_effects(ctx, node),
        Kind::Constructor { .. } => false,
        Kind::ClassMethod { .. } => effects_at(ctx, node, 0),
        Kind::PrivateMethod { .. } => effects_at(ctx, node, 0),
        Kind::ClassProp { .. } => first_two_have_effects(ctx, node),
        Kind::PrivateProp { .. } => first_two_have_effects(ctx, node),
        Kind::StaticBlock => !has_empty_body(node),
        Kind::TsIndexSignature { .. } => false,
        Kind::EmptyStmt => false,
        _ => true,
    }
}

/// Of members and calls.
#[cycle(effects)]
#[tactic(auto, unfolding(crate::specs::Effects::access_effects_by))]
fn access_effects(ctx: &ExprCtx, node: &Node) -> bool
    ensures { result ≡ table.access_effects_by (out-Node node.now).kind node.now (kids_of ctx.now node.now) }
{
    match &node.kind {
        Kind::MemberExpr => !reads_plainly(node) || first_two_have_effects(ctx, node),
        Kind::CallExpr => !has_pure_callee(ctx, node) || effects_at(ctx, node, 1),
        Kind::OptCall => !has_pure_callee(ctx, node) || effects_at(ctx, node, 1),
        Kind::OptChainExpr { .. } => !is_call(node) || effects_at(ctx, node, 0),
        _ => part_effects(ctx, node),
    }
}

/// Of expressions.
#[cycle(effects)]
#[tactic(auto, unfolding(crate::specs::Effects::effects_by))]
fn expr_effects(ctx: &ExprCtx, node: &Node) -> bool
    ensures { result ≡ table.effects_by ctx.now (out-Node node.now).kind node.now (kids_of ctx.now node.now) }
{
    match &node.kind {
        Kind::Ident { sym, ctxt, .. } => name_has_effects(ctx, sym.as_str(), *ctxt),
        Kind::Str { .. } => false,
        Kind::Bool { .. } => false,
        Kind::Null => false,
        Kind::Number { .. } => false,
        Kind::BigInt { .. } => false,
        Kind::Regex { .. } => false,
        Kind::ThisExpr => false,
        Kind::PrivateName { .. } => false,
        Kind::FnExpr => false,
        Kind::ArrowExpr { .. } => false,
        Kind::ParenExpr => effects_at(ctx, node, 0),
        Kind::TsTypeAssertion => effects_at(ctx, node, 0),
        Kind::TsConstAssertion => effects_at(ctx, node, 0),
        Kind::TsNonNullExpr => effects_at(ctx, node, 0),
        Kind::TsAsExpr => effects_at(ctx, node, 0),
        Kind::TsInstantiation => effects_at(ctx, node, 0),
        Kind::TsSatisfiesExpr => effects_at(ctx, node, 0),
        Kind::UnaryExpr { op } => is_delete(*op) || effects_at(ctx, node, 0),
        Kind::BinExpr { .. } => any_has_effects(ctx, node),
        Kind::CondExpr => any_has_effects(ctx, node),
        Kind::SeqExpr => any_has_effects(ctx, node),
        Kind::ClassExpr => effects_at(ctx, node, 1),
        Kind::ArrayLit => effects_at(ctx, node, 0),
        Kind::ObjectLit => effects_at(ctx, node, 0),
        _ => access_effects(ctx, node),
    }
}

/// Whether to evaluate a node may have effects: an expression, a class, a property, a key, a list of such.
#[cycle(effects)]
#[tactic(auto, using(crate::proofs::Judging::effects))]
pub(crate) fn has_effects(ctx: &ExprCtx, node: &Node) -> bool
    ensures { result ≡ (judged ctx.now node.now).effects }
{
    !is_pure_callee(ctx, node) && expr_effects(ctx, node)
}

/// The purity of an expression by its effects.
pub(crate) fn own_purity(ctx: &ExprCtx, node: &Node) -> Purity
    ensures { result ≡ purity_of (judged ctx.now node.now).effects }
{
    if has_effects(ctx, node) {
        return Purity::MayBeImpure;
    }
    Purity::Pure
}

/// Whether the definition of a class, a node of the kind [`Kind::Class`], may have effects: its heritage, a key in brackets, the value of a
/// field or a static block that is not empty. It takes no memory.
pub fn class_has_side_effect(ctx: &ExprCtx, class: &Class) -> bool
    ensures { result ≡ (judged ctx.now class.now).effects }
{
    has_effects(ctx, class)
}
