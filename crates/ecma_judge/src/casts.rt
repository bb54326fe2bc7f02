//! What is known of an expression's value as a truth, as a Number and as a text.
ghost use Rattle.std.specs.Prelude.{◌≡◌, IfOk};
ghost use Rattle.ecma_tree.specs.declared.node.Node.{out-Node};
ghost use Rattle.ecma_judge.specs.Judged.{judged, kids_of};
ghost use Rattle.ecma_judge.specs.Judgement.{kid, purity_of};
ghost use Rattle.ecma_judge.specs.Numbers.{unary_number};
ghost use Rattle.ecma_judge.specs.Texts as texts_table;
ghost use Rattle.ecma_judge.specs.Texts.{joined, unary_text};
ghost use Rattle.ecma_judge.specs.Truths as table;
ghost use Rattle.ecma_judge.specs.Truths.{are_bools, unary_truth};

use crate::ctx::ExprCtx;
use crate::effects::own_purity;
use crate::numbers::{
    Numbered, array_number, bool_number, impure, literal_number, minus_number, name_number,
    not_number,
};
use crate::parts::last_index;
use crate::texts::{
    bool_text, is_idle_void, is_undefined_name, known_bool_text, known_number_text, name_text,
    void_text,
};
use crate::truths::{
    Truth, and_truth, big_int_truth, bit_and, bit_or, difference, is_bool, known_number_truth,
    name_truth, negated_truth, negation, or_truth, pure_number, pure_truth, quotient, sum_truth,
    with_purity,
};
use crate::types::type_at;
use ecma_number::{JsNumber, Purity, Value, num_from_str};
use ecma_tree::{AssignOp, BinaryOp, JsWord, Kind, NoMemory, Node, UnaryOp};
use std::alloc::Global;

/// Whether both sides are truth values.
fn are_bools(ctx: &ExprCtx, node: &Node) -> bool
    ensures { result ≡ are_bools (kid (kids_of ctx.now node.now) 0) (kid (kids_of ctx.now node.now) 1) }
{
    is_bool(type_at(ctx, node, 0)) && is_bool(type_at(ctx, node, 1))
}

#[cycle(casts)]
#[tactic(auto, using(crate::proofs::Judging::truths))]
fn truth_at(alloc: Global, ctx: &ExprCtx, node: &Node, index: usize) -> Result<Truth, NoMemory>
    ensures { IfOk result (λ known. known ≡ (kid (kids_of ctx.now node.now) index).truth) }
{
    match node.children.get(index) {
        Some(child) => truth(alloc, ctx, child),
        None => Ok((Purity::Pure, Value::Unknown)),
    }
}

#[cycle(casts)]
#[tactic(auto, using(crate::proofs::Judging::truths))]
fn number_at(alloc: Global, ctx: &ExprCtx, node: &Node, index: usize) -> Result<Numbered, NoMemory>
    ensures { IfOk result (λ known. known ≡ (kid (kids_of ctx.now node.now) index).number) }
{
    match node.children.get(index) {
        Some(child) => number(alloc, ctx, child),
        None => Ok((Purity::MayBeImpure, Value::Unknown)),
    }
}

#[cycle(casts)]
#[tactic(auto, using(crate::proofs::Judging::truths))]
fn text_at(
    alloc: Global,
    ctx: &ExprCtx,
    node: &Node,
    index: usize,
) -> Result<Value<JsWord>, NoMemory>
    ensures { IfOk result (λ known. known ≡ (kid (kids_of ctx.now node.now) index).text) }
{
    match node.children.get(index) {
        Some(child) => text(alloc, ctx, child),
        None => Ok(Value::Unknown),
    }
}

#[cycle(casts)]
fn unary_truth(alloc: Global, ctx: &ExprCtx, op: UnaryOp, node: &Node) -> Result<Truth, NoMemory>
    ensures { IfOk result (λ known. known
        ≡ unary_truth (purity_of (judged ctx.now node.now).effects) op (kid (kids_of ctx.now node.now) 0)) }
{
    let own = own_purity(ctx, node);
    match op {
        UnaryOp::Minus => {
            let arg = number_at(alloc, ctx, node, 0)?;
            Ok((own, negated_truth(pure_number(arg))))
        }
        UnaryOp::Bang => {
            let arg = truth_at(alloc, ctx, node, 0)?;
            Ok(negation(arg))
        }
        UnaryOp::Void => Ok((own, Value::Known(false))),
        _ => Ok((own, Value::Unknown)),
    }
}

#[cycle(casts)]
fn binary_truth(alloc: Global, ctx: &ExprCtx, op: BinaryOp, node: &Node) -> Result<Truth, NoMemory>
    ensures { IfOk result (λ known. known
        ≡ table.binary_truth (purity_of (judged ctx.now node.now).effects) op node.now
        (kid (kids_of ctx.now node.now) 0) (kid (kids_of ctx.now node.now) 1)) }
{
    match op {
        BinaryOp::Sub => {
            let left = number_at(alloc, ctx, node, 0)?;
            let right = number_at(alloc, ctx, node, 1)?;
            Ok(difference(left, right))
        }
        BinaryOp::Div => {
            let left = number_at(alloc, ctx, node, 0)?;
            let right = number_at(alloc, ctx, node, 1)?;
            Ok(quotient(left, right))
        }
        BinaryOp::BitAnd => {
            let left = truth_at(alloc, ctx, node, 0)?;
            let right = truth_at(alloc, ctx, node, 1)?;
            Ok(bit_and(are_bools(ctx, node), left, right))
        }
        BinaryOp::BitOr => {
            let left = truth_at(alloc, ctx, node, 0)?;
            let right = truth_at(alloc, ctx, node, 1)?;
            Ok(bit_or(are_bools(ctx, node), left, right))
        }
        BinaryOp::LogicalOr => {
            let left = truth_at(alloc, ctx, node, 0)?;
            let right = truth_at(alloc, ctx, node, 1)?;
            Ok(or_truth(left, right))
        }
        BinaryOp::LogicalAnd => {
            let left = truth_at(alloc, ctx, node, 0)?;
            let right = truth_at(alloc, ctx, node, 1)?;
            Ok(and_truth(left, right))
        }
        BinaryOp::Add => Ok((own_purity(ctx, node), sum_truth(node))),
        _ => Ok((own_purity(ctx, node), Value::Unknown)),
    }
}

#[cycle(casts)]
fn assigned_truth(
    alloc: Global,
    ctx: &ExprCtx,
    op: AssignOp,
    node: &Node,
) -> Result<Truth, NoMemory>
    ensures { IfOk result (λ known. known
        ≡ table.assigned_truth (purity_of (judged ctx.now node.now).effects) op (kid (kids_of ctx.now node.now) 1)) }
{
    match op {
        AssignOp::Assign => {
            let right = truth_at(alloc, ctx, node, 1)?;
            Ok(with_purity(Purity::MayBeImpure, right))
        }
        _ => Ok((own_purity(ctx, node), Value::Unknown)),
    }
}

/// What is known of the truth of the value, and the purity of what tells it.
#[cycle(casts)]
#[tactic(auto, using(crate::proofs::Judging::truths), unfolding(crate::specs::Truths::truth_by))]
pub(crate) fn truth(alloc: Global, ctx: &ExprCtx, node: &Node) -> Result<Truth, NoMemory>
    ensures { IfOk result (λ known. known ≡ (judged ctx.now node.now).truth) }
{
    match &node.kind {
        Kind::Ident { sym, ctxt, .. } => {
            Ok(name_truth(ctx, own_purity(ctx, node), sym.as_str(), *ctxt))
        }
        Kind::ParenExpr => truth_at(alloc, ctx, node, 0),
        Kind::AssignExpr { op } => assigned_truth(alloc, ctx, *op, node),
        Kind::UnaryExpr { op } => unary_truth(alloc, ctx, *op, node),
        Kind::BinExpr { op } => binary_truth(alloc, ctx, *op, node),
        Kind::SeqExpr => {
            let last = truth_at(alloc, ctx, node, last_index(node))?;
            Ok(with_purity(own_purity(ctx, node), last))
        }
        Kind::FnExpr => Ok((own_purity(ctx, node), Value::Known(true))),
        Kind::ClassExpr => Ok((own_purity(ctx, node), Value::Known(true))),
        Kind::NewExpr => Ok((own_purity(ctx, node), Value::Known(true))),
        Kind::ArrayLit => Ok((own_purity(ctx, node), Value::Known(true))),
        Kind::ObjectLit => Ok((own_purity(ctx, node), Value::Known(true))),
        Kind::Regex { .. } => Ok((Purity::Pure, Value::Known(true))),
        Kind::Str { value, .. } => Ok((Purity::Pure, Value::Known(!value.as_str().is_empty()))),
        Kind::Number { value, .. } => Ok((Purity::Pure, known_number_truth(value))),
        Kind::BigInt { value, .. } => {
            Ok((Purity::Pure, Value::Known(big_int_truth(value.as_str()))))
        }
        Kind::Bool { value } => Ok((Purity::Pure, Value::Known(*value))),
        Kind::Null => Ok((Purity::Pure, Value::Known(false))),
        _ => Ok((own_purity(ctx, node), Value::Unknown)),
    }
}

#[cycle(casts)]
fn unary_number(
    alloc: Global,
    ctx: &ExprCtx,
    op: UnaryOp,
    node: &Node,
) -> Result<Numbered, NoMemory>
    ensures { IfOk result (λ known. known
        ≡ unary_number ctx.now (purity_of (judged ctx.now node.now).effects) op node.now (kid (kids_of ctx.now node.now) 0)) }
{
    match op {
        UnaryOp::Minus => Ok(minus_number(ctx, node)),
        UnaryOp::Bang => {
            let arg = truth_at(alloc, ctx, node, 0)?;
            Ok(not_number(pure_truth(arg)))
        }
        UnaryOp::Void => Ok((own_purity(ctx, node), Value::Known(JsNumber::NaN))),
        _ => Ok((Purity::MayBeImpure, Value::Unknown)),
    }
}

/// What is known of the value as a Number, and the purity of what tells it.
#[cycle(casts)]
#[tactic(auto, using(crate::proofs::Judging::truths), unfolding(crate::specs::Numbers::number_by))]
pub(crate) fn number(alloc: Global, ctx: &ExprCtx, node: &Node) -> Result<Numbered, NoMemory>
    ensures { IfOk result (λ known. known ≡ (judged ctx.now node.now).number) }
{
    match &node.kind {
        Kind::Ident { sym, ctxt, .. } => {
            Ok(name_number(ctx, own_purity(ctx, node), sym.as_str(), *ctxt))
        }
        Kind::Bool { value } => Ok((Purity::Pure, Value::Known(bool_number(*value)))),
        Kind::Null => Ok((Purity::Pure, Value::Known(bool_number(false)))),
        Kind::Number { value, .. } => Ok((Purity::Pure, literal_number(value))),
        Kind::Str { value, .. } => Ok((Purity::Pure, num_from_str(value.as_str()))),
        Kind::BigInt { .. } => Ok((Purity::Pure, Value::Unknown)),
        Kind::Regex { .. } => Ok((Purity::Pure, Value::Unknown)),
        Kind::ArrayLit => {
            let text = text_at(alloc, ctx, node, 0)?;
            Ok(array_number(own_purity(ctx, node), text))
        }
        Kind::UnaryExpr { op } => unary_number(alloc, ctx, *op, node),
        Kind::SeqExpr => {
            let last = number_at(alloc, ctx, node, last_index(node))?;
            Ok(impure(last))
        }
        _ => Ok((Purity::MayBeImpure, Value::Unknown)),
    }
}

#[cycle(casts)]
fn unary_text(
    alloc: Global,
    ctx: &ExprCtx,
    op: UnaryOp,
    node: &Node,
) -> Result<Value<JsWord>, NoMemory>
    ensures { IfOk result (λ known. known
        ≡ unary_text (purity_of (judged ctx.now node.now).effects) op (kid (kids_of ctx.now node.now) 0)) }
{
    match op {
        UnaryOp::Void => void_text(alloc, own_purity(ctx, node)),
        UnaryOp::Bang => {
            let arg = truth_at(alloc, ctx, node, 0)?;
            known_bool_text(alloc, !pure_truth(arg))
        }
        _ => Ok(Value::Unknown),
    }
}

/// What is known of the value as a text, if nothing has to be done to know it.
#[cycle(casts)]
#[tactic(auto, using(crate::proofs::Judging::truths), unfolding(crate::specs::Texts::text_by))]
pub(crate) fn text(alloc: Global, ctx: &ExprCtx, node: &Node) -> Result<Value<JsWord>, NoMemory>
    ensures { IfOk result (λ known. known ≡ (judged ctx.now node.now).text) }
{
    match &node.kind {
        Kind::Str { value, .. } => Ok(Value::Known(value.clone()?)),
        Kind::Number { value, .. } => known_number_text(alloc, value),
        Kind::Bool { value } => Ok(Value::Known(bool_text(alloc, *value)?)),
        Kind::Null => Ok(Value::Known(JsWord::new(alloc, "null")?)),
        Kind::Ident { sym, ctxt, .. } => name_text(ctx, sym, *ctxt),
        Kind::UnaryExpr { op } => unary_text(alloc, ctx, *op, node),
        Kind::ArrayLit => text_at(alloc, ctx, node, 0),
        Kind::List => joined(alloc, ctx, node),
        _ => Ok(Value::Unknown),
    }
}

/// Whether a node is nothing as an element of an array that is made a text.
#[tactic(auto, unfolding(crate::specs::Texts::is_nothing_by))]
fn is_nothing(ctx: &ExprCtx, node: &Node) -> bool
    ensures { result ≡ texts_table.is_nothing_by ctx.now (purity_of (judged ctx.now node.now).effects) (out-Node node.now).kind }
{
    match &node.kind {
        Kind::Absent => true,
        Kind::Null => true,
        Kind::Ident { sym, ctxt, .. } => is_undefined_name(ctx, sym.as_str(), *ctxt),
        Kind::UnaryExpr { op } => is_idle_void(own_purity(ctx, node), *op),
        _ => false,
    }
}

/// What is known of the text that a node adds as an element of an array.
#[cycle(casts)]
#[tactic(auto, using(crate::proofs::Judging::truths))]
fn element(alloc: Global, ctx: &ExprCtx, node: &Node) -> Result<Value<JsWord>, NoMemory>
    ensures { IfOk result (λ known. known ≡ (judged ctx.now node.now).element) }
{
    if is_nothing(ctx, node) {
        return Ok(Value::Known(JsWord::new(alloc, "")?));
    }
    text(alloc, ctx, node)
}

/// What is known of the elements of an array as texts, with commas between them.
#[cycle(casts)]
#[tactic(auto, using(crate::proofs::Joining::joining))]
fn joined(alloc: Global, ctx: &ExprCtx, list: &Node) -> Result<Value<JsWord>, NoMemory>
    ensures { IfOk result (λ known. known ≡ joined (kids_of ctx.now list.now)) }
{
    let mut joined = String::new(alloc);
    let mut separator = "";
    for i in 0..list.children.len() {
        let Value::Known(text) = element(alloc, ctx, list.children.at(i))? else {
            return Ok(Value::Unknown);
        };
        joined.push_str(separator)?;
        joined.push_str(text.as_str())?;
        separator = ",";
    }
    Ok(Value::Known(JsWord::new(alloc, joined.as_str())?))
}
