//! The type of an expression's value.
ghost use Rattle.std.specs.Prelude.{◌≡◌};
ghost use Rattle.ecma_tree.specs.declared.node.Node.{out-Node};
ghost use Rattle.ecma_judge.specs.Judged.{judged, kids_of};
ghost use Rattle.ecma_judge.specs.Judgement.{kid};
ghost use Rattle.ecma_judge.specs.Parts.{has_kind, passes_at};
ghost use Rattle.ecma_judge.specs.Types as table;

use crate::ctx::ExprCtx;
use crate::parts::{is_array, is_text_literal, last_index};
use ecma_number::{JsType, Value};
use ecma_tree::{AssignOp, BinaryOp, Kind, Node, SyntaxContext, UnaryOp};
use short_texts::is_same;

fn same_type(left: JsType, right: JsType) -> bool
    ensures { result ≡ table.same_type left right }
{
    match (left, right) {
        (JsType::Undefined, JsType::Undefined) => true,
        (JsType::Null, JsType::Null) => true,
        (JsType::Bool, JsType::Bool) => true,
        (JsType::Str, JsType::Str) => true,
        (JsType::Symbol, JsType::Symbol) => true,
        (JsType::Num, JsType::Num) => true,
        (JsType::Obj, JsType::Obj) => true,
        _ => false,
    }
}

/// The type that both have.
fn common_type(left: Value<JsType>, right: Value<JsType>) -> Value<JsType>
    ensures { result ≡ table.common_type left right }
{
    let Value::Known(first) = left else {
        return Value::Unknown;
    };
    let Value::Known(second) = right else {
        return Value::Unknown;
    };
    if same_type(first, second) {
        return Value::Known(first);
    }
    Value::Unknown
}

fn is_str(kind: Value<JsType>) -> bool
    ensures { result ≡ table.is_str kind }
{
    matches!(kind, Value::Known(JsType::Str))
}

/// The type of a sum.
fn added_type(left: Value<JsType>, right: Value<JsType>) -> Value<JsType>
    ensures { result ≡ table.added_type left right }
{
    if is_str(left) || is_str(right) {
        return Value::Known(JsType::Str);
    }
    if left.casted_to_number_on_add() && right.casted_to_number_on_add() {
        return Value::Known(JsType::Num);
    }
    Value::Unknown
}

fn unary_type(op: UnaryOp) -> JsType
    ensures { result ≡ table.unary_type op }
{
    match op {
        UnaryOp::Minus | UnaryOp::Plus | UnaryOp::Tilde => JsType::Num,
        UnaryOp::Bang | UnaryOp::Delete => JsType::Bool,
        UnaryOp::TypeOf => JsType::Str,
        UnaryOp::Void => JsType::Undefined,
    }
}

/// What an operator gives whatever its sides are: a Number, a truth value, or what its sides tell.
fn binary_type(op: BinaryOp, left: Value<JsType>, right: Value<JsType>) -> Value<JsType>
    ensures { result ≡ table.binary_type op left right }
{
    match op {
        BinaryOp::Sub => Value::Known(JsType::Num),
        BinaryOp::Mul => Value::Known(JsType::Num),
        BinaryOp::Div => Value::Known(JsType::Num),
        BinaryOp::Mod => Value::Known(JsType::Num),
        BinaryOp::Exp => Value::Known(JsType::Num),
        BinaryOp::BitOr => Value::Known(JsType::Num),
        BinaryOp::BitXor => Value::Known(JsType::Num),
        BinaryOp::BitAnd => Value::Known(JsType::Num),
        BinaryOp::LShift => Value::Known(JsType::Num),
        BinaryOp::RShift => Value::Known(JsType::Num),
        BinaryOp::ZeroFillRShift => Value::Known(JsType::Num),
        BinaryOp::Add => added_type(left, right),
        BinaryOp::LogicalOr => common_type(left, right),
        BinaryOp::LogicalAnd => common_type(left, right),
        BinaryOp::NullishCoalescing => Value::Unknown,
        _ => Value::Known(JsType::Bool),
    }
}

fn assigned_type(op: AssignOp, right: Value<JsType>) -> Value<JsType>
    ensures { result ≡ table.assigned_type op right }
{
    match op {
        AssignOp::Assign => right,
        AssignOp::AddAssign => {
            if is_str(right) {
                return Value::Known(JsType::Str);
            }
            Value::Unknown
        }
        AssignOp::AndAssign => Value::Unknown,
        AssignOp::OrAssign => Value::Unknown,
        AssignOp::NullishAssign => Value::Unknown,
        _ => Value::Known(JsType::Num),
    }
}

fn is_number_name(sym: &str) -> bool
    ensures { result ≡ table.is_number_name sym.now }
{
    is_same(sym, "NaN") || is_same(sym, "Infinity")
}

fn name_type(ctx: &ExprCtx, sym: &str, ctxt: SyntaxContext) -> Value<JsType>
    ensures { result ≡ table.name_type ctx.now sym.now ctxt }
{
    if ctxt == ctx.unresolved_ctxt && is_same(sym, "undefined") {
        return Value::Known(JsType::Undefined);
    }
    if ctxt == ctx.unresolved_ctxt && is_number_name(sym) {
        return Value::Known(JsType::Num);
    }
    Value::Unknown
}

fn has_length(kind: &Kind) -> bool
    ensures { result ≡ table.has_length kind.now }
{
    is_text_literal(kind) || is_array(kind)
}

fn is_length(kind: &Kind) -> bool
    ensures { result ≡ table.is_length kind.now }
{
    match kind {
        Kind::IdentName { sym } => is_same(sym.as_str(), "length"),
        _ => false,
    }
}

fn object_has_length(member: &Node) -> bool
    ensures { result ≡ passes_at (has_kind table.has_length) 0 member.now }
{
    match member.children.get(0) {
        Some(object) => has_length(&object.kind),
        None => false,
    }
}

fn key_is_length(member: &Node) -> bool
    ensures { result ≡ passes_at (has_kind table.is_length) 1 member.now }
{
    match member.children.get(1) {
        Some(key) => is_length(&key.kind),
        None => false,
    }
}

fn member_type(member: &Node) -> Value<JsType>
    ensures { result ≡ table.member_type member.now }
{
    if object_has_length(member) && key_is_length(member) {
        return Value::Known(JsType::Num);
    }
    Value::Unknown
}

#[cycle(types)]
#[tactic(auto, using(crate::proofs::Judging::types))]
pub(crate) fn type_at(ctx: &ExprCtx, node: &Node, index: usize) -> Value<JsType>
    ensures { result ≡ (kid (kids_of ctx.now node.now) index).type }
{
    match node.children.get(index) {
        Some(child) => type_of(ctx, child),
        None => Value::Unknown,
    }
}

/// The type of the value, of every evaluation that completes.
#[cycle(types)]
#[tactic(auto, using(crate::proofs::Judging::types), unfolding(crate::specs::Types::type_by))]
pub(crate) fn type_of(ctx: &ExprCtx, node: &Node) -> Value<JsType>
    ensures { result ≡ (judged ctx.now node.now).type }
{
    match &node.kind {
        Kind::Ident { sym, ctxt, .. } => name_type(ctx, sym.as_str(), *ctxt),
        Kind::Number { .. } => Value::Known(JsType::Num),
        Kind::Bool { .. } => Value::Known(JsType::Bool),
        Kind::Str { .. } => Value::Known(JsType::Str),
        Kind::Null => Value::Known(JsType::Null),
        Kind::Regex { .. } => Value::Known(JsType::Obj),
        Kind::Tpl => Value::Known(JsType::Str),
        Kind::FnExpr => Value::Known(JsType::Obj),
        Kind::NewExpr => Value::Known(JsType::Obj),
        Kind::ArrayLit => Value::Known(JsType::Obj),
        Kind::ObjectLit => Value::Known(JsType::Obj),
        Kind::UnaryExpr { op } => Value::Known(unary_type(*op)),
        Kind::UpdateExpr { .. } => Value::Known(JsType::Num),
        Kind::BinExpr { op } => binary_type(*op, type_at(ctx, node, 0), type_at(ctx, node, 1)),
        Kind::AssignExpr { op } => assigned_type(*op, type_at(ctx, node, 1)),
        Kind::CondExpr => common_type(type_at(ctx, node, 1), type_at(ctx, node, 2)),
        Kind::SeqExpr => type_at(ctx, node, last_index(node)),
        Kind::MemberExpr => member_type(node),
        _ => Value::Unknown,
    }
}
