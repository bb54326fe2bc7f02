//! What the value of an expression is by its form: a text, or the same wherever it is evaluated.
ghost use Rattle.std.specs.Prelude.{◌≡◌, false, get_or, map};
ghost use Rattle.std.specs.List.{list_all};
ghost use Rattle.ecma_tree.specs.declared.node.Node.{out-Node};
ghost use Rattle.ecma_judge.specs.Values.{assigns_or_adds, is_add, is_constant_name, is_immutable, is_text, is_typeof, is_void, is_void_expr, keeps_immutable};

use crate::parts::last_index;
use ecma_tree::{AssignOp, BinaryOp, Kind, Node, UnaryOp};
use short_texts::is_same;

fn is_typeof(op: UnaryOp) -> bool
    ensures { result ≡ is_typeof op }
{
    matches!(op, UnaryOp::TypeOf)
}

fn is_void(op: UnaryOp) -> bool
    ensures { result ≡ is_void op }
{
    matches!(op, UnaryOp::Void)
}

/// Whether a node is `void` with its operand.
pub(crate) fn is_void_expr(kind: &Kind) -> bool
    ensures { result ≡ is_void_expr kind.now }
{
    match kind {
        Kind::UnaryExpr { op } => is_void(*op),
        _ => false,
    }
}

fn is_add(op: BinaryOp) -> bool
    ensures { result ≡ is_add op }
{
    matches!(op, BinaryOp::Add)
}

fn assigns_or_adds(op: AssignOp) -> bool
    ensures { result ≡ assigns_or_adds op }
{
    matches!(op, AssignOp::Assign | AssignOp::AddAssign)
}

fn keeps_immutable(op: UnaryOp) -> bool
    ensures { result ≡ keeps_immutable op }
{
    matches!(op, UnaryOp::Bang | UnaryOp::Tilde | UnaryOp::Void)
}

fn is_constant_name(sym: &str) -> bool
    ensures { result ≡ is_constant_name sym.now }
{
    is_same(sym, "undefined") || is_same(sym, "Infinity") || is_same(sym, "NaN")
}

#[cycle(texts)]
#[tactic(auto, using(crate::proofs::ByForm::are_texts))]
fn is_text_at(node: &Node, index: usize) -> bool
    ensures { result ≡ get_or (map is_text (out-Node node.now).children) index false }
{
    match node.children.get(index) {
        Some(child) => is_text(child),
        None => false,
    }
}

/// Whether the value is a text: of a text literal, a template, `typeof`, `+` with a side that is one, `=` and `+=` of one, a sequence that
/// ends in one, and a conditional expression of two.
#[cycle(texts)]
#[tactic(auto, using(crate::proofs::ByForm::are_texts), unfolding(crate::specs::Values::is_text_by))]
pub(crate) fn is_text(node: &Node) -> bool
    ensures { result ≡ is_text node.now }
{
    match &node.kind {
        Kind::Str { .. } => true,
        Kind::Tpl => true,
        Kind::UnaryExpr { op } => is_typeof(*op),
        Kind::BinExpr { op } => is_add(*op) && (is_text_at(node, 0) || is_text_at(node, 1)),
        Kind::AssignExpr { op } => assigns_or_adds(*op) && is_text_at(node, 1),
        Kind::SeqExpr => is_text_at(node, last_index(node)),
        Kind::CondExpr => is_text_at(node, 1) && is_text_at(node, 2),
        _ => false,
    }
}

#[cycle(immutables)]
#[tactic(auto, using(crate::proofs::ByForm::immutables))]
fn is_immutable_at(node: &Node, index: usize) -> bool
    ensures { result ≡ get_or (map is_immutable (out-Node node.now).children) index false }
{
    match node.children.get(index) {
        Some(child) => is_immutable(child),
        None => false,
    }
}

#[cycle(immutables)]
#[tactic(auto, using(crate::proofs::ByForm::immutables))]
fn all_are_immutable(node: &Node) -> bool
    ensures { result ≡ list_all (λ b. b) (map is_immutable (out-Node node.now).children) }
{
    for child in node.children.as_slice() {
        if !is_immutable(child) {
            return false;
        }
    }
    true
}

/// Whether the value is the same wherever it is evaluated: of a text, a number, a truth value, `null`, the names `undefined`, `Infinity` and
/// `NaN` in whatever context, and `!`, `~`, `void` and templates of such.
#[cycle(immutables)]
#[tactic(auto, using(crate::proofs::ByForm::immutables), unfolding(crate::specs::Values::is_immutable_by))]
pub(crate) fn is_immutable(node: &Node) -> bool
    ensures { result ≡ is_immutable node.now }
{
    match &node.kind {
        Kind::Str { .. } => true,
        Kind::Number { .. } => true,
        Kind::Bool { .. } => true,
        Kind::Null => true,
        Kind::UnaryExpr { op } => keeps_immutable(*op) && is_immutable_at(node, 0),
        Kind::Ident { sym, .. } => is_constant_name(sym.as_str()),
        Kind::Tpl => is_immutable_at(node, 0),
        Kind::List => all_are_immutable(node),
        _ => false,
    }
}
