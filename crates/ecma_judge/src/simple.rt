//! Expressions that are simple.
ghost use Rattle.std.specs.Prelude.{◌≡◌, false, get_or, map};
ghost use Rattle.ecma_kind.specs.Sorts.{is_lit};
ghost use Rattle.ecma_tree.specs.declared.node.Node.{out-Node};
ghost use Rattle.ecma_judge.specs.Parts.{has_kind, passes_at};
ghost use Rattle.ecma_judge.specs.Simple as table;
ghost use Rattle.ecma_judge.specs.Simple.{is_name_key, is_simple, is_simple_member};

use ecma_tree::{Expr, Kind, Node, UnaryOp};

fn keeps_simple(op: UnaryOp) -> bool
    ensures { result ≡ table.keeps_simple op }
{
    matches!(op, UnaryOp::Void | UnaryOp::Bang)
}

fn is_literal_kind(kind: &Kind) -> bool
    ensures { result ≡ is_lit kind.now }
{
    matches!(
        kind,
        Kind::Str { .. }
            | Kind::Bool { .. }
            | Kind::Null
            | Kind::Number { .. }
            | Kind::BigInt { .. }
            | Kind::Regex { .. }
    )
}

fn is_name_key(kind: &Kind) -> bool
    ensures { result ≡ is_name_key kind.now }
{
    matches!(kind, Kind::IdentName { .. } | Kind::PrivateName { .. })
}

fn has_name_key(member: &Node) -> bool
    ensures { result ≡ passes_at (has_kind is_name_key) 1 member.now }
{
    match member.children.get(1) {
        Some(key) => is_name_key(&key.kind),
        None => false,
    }
}

#[cycle(simple)]
#[tactic(auto, using(crate::proofs::Simplicity::simple))]
fn is_simple_at(getters: bool, node: &Node, index: usize) -> bool
    ensures { result ≡ get_or (map (is_simple getters) (out-Node node.now).children) index false }
{
    match node.children.get(index) {
        Some(child) => is_simple(getters, child),
        None => false,
    }
}

#[cycle(simple)]
fn is_simple_member(getters: bool, member: &Node) -> bool
    ensures { result ≡ is_simple_member getters member.now }
{
    is_simple_at(getters, member, 0) && (has_name_key(member) || is_simple_at(getters, member, 1))
}

#[cycle(simple)]
#[tactic(auto, using(crate::proofs::Simplicity::simple), unfolding(crate::specs::Simple::is_simple_by))]
fn is_simple(getters: bool, node: &Node) -> bool
    ensures { result ≡ is_simple getters node.now }
{
    match &node.kind {
        Kind::Ident { .. } => true,
        Kind::ThisExpr => true,
        Kind::UnaryExpr { op } => keeps_simple(*op) && is_simple_at(getters, node, 0),
        Kind::MemberExpr => getters && is_simple_member(getters, node),
        Kind::ComputedPropName => is_simple_at(getters, node, 0),
        _ => is_literal_kind(&node.kind),
    }
}

/// Whether an expression is a name, `this`, a literal, `void` or `!` of such or, where getters are taken for pure, a member of such. It takes no
/// memory.
pub fn is_simple_pure_expr(expr: &Expr, pure_getters: bool) -> bool
    ensures { result ≡ is_simple pure_getters expr.now }
{
    is_simple(pure_getters, expr)
}

/// Whether the object of a member is simple, and its key too where that is in brackets. It takes no memory.
pub fn is_simple_pure_member_expr(member: &Expr, pure_getters: bool) -> bool
    ensures { result ≡ is_simple_member pure_getters member.now }
{
    is_simple_member(pure_getters, member)
}
