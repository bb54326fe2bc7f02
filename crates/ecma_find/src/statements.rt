//! Statements that control leaves only by a jump.
ghost use Rattle.std.specs.Prelude.{◌≡◌, map};
ghost use Rattle.std.specs.List.{list_any};
ghost use Rattle.ecma_tree.specs.declared.node.Node.{out-Node};
ghost use Rattle.ecma_find.specs.Statements.{terminates, terminates_at};

use ecma_tree::{Kind, Node, Stmt};

/// Whether the child at an index is there, and ends what runs.
#[cycle(terminating)]
#[tactic(auto, using(crate::proofs::Terminating::terminating))]
fn terminates_at(node: &Node, index: usize) -> bool
    ensures { result ≡ terminates_at index node.now }
{
    match node.children.get(index) {
        Some(child) => terminates(child),
        None => false,
    }
}

/// Whether one of the children ends what runs.
#[cycle(terminating)]
#[tactic(auto, using(crate::proofs::Terminating::terminating))]
fn any_terminates(node: &Node) -> bool
    ensures { result ≡ list_any (λ b. b) (map terminates (out-Node node.now).children) }
{
    for child in node.children.as_slice() {
        if terminates(child) {
            return true;
        }
    }
    false
}

/// Whether control leaves a statement only by a jump: it is `break`, `continue`, `throw` or `return`, a block with a
/// statement that is so, or an `if` both of whose branches are.
#[cycle(terminating)]
#[tactic(auto, using(crate::proofs::Terminating::terminating), unfolding(crate::specs::Statements::terminates_by))]
pub(crate) fn terminates(stmt: &Stmt) -> bool
    ensures { result ≡ terminates stmt.now }
{
    match &stmt.kind {
        Kind::BreakStmt | Kind::ContinueStmt | Kind::ThrowStmt | Kind::ReturnStmt => true,
        Kind::BlockStmt => terminates_at(stmt, 0),
        Kind::List => any_terminates(stmt),
        Kind::IfStmt => terminates_at(stmt, 1) && terminates_at(stmt, 2),
        _ => false,
    }
}
