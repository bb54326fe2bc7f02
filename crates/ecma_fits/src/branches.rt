//! Which `else` belongs to which `if`.
ghost use Rattle.std.specs.Prelude.{◌≡◌};
ghost use Rattle.ecma_tree.specs.Sorted.{is_absent};
ghost use Rattle.ecma_rules.specs.Children.{child_holds};
ghost use Rattle.ecma_fits.specs.Branches.{is_choice, is_dangling, last_part, takes_else};

use ecma_rules::has_child;
use ecma_tree::{Kind, Node};

fn is_absent(kind: &Kind) -> bool
    ensures { result ≡ is_absent kind.now }
{
    matches!(kind, Kind::Absent)
}

/// Which child a statement ends with, if that is a statement or an alternative.
fn last_part(kind: &Kind) -> Option<usize>
    ensures { result ≡ last_part kind.now }
{
    match kind {
        Kind::IfStmt => Some(2),
        Kind::LabeledStmt => Some(1),
        Kind::WhileStmt => Some(1),
        Kind::ForStmt => Some(3),
        Kind::ForInStmt => Some(2),
        Kind::ForOfStmt { .. } => Some(2),
        _ => None,
    }
}

/// Whether an `else` after a node would be its own.
#[tactic(auto, using(crate::proofs::Taking::taking))]
fn takes_else(node: &Node) -> bool
    ensures { result ≡ takes_else node.now }
{
    if is_absent(&node.kind) {
        return true;
    }
    let Some(index) = last_part(&node.kind) else {
        return false;
    };
    match node.children.get(index) {
        Some(last) => takes_else(last),
        None => false,
    }
}

fn is_choice(kind: &Kind) -> bool
    ensures { result ≡ is_choice kind.now }
{
    matches!(kind, Kind::IfStmt)
}

fn child_takes_else(node: &Node, index: usize) -> bool
    ensures { result ≡ child_holds takes_else node.now index }
{
    match node.children.get(index) {
        Some(child) => takes_else(child),
        None => false,
    }
}

/// Whether a node is an `if` whose `else` would be taken by what stands before that.
pub(crate) fn is_dangling(node: &Node) -> bool
    ensures { result ≡ is_dangling node.now }
{
    is_choice(&node.kind) && has_child(node, 2) && child_takes_else(node, 1)
}
