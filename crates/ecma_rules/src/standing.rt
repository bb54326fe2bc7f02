//! What stands around a node, as far as the rules ask.
ghost use Rattle.std.specs.Prelude.{◌≡◌, ◌<◌, length};
ghost use Rattle.ecma_tree.specs.declared.node.Node.{out-Node};
ghost use Rattle.ecma_rules.specs.Surroundings.{around_in, at_child, at_root, if_there, in_branch, standing_by, standing_in};
ghost use Rattle.ecma_rules.specs.Walks.{unasked};

use crate::children::has_child;
use crate::lists::last_in;
use crate::target::{Target, target_in};
use ecma_tree::{Kind, Node};

/// How a node stands.
#[derive(Clone, Copy, Debug)]
pub enum Standing {
    /// Anyhow.
    Plain,
    /// As the parameters of a constructor with a body, or one of them.
    Declaring,
    /// As the body of an `if`, an `else`, a loop or a label.
    Body,
    /// As the specifiers of an export without a source, one of them, or its local name.
    Exported,
    /// Before a member or the arguments of a call, as `super` may.
    Linked,
}

/// What stands around a node.
#[derive(Clone, Copy, Debug)]
pub struct Around {
    pub target: Target,
    pub standing: Standing,
    /// Whether it stands last in its list.
    pub is_last: bool,
}

fn at_child(wanted: usize, index: usize, standing: Standing) -> Standing
    ensures { result ≡ at_child wanted index standing }
{
    if index == wanted {
        standing
    } else {
        Standing::Plain
    }
}

fn if_there(there: bool, standing: Standing) -> Standing
    ensures { result ≡ if_there there standing }
{
    if there { standing } else { Standing::Plain }
}

fn in_branch(index: usize) -> Standing
    ensures { result ≡ in_branch index }
{
    if index == 0 {
        Standing::Plain
    } else {
        Standing::Body
    }
}

#[tactic(auto, unfolding(crate::specs::Surroundings::standing_by))]
fn standing_in(standing: Standing, node: &Node, index: usize) -> Standing
    ensures { result ≡ standing_in standing node.now index }
{
    match &node.kind {
        Kind::List => standing,
        Kind::SuperPropExpr | Kind::CallExpr => at_child(0, index, Standing::Linked),
        Kind::Constructor { .. } => {
            at_child(1, index, if_there(has_child(node, 2), Standing::Declaring))
        }
        Kind::NamedExport { .. } => {
            at_child(0, index, if_there(!has_child(node, 1), Standing::Exported))
        }
        Kind::ExportNamedSpecifier { .. } => at_child(0, index, standing),
        Kind::IfStmt => in_branch(index),
        Kind::LabeledStmt => at_child(1, index, Standing::Body),
        Kind::WhileStmt => at_child(1, index, Standing::Body),
        Kind::DoWhileStmt => at_child(1, index, Standing::Body),
        Kind::ForStmt => at_child(3, index, Standing::Body),
        Kind::ForInStmt => at_child(2, index, Standing::Body),
        Kind::ForOfStmt { .. } => at_child(2, index, Standing::Body),
        _ => Standing::Plain,
    }
}

/// What stands around the child at an index.
pub fn around_in(around: Around, node: &Node, index: usize) -> Around
    requires { index < length (out-Node node.now).children }
    ensures { result ≡ around_in around node.now index }
{
    Around {
        target: target_in(around.target, &node.kind, index),
        standing: standing_in(around.standing, node, index),
        is_last: last_in(around.is_last, node, index),
    }
}

/// Around a node of which nothing is asked.
pub(crate) fn unasked(is_last: bool) -> Around
    ensures { result ≡ unasked is_last }
{
    Around {
        target: Target::Free,
        standing: Standing::Plain,
        is_last,
    }
}

/// What stands around the root.
pub fn at_root() -> Around
    ensures { result ≡ at_root }
{
    Around {
        target: Target::Free,
        standing: Standing::Plain,
        is_last: true,
    }
}
