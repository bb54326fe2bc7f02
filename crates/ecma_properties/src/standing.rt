//! Where a node stands, as far as variables are asked for before the statement that holds it.
ghost use Rattle.std.specs.Prelude.{◌≡◌};
ghost use Rattle.ecma_properties.specs.Standing as table;
ghost use Rattle.ecma_properties.specs.Standing.{is_apart_in};

use crate::supers::goes_at;
use ecma_tree::{Kind, Node};

/// What is around a node.
#[derive(Clone, Copy, Debug)]
pub struct Around {
    /// It goes with the types.
    pub is_gone: bool,
    /// Between it and the nearest list of statements stands what runs at another time than the statement, or more than once.
    pub is_apart: bool,
}

pub(crate) fn at_root() -> Around
    ensures { result ≡ table.at_root }
{
    Around {
        is_gone: false,
        is_apart: false,
    }
}

/// Whether the child at an index of a node of this kind is apart, where the node is or is not.
fn is_apart_in(is_apart: bool, kind: &Kind, index: usize) -> bool
    ensures { result ≡ is_apart_in is_apart kind.now index }
{
    match kind {
        Kind::Module { .. } | Kind::Script { .. } | Kind::BlockStmt | Kind::TsModuleBlock => false,
        Kind::SwitchCase => is_apart && index != 1,
        Kind::Function { .. }
        | Kind::ArrowExpr { .. }
        | Kind::WhileStmt
        | Kind::DoWhileStmt
        | Kind::ForStmt
        | Kind::ForInStmt
        | Kind::ForOfStmt { .. } => true,
        Kind::GetterProp | Kind::SetterProp | Kind::Constructor { .. } => is_apart || index != 0,
        Kind::ClassProp { .. } | Kind::PrivateProp { .. } | Kind::TsEnumMember => {
            is_apart || index == 1
        }
        _ => is_apart,
    }
}

/// What is around the child at an index.
pub(crate) fn around_in(around: Around, node: &Node, index: usize) -> Around
    ensures { result ≡ table.around_in around node.now index }
{
    Around {
        is_gone: around.is_gone || goes_at(node, index),
        is_apart: is_apart_in(around.is_apart, &node.kind, index),
    }
}
