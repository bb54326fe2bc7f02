//! Which expressions stand in parentheses.
ghost use Rattle.std.specs.Prelude.{◌≡◌};
ghost use Rattle.ecma_print.specs.Levels.{level_of, clashes, is_before_dot};

use super::Inside;
use crate::kinds::{is_absent, is_object_pattern};
use crate::operators::binary_level;
use crate::out::Out;
use crate::place::{Beside, Place, Spot};
use crate::precedence;
use ecma_tree::{BinaryOp, Kind, NoMemory, Node};

/// The precedence of an expression.
fn level_of(kind: &Kind) -> u8
    ensures { result ≡ level_of kind.now }
{
    match kind {
        Kind::SeqExpr => precedence::EXPRESSION,
        Kind::AssignExpr { .. } | Kind::ArrowExpr { .. } | Kind::YieldExpr { .. } =>
            precedence::ASSIGNMENT,
        Kind::CondExpr => precedence::CONDITIONAL,
        Kind::BinExpr { op } => binary_level(*op),
        Kind::UnaryExpr { .. } | Kind::AwaitExpr => precedence::UNARY,
        Kind::UpdateExpr { .. } => precedence::UPDATE,
        Kind::CallExpr | Kind::OptChainExpr { .. } => precedence::LEFT_HAND_SIDE,
        _ => precedence::MEMBER,
    }
}

/// `in` would end the first part of the head of a loop; `??` does not go with `||` and `&&`.
fn clashes(op: BinaryOp, spot: Spot, beside: Beside) -> bool
    ensures { result ≡ clashes op spot beside }
{
    match (op, beside) {
        (BinaryOp::In, _) => spot.without_in,
        (BinaryOp::LogicalOr | BinaryOp::LogicalAnd, Beside::UnderNullish) => true,
        (BinaryOp::NullishCoalescing, Beside::UnderLogical) => true,
        _ => false,
    }
}

/// A number before a `.` would take it as its own.
fn is_before_dot(beside: Beside) -> bool
    ensures { result ≡ is_before_dot beside }
{
    matches!(beside, Beside::BeforeDot)
}

impl<'f, 'n, F: Fn(&mut Out, &Node, Place, &[u8]) -> Result<(), NoMemory>> Inside<'f, 'n, F> {
    ghost use Rattle.std.specs.Prelude.{◌≡◌};
    ghost use Rattle.ecma_tree.specs.declared.node.Node.{out-Node};
    ghost use Rattle.ecma_print.specs.Levels.{lacks_arguments, begins_with_brace, is_misread, in_parentheses};
    ghost use Rattle.ecma_print.specs.Layout.{children_of};

    /// `new` without arguments would take those of what stands around.
    #[tactic(auto, using(crate::proofs::Arrays::threes))]
    fn lacks_arguments(&self) -> bool
        ensures { result ≡ lacks_arguments (children_of self.now) }
    {
        let [callee, args, type_args] = self.node.children.as_slice() else {
            return false;
        };
        is_absent(args)
    }

    fn begins_with_brace(&self) -> bool
        ensures { result ≡ begins_with_brace (children_of self.now) }
    {
        let [target, value] = self.node.children.as_slice() else {
            return false;
        };
        is_object_pattern(target)
    }

    /// What would be read as something else, whatever its precedence.
    fn is_misread(&self, spot: Spot) -> bool
        ensures { result ≡ is_misread (out-Node self.now.node.now).kind (children_of self.now) spot }
    {
        match &self.node.kind {
            Kind::BinExpr { op } => clashes(*op, spot, spot.beside),
            Kind::OptChainExpr { .. } => spot.beside.ends_a_chain(),
            Kind::CallExpr => spot.in_callee_of_new,
            Kind::NewExpr => spot.beside.is_headed() && self.lacks_arguments(),
            Kind::Number { .. } => is_before_dot(spot.beside),
            Kind::ObjectLit => spot.begins.opens_a_block(),
            Kind::AssignExpr { .. } => spot.begins.opens_a_block() && self.begins_with_brace(),
            Kind::FnExpr | Kind::ClassExpr => spot.begins.opens_a_declaration(),
            _ => false,
        }
    }

    pub(super) fn in_parentheses(&self, spot: Spot) -> bool
        ensures { result ≡ in_parentheses (out-Node self.now.node.now).kind (children_of self.now) spot }
    {
        level_of(&self.node.kind) < spot.level || self.is_misread(spot)
    }
}
