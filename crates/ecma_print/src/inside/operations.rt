//! Expressions with operators.
ghost use Rattle.std.specs.Prelude.{◌≡◌};
ghost use Rattle.ecma_print.specs.Expressions.{yield_word};

use super::Inside;
use crate::operators::{
    assign_word, binary_word, left_level, right_level, unary_sign, unary_word, under, update_sign,
    update_word,
};
use crate::out::Out;
use crate::place::{Beside, Between, Place, Spot};
use crate::precedence;
use ecma_tree::{AssignOp, BinaryOp, Kind, NoMemory, Node, UnaryOp, UpdateOp};

fn yield_word(delegate: bool) -> &'static str
    ensures { result.now ≡ yield_word delegate }
{
    if delegate { "yield*" } else { "yield" }
}

impl<'f, 'n, F: Fn(&mut Out, &Node, Place, &[u8]) -> Result<(), NoMemory>> Inside<'f, 'n, F> {
    ghost use Rattle.std.specs.Prelude.{OnOk};
    ghost use Rattle.ecma_tree.specs.declared.node.Node.{out-Node};
    ghost use Rattle.ecma_print.specs.Expressions.{unary, update, binary, assignment, conditional, sequence, yielding, awaiting, operation};
    ghost use Rattle.ecma_print.specs.Layout.{children_of};
    ghost use Rattle.ecma_print.specs.Writing.{Puts, ShowsChildren};

    /// `-e`, `typeof e`
    fn unary(&self, out: &mut Out, op: UnaryOp, spot: Spot) -> Result<(), NoMemory>
        requires { ShowsChildren F.Fn self.now }
        ensures { OnOk result (Puts out.old out.new self.now.margin.now (unary op (children_of self.now) spot)) }
    {
        let [operand] = self.node.children.as_slice() else {
            return Ok(());
        };
        let sign = unary_sign(op);
        self.say(out, spot.beside.gap(sign))?;
        self.say(out, unary_word(op))?;
        self.child(out, operand, Place::At(spot.right(precedence::UNARY, sign)))
    }

    /// `++e`, `e++`
    fn update(&self, out: &mut Out, op: UpdateOp, prefix: bool, spot: Spot) -> Result<(), NoMemory>
        requires { ShowsChildren F.Fn self.now }
        ensures { OnOk result (Puts out.old out.new self.now.margin.now (update op prefix (children_of self.now) spot)) }
    {
        let [operand] = self.node.children.as_slice() else {
            return Ok(());
        };
        if prefix {
            let sign = update_sign(op);
            self.say(out, spot.beside.gap(sign))?;
            self.say(out, update_word(op))?;
            return self.child(
                out,
                operand,
                Place::At(spot.right(precedence::LEFT_HAND_SIDE, sign)),
            );
        }
        self.child(
            out,
            operand,
            Place::At(spot.left(precedence::LEFT_HAND_SIDE, Beside::NoNeighbor)),
        )?;
        self.say(out, update_word(op))
    }

    /// `a + b`
    fn binary(&self, out: &mut Out, op: BinaryOp, spot: Spot) -> Result<(), NoMemory>
        requires { ShowsChildren F.Fn self.now }
        ensures { OnOk result (Puts out.old out.new self.now.margin.now (binary op (children_of self.now) spot)) }
    {
        let [first, second] = self.node.children.as_slice() else {
            return Ok(());
        };
        let beside = under(op);
        self.child(out, first, Place::At(spot.left(left_level(op), beside)))?;
        self.say(out, binary_word(op))?;
        self.child(out, second, Place::At(spot.right(right_level(op), beside)))
    }

    /// `a = e`
    fn assignment(&self, out: &mut Out, op: AssignOp, spot: Spot) -> Result<(), NoMemory>
        requires { ShowsChildren F.Fn self.now }
        ensures { OnOk result (Puts out.old out.new self.now.margin.now (assignment op (children_of self.now) spot)) }
    {
        let [target, value] = self.node.children.as_slice() else {
            return Ok(());
        };
        self.child(
            out,
            target,
            Place::At(spot.left(precedence::LEFT_HAND_SIDE, Beside::NoNeighbor)),
        )?;
        self.say(out, assign_word(op))?;
        self.child(
            out,
            value,
            Place::At(spot.right(precedence::ASSIGNMENT, Beside::NoNeighbor)),
        )
    }

    /// `test ? first : second`
    #[tactic(auto, using(crate::proofs::Arrays::threes))]
    fn conditional(&self, out: &mut Out, spot: Spot) -> Result<(), NoMemory>
        requires { ShowsChildren F.Fn self.now }
        ensures { OnOk result (Puts out.old out.new self.now.margin.now (conditional (children_of self.now) spot)) }
    {
        let [test, first, second] = self.node.children.as_slice() else {
            return Ok(());
        };
        self.child(
            out,
            test,
            Place::At(spot.left(precedence::SHORT_CIRCUIT, Beside::NoNeighbor)),
        )?;
        self.say(out, " ? ")?;
        self.child(
            out,
            first,
            Place::At(spot.right(precedence::ASSIGNMENT, Beside::NoNeighbor)),
        )?;
        self.say(out, " : ")?;
        self.child(
            out,
            second,
            Place::At(spot.right(precedence::ASSIGNMENT, Beside::NoNeighbor)),
        )
    }

    /// `a, b`
    #[tactic(auto, using(crate::proofs::LaidOut::laying))]
    fn sequence(&self, out: &mut Out, spot: Spot) -> Result<(), NoMemory>
        requires { ShowsChildren F.Fn self.now }
        ensures { OnOk result (Puts out.old out.new self.now.margin.now (sequence (children_of self.now) spot)) }
    {
        let items = self.node.children.as_slice();
        let [first, ..] = items else {
            return Ok(());
        };
        self.child(
            out,
            first,
            Place::At(spot.left(precedence::ASSIGNMENT, Beside::NoNeighbor)),
        )?;
        for i in 1..items.len() {
            self.say(out, ", ")?;
            self.child(
                out,
                &items[i],
                Place::At(spot.right(precedence::ASSIGNMENT, Beside::NoNeighbor)),
            )?;
        }
        Ok(())
    }

    /// `yield e`
    fn yielding(&self, out: &mut Out, delegate: bool, spot: Spot) -> Result<(), NoMemory>
        requires { ShowsChildren F.Fn self.now }
        ensures { OnOk result (Puts out.old out.new self.now.margin.now (yielding delegate (children_of self.now) spot)) }
    {
        let [argument] = self.node.children.as_slice() else {
            return Ok(());
        };
        self.say(out, yield_word(delegate))?;
        let inner = spot.right(precedence::ASSIGNMENT, Beside::NoNeighbor);
        self.child(out, argument, Place::Within(Between::Blank, inner))
    }

    /// `await e`
    fn awaiting(&self, out: &mut Out, spot: Spot) -> Result<(), NoMemory>
        requires { ShowsChildren F.Fn self.now }
        ensures { OnOk result (Puts out.old out.new self.now.margin.now (awaiting (children_of self.now) spot)) }
    {
        let [operand] = self.node.children.as_slice() else {
            return Ok(());
        };
        self.say(out, "await ")?;
        self.child(
            out,
            operand,
            Place::At(spot.right(precedence::UNARY, Beside::NoNeighbor)),
        )
    }

    /// An expression with operators.
    pub(super) fn operation(&self, out: &mut Out, spot: Spot) -> Result<(), NoMemory>
        requires { ShowsChildren F.Fn self.now }
        ensures { OnOk result (Puts out.old out.new self.now.margin.now (operation (out-Node self.now.node.now).kind (children_of self.now) spot)) }
    {
        match &self.node.kind {
            Kind::UnaryExpr { op } => self.unary(out, *op, spot),
            Kind::UpdateExpr { op, prefix } => self.update(out, *op, *prefix, spot),
            Kind::BinExpr { op } => self.binary(out, *op, spot),
            Kind::AssignExpr { op } => self.assignment(out, *op, spot),
            Kind::CondExpr => self.conditional(out, spot),
            Kind::SeqExpr => self.sequence(out, spot),
            Kind::YieldExpr { delegate } => self.yielding(out, *delegate, spot),
            Kind::AwaitExpr => self.awaiting(out, spot),
            _ => Ok(()),
        }
    }
}
