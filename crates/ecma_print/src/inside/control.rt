//! Choices, loops and `try`.
ghost use Rattle.std.specs.Prelude.{◌≡◌};
ghost use Rattle.ecma_print.specs.Statements.{head, else_behind, case_word, for_word};

use super::Inside;
use super::statements::{behind, whole_place};
use crate::kinds::{is_absent, is_block};
use crate::out::Out;
use crate::place::{Begins, Between, Place, Spot};
use crate::precedence;
use ecma_tree::{Kind, NoMemory, Node};

/// The first part of the head of a loop.
fn head() -> Place
    ensures { result ≡ head }
{
    Place::At(Spot::beginning(precedence::EXPRESSION, Begins::Anywhere, true))
}

/// `else` stands on the line of `}`, or on a line of its own.
fn else_behind(is_block: bool) -> Between
    ensures { result ≡ else_behind is_block }
{
    if is_block {
        Between::Else
    } else {
        Between::LineElse
    }
}

fn case_word(is_default: bool) -> &'static str
    ensures { result.now ≡ case_word is_default }
{
    if is_default { "default" } else { "case " }
}

fn for_word(is_await: bool) -> &'static str
    ensures { result.now ≡ for_word is_await }
{
    if is_await { "for await (" } else { "for (" }
}

impl<'f, 'n, F: Fn(&mut Out, &Node, Place, &[u8]) -> Result<(), NoMemory>> Inside<'f, 'n, F> {
    ghost use Rattle.std.specs.Prelude.{OnOk};
    ghost use Rattle.ecma_tree.specs.declared.node.Node.{out-Node};
    ghost use Rattle.ecma_print.specs.Statements.{if_statement, switch_statement, switch_case, try_statement, catch_clause, while_statement, behind_body, do_statement, for_statement, for_in, for_of, control};
    ghost use Rattle.ecma_print.specs.Layout.{children_of};
    ghost use Rattle.ecma_print.specs.Writing.{Puts, ShowsChildren};

    /// `if`
    #[tactic(auto, using(crate::proofs::Arrays::threes))]
    fn if_statement(&self, out: &mut Out) -> Result<(), NoMemory>
        requires { ShowsChildren F.Fn self.now }
        ensures { OnOk result (Puts out.old out.new self.now.margin.now (if_statement (children_of self.now))) }
    {
        let [test, body, alternative] = self.node.children.as_slice() else {
            return Ok(());
        };
        let between = else_behind(is_block(body));
        self.say(out, "if (")?;
        self.child(out, test, whole_place())?;
        self.say(out, ")")?;
        self.child(out, body, behind())?;
        self.child(out, alternative, Place::Within(between, Spot::alone()))
    }

    /// `switch`
    fn switch_statement(&self, out: &mut Out) -> Result<(), NoMemory>
        requires { ShowsChildren F.Fn self.now }
        ensures { OnOk result (Puts out.old out.new self.now.margin.now (switch_statement (children_of self.now))) }
    {
        let [discriminant, cases] = self.node.children.as_slice() else {
            return Ok(());
        };
        self.say(out, "switch (")?;
        self.child(out, discriminant, whole_place())?;
        self.say(out, ") ")?;
        self.child(out, cases, Place::Block)
    }

    /// `case e:` or `default:`, and its statements.
    fn switch_case(&self, out: &mut Out) -> Result<(), NoMemory>
        requires { ShowsChildren F.Fn self.now }
        ensures { OnOk result (Puts out.old out.new self.now.margin.now (switch_case (children_of self.now))) }
    {
        let [test, statements] = self.node.children.as_slice() else {
            return Ok(());
        };
        self.say(out, case_word(is_absent(test)))?;
        self.child(out, test, whole_place())?;
        self.say(out, ":")?;
        self.child(out, statements, Place::Deeper)
    }

    /// `try`
    #[tactic(auto, using(crate::proofs::Arrays::threes))]
    fn try_statement(&self, out: &mut Out) -> Result<(), NoMemory>
        requires { ShowsChildren F.Fn self.now }
        ensures { OnOk result (Puts out.old out.new self.now.margin.now (try_statement (children_of self.now))) }
    {
        let [body, handler, finalizer] = self.node.children.as_slice() else {
            return Ok(());
        };
        self.say(out, "try ")?;
        self.child(out, body, whole_place())?;
        self.child(out, handler, behind())?;
        self.child(
            out,
            finalizer,
            Place::Within(Between::Finally, Spot::alone()),
        )
    }

    /// `catch`
    fn catch_clause(&self, out: &mut Out) -> Result<(), NoMemory>
        requires { ShowsChildren F.Fn self.now }
        ensures { OnOk result (Puts out.old out.new self.now.margin.now (catch_clause (children_of self.now))) }
    {
        let [param, body] = self.node.children.as_slice() else {
            return Ok(());
        };
        self.say(out, "catch")?;
        self.child(
            out,
            param,
            Place::Within(Between::Parentheses, Spot::free(precedence::ASSIGNMENT)),
        )?;
        self.child(out, body, behind())
    }

    /// `while`
    fn while_statement(&self, out: &mut Out) -> Result<(), NoMemory>
        requires { ShowsChildren F.Fn self.now }
        ensures { OnOk result (Puts out.old out.new self.now.margin.now (while_statement (children_of self.now))) }
    {
        let [test, body] = self.node.children.as_slice() else {
            return Ok(());
        };
        self.say(out, "while (")?;
        self.child(out, test, whole_place())?;
        self.say(out, ")")?;
        self.child(out, body, behind())
    }

    /// `while` stands on the line of `}`, or on a line of its own.
    fn behind_body(&self, out: &mut Out, is_block: bool) -> Result<(), NoMemory>
        ensures { OnOk result (Puts out.old out.new self.now.margin.now (behind_body is_block)) }
    {
        if is_block {
            self.say(out, " ")
        } else {
            self.new_line(out)
        }
    }

    /// `do`
    fn do_statement(&self, out: &mut Out) -> Result<(), NoMemory>
        requires { ShowsChildren F.Fn self.now }
        ensures { OnOk result (Puts out.old out.new self.now.margin.now (do_statement (children_of self.now))) }
    {
        let [test, body] = self.node.children.as_slice() else {
            return Ok(());
        };
        self.say(out, "do")?;
        self.child(out, body, behind())?;
        self.behind_body(out, is_block(body))?;
        self.say(out, "while (")?;
        self.child(out, test, whole_place())?;
        self.say(out, ");")
    }

    /// `for` with three parts.
    #[tactic(auto, using(crate::proofs::Arrays::fours))]
    fn for_statement(&self, out: &mut Out) -> Result<(), NoMemory>
        requires { ShowsChildren F.Fn self.now }
        ensures { OnOk result (Puts out.old out.new self.now.margin.now (for_statement (children_of self.now))) }
    {
        let [init, test, update, body] = self.node.children.as_slice() else {
            return Ok(());
        };
        self.say(out, "for (")?;
        self.child(out, init, head())?;
        self.say(out, ";")?;
        self.child(out, test, behind())?;
        self.say(out, ";")?;
        self.child(out, update, behind())?;
        self.say(out, ")")?;
        self.child(out, body, behind())
    }

    /// `for` over keys.
    #[tactic(auto, using(crate::proofs::Arrays::threes))]
    fn for_in(&self, out: &mut Out) -> Result<(), NoMemory>
        requires { ShowsChildren F.Fn self.now }
        ensures { OnOk result (Puts out.old out.new self.now.margin.now (for_in (children_of self.now))) }
    {
        let [target, object, body] = self.node.children.as_slice() else {
            return Ok(());
        };
        self.say(out, "for (")?;
        self.child(out, target, head())?;
        self.say(out, " in ")?;
        self.child(out, object, whole_place())?;
        self.say(out, ")")?;
        self.child(out, body, behind())
    }

    /// `for` over an iterator.
    #[tactic(auto, using(crate::proofs::Arrays::threes))]
    fn for_of(&self, out: &mut Out, is_await: bool) -> Result<(), NoMemory>
        requires { ShowsChildren F.Fn self.now }
        ensures { OnOk result (Puts out.old out.new self.now.margin.now (for_of is_await (children_of self.now))) }
    {
        let [target, iterable, body] = self.node.children.as_slice() else {
            return Ok(());
        };
        self.say(out, for_word(is_await))?;
        self.child(out, target, head())?;
        self.say(out, " of ")?;
        self.child(out, iterable, Place::At(Spot::free(precedence::ASSIGNMENT)))?;
        self.say(out, ")")?;
        self.child(out, body, behind())
    }

    /// Choices, loops and `try`.
    pub(super) fn control(&self, out: &mut Out) -> Result<(), NoMemory>
        requires { ShowsChildren F.Fn self.now }
        ensures { OnOk result (Puts out.old out.new self.now.margin.now (control (out-Node self.now.node.now).kind (children_of self.now))) }
    {
        match &self.node.kind {
            Kind::IfStmt => self.if_statement(out),
            Kind::SwitchStmt => self.switch_statement(out),
            Kind::SwitchCase => self.switch_case(out),
            Kind::TryStmt => self.try_statement(out),
            Kind::CatchClause => self.catch_clause(out),
            Kind::WhileStmt => self.while_statement(out),
            Kind::DoWhileStmt => self.do_statement(out),
            Kind::ForStmt => self.for_statement(out),
            Kind::ForInStmt => self.for_in(out),
            Kind::ForOfStmt { is_await } => self.for_of(out, *is_await),
            _ => Ok(()),
        }
    }
}
