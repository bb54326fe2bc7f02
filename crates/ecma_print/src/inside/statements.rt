//! Statements without a choice or a loop, and declarations of variables.
ghost use Rattle.std.specs.Prelude.{◌≡◌};
ghost use Rattle.ecma_print.specs.Statements.{whole_place, behind, keyword, statement_end};

use super::Inside;
use crate::out::Out;
use crate::place::{Begins, Beside, Between, Place, Spot};
use crate::precedence;
use ecma_tree::{Kind, NoMemory, Node, VarDeclKind};

/// An expression of a statement or a head, or a statement in a list.
pub(super) fn whole_place() -> Place
    ensures { result ≡ whole_place }
{
    Place::At(Spot::alone())
}

/// After a blank, if it is there: an expression of a statement, or a body.
pub(super) fn behind() -> Place
    ensures { result ≡ behind }
{
    Place::Within(Between::Blank, Spot::alone())
}

fn keyword(kind: VarDeclKind) -> &'static str
    ensures { result.now ≡ keyword kind }
{
    match kind {
        VarDeclKind::Var => "var",
        VarDeclKind::Let => "let",
        VarDeclKind::Const => "const",
    }
}

/// The end of a statement; in the head of a loop there is none.
fn statement_end(in_head: bool) -> &'static str
    ensures { result.now ≡ statement_end in_head }
{
    if in_head { "" } else { ";" }
}

impl<'f, 'n, F: Fn(&mut Out, &Node, Place, &[u8]) -> Result<(), NoMemory>> Inside<'f, 'n, F> {
    ghost use Rattle.std.specs.Prelude.{OnOk};
    ghost use Rattle.ecma_tree.specs.declared.node.Node.{out-Node};
    ghost use Rattle.ecma_print.specs.Statements.{expression_statement, block_statement, word_statement, labeled, declaration, declarator, statement};
    ghost use Rattle.ecma_print.specs.Layout.{children_of};
    ghost use Rattle.ecma_print.specs.Writing.{Puts, ShowsChildren};

    /// `e;`
    fn expression_statement(&self, out: &mut Out) -> Result<(), NoMemory>
        requires { ShowsChildren F.Fn self.now }
        ensures { OnOk result (Puts out.old out.new self.now.margin.now (expression_statement (children_of self.now))) }
    {
        let [expression] = self.node.children.as_slice() else {
            return Ok(());
        };
        let start = Spot::beginning(precedence::EXPRESSION, Begins::StatementStart, false);
        self.child(out, expression, Place::At(start))?;
        self.say(out, ";")
    }

    /// `{}`
    fn block_statement(&self, out: &mut Out) -> Result<(), NoMemory>
        requires { ShowsChildren F.Fn self.now }
        ensures { OnOk result (Puts out.old out.new self.now.margin.now (block_statement (children_of self.now))) }
    {
        let [statements] = self.node.children.as_slice() else {
            return Ok(());
        };
        self.child(out, statements, Place::Block)
    }

    /// A word, what may stand after it, and the end of the statement.
    fn word_statement(&self, out: &mut Out, word: &str) -> Result<(), NoMemory>
        requires { ShowsChildren F.Fn self.now }
        ensures { OnOk result (Puts out.old out.new self.now.margin.now (word_statement word.now (children_of self.now))) }
    {
        let [argument] = self.node.children.as_slice() else {
            return Ok(());
        };
        self.say(out, word)?;
        self.child(out, argument, behind())?;
        self.say(out, ";")
    }

    /// `label: body`
    fn labeled(&self, out: &mut Out) -> Result<(), NoMemory>
        requires { ShowsChildren F.Fn self.now }
        ensures { OnOk result (Puts out.old out.new self.now.margin.now (labeled (children_of self.now))) }
    {
        let [label, body] = self.node.children.as_slice() else {
            return Ok(());
        };
        self.child(out, label, whole_place())?;
        self.say(out, ": ")?;
        self.child(out, body, whole_place())
    }

    /// `let a = e`
    fn declaration(&self, out: &mut Out, kind: VarDeclKind, spot: Spot) -> Result<(), NoMemory>
        requires { ShowsChildren F.Fn self.now }
        ensures { OnOk result (Puts out.old out.new self.now.margin.now (declaration kind (children_of self.now) spot)) }
    {
        let [declarators] = self.node.children.as_slice() else {
            return Ok(());
        };
        let inner = spot.right(precedence::ASSIGNMENT, Beside::NoNeighbor);
        self.say(out, keyword(kind))?;
        self.say(out, " ")?;
        self.child(out, declarators, Place::Commas(inner))?;
        self.say(out, statement_end(spot.without_in))
    }

    /// `a = e`
    fn declarator(&self, out: &mut Out, spot: Spot) -> Result<(), NoMemory>
        requires { ShowsChildren F.Fn self.now }
        ensures { OnOk result (Puts out.old out.new self.now.margin.now (declarator (children_of self.now) spot)) }
    {
        let [name, init] = self.node.children.as_slice() else {
            return Ok(());
        };
        let inner = spot.right(precedence::ASSIGNMENT, Beside::NoNeighbor);
        self.child(out, name, Place::At(Spot::free(precedence::ASSIGNMENT)))?;
        self.child(out, init, Place::Within(Between::Equals, inner))
    }

    /// Statements without a choice or a loop.
    pub(super) fn statement(&self, out: &mut Out, spot: Spot) -> Result<(), NoMemory>
        requires { ShowsChildren F.Fn self.now }
        ensures { OnOk result (Puts out.old out.new self.now.margin.now (statement (out-Node self.now.node.now).kind (children_of self.now) spot)) }
    {
        match &self.node.kind {
            Kind::ExprStmt => self.expression_statement(out),
            Kind::BlockStmt => self.block_statement(out),
            Kind::EmptyStmt => self.say(out, ";"),
            Kind::DebuggerStmt => self.say(out, "debugger;"),
            Kind::ReturnStmt => self.word_statement(out, "return"),
            Kind::ThrowStmt => self.word_statement(out, "throw"),
            Kind::BreakStmt => self.word_statement(out, "break"),
            Kind::ContinueStmt => self.word_statement(out, "continue"),
            Kind::LabeledStmt => self.labeled(out),
            Kind::VarDecl { kind, .. } => self.declaration(out, *kind, spot),
            Kind::VarDeclarator { .. } => self.declarator(out, spot),
            _ => Ok(()),
        }
    }
}
