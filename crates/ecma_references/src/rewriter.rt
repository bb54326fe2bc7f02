//! The rewriter of references, whose query no call changes.
ghost use Rattle.std.specs.Prelude.{◌≡◌, OnOk};
ghost use Rattle.ecma_references.specs.declared.seat.Seat.TheVariants as seat;
ghost use Rattle.ecma_references.specs.References.{answered};

use crate::query::QueryRef;
use crate::seat::Seat;
use crate::writing::rewrite;
use ecma_tree::{Expr, Module, NoMemory, Pat, Stmt};
use std::alloc::Global;

/// Puts what a query answers in the places of names: where they are read, and where they are written to. A shorthand becomes a key with its
/// value or its pattern. A name that a declarator declares stays, where it is no pattern. A callee or a tag that becomes a member gives no
/// `this`, where the query says so. What is put there is not asked again. Its only refusal is want of memory, which leaves the tree half done.
#[derive(Drop)]
pub struct RefRewriter<T: QueryRef + Drop> {
    pub query: T,
}

impl<T: QueryRef + Drop> RefRewriter<T> {
    pub fn visit_mut_module(&mut self, alloc: Global, tree: &mut Module) -> Result<(), NoMemory>
        ensures tree { OnOk result (tree.new ≡ answered (T.answers self.old.query) seat.Other tree.old) }
        ensures rewriter { self.new ≡ self.old }
    {
        rewrite(alloc, &self.query, Seat::Other, tree)
    }

    pub fn visit_mut_stmt(&mut self, alloc: Global, stmt: &mut Stmt) -> Result<(), NoMemory>
        ensures tree { OnOk result (stmt.new ≡ answered (T.answers self.old.query) seat.Other stmt.old) }
        ensures rewriter { self.new ≡ self.old }
    {
        rewrite(alloc, &self.query, Seat::Other, stmt)
    }

    pub fn visit_mut_expr(&mut self, alloc: Global, expr: &mut Expr) -> Result<(), NoMemory>
        ensures tree { OnOk result (expr.new ≡ answered (T.answers self.old.query) seat.Read expr.old) }
        ensures rewriter { self.new ≡ self.old }
    {
        rewrite(alloc, &self.query, Seat::Read, expr)
    }

    pub fn visit_mut_pat(&mut self, alloc: Global, pat: &mut Pat) -> Result<(), NoMemory>
        ensures tree { OnOk result (pat.new ≡ answered (T.answers self.old.query) seat.Target pat.old) }
        ensures rewriter { self.new ≡ self.old }
    {
        rewrite(alloc, &self.query, Seat::Target, pat)
    }
}
