//! What is asked of a statement, and of statements behind one another.
ghost use Rattle.std.specs.Prelude.{◌≡◌, Bool, List, IfOk, [], ◌∷◌};
ghost use Rattle.std.specs.List.{list_any};
ghost use Rattle.ecma_kind.specs.declared.ident.Ident.{Ident};
ghost use Rattle.ecma_find.specs.Statements.{terminates};
ghost use Rattle.ecma_find.specs.Vars.{var_ids_among, var_of};

use crate::names::extract_var_ids;
use crate::statements;
use crate::vars::vars_of;
use ecma_tree::{Ident, NoMemory, Node, NodeRef, Nodes};
use item_list::ItemList;
use std::alloc::Global;

/// Statements: one, or several behind one another.
pub trait StmtExt {
    ghost var_ids: { Self → List Ident };

    ghost ends: { Self → Bool };

    /// The names that `var` declares and those of function declarations, in the order of the text. Functions, classes,
    /// arrow functions, expressions and types are not entered.
    fn extract_var_ids(&self, alloc: Global) -> Result<ItemList<Ident>, NoMemory>
        ensures { IfOk result (λ ids. ids ≡ var_ids self.now) };

    /// These names as what one `var` declares, without values; `None` exactly where there are none.
    fn extract_var_ids_as_var(&self, alloc: Global) -> Result<Option<Node>, NoMemory>
        ensures { IfOk result (λ var. var ≡ var_of (var_ids self.now)) };

    /// Whether control leaves it only by a jump: a statement that is `break`, `continue`, `throw` or `return`, a block
    /// with a statement that is so, an `if` both of whose branches are, or statements of which one is.
    fn terminates(&self) -> bool
        ensures { result ≡ ends self.now };
}

impl StmtExt for Node {
    ghost var_ids = { λ stmt. var_ids_among (stmt ∷ []) };

    ghost ends = { terminates };

    fn extract_var_ids(&self, alloc: Global) -> Result<ItemList<Ident>, NoMemory> {
        extract_var_ids(alloc, NodeRef::Stmt(self))
    }

    fn extract_var_ids_as_var(&self, alloc: Global) -> Result<Option<Node>, NoMemory> {
        vars_of(alloc, NodeRef::Stmt(self))
    }

    fn terminates(&self) -> bool {
        statements::terminates(self)
    }
}

impl StmtExt for Nodes {
    ghost var_ids = { var_ids_among };

    ghost ends = { λ stmts. list_any terminates stmts };

    fn extract_var_ids(&self, alloc: Global) -> Result<ItemList<Ident>, NoMemory> {
        extract_var_ids(alloc, NodeRef::Stmts(self.as_slice()))
    }

    fn extract_var_ids_as_var(&self, alloc: Global) -> Result<Option<Node>, NoMemory> {
        vars_of(alloc, NodeRef::Stmts(self.as_slice()))
    }

    fn terminates(&self) -> bool {
        for stmt in self.as_slice() {
            if statements::terminates(stmt) {
                return true;
            }
        }
        false
    }
}
