//! The renamers, which no call changes. The only refusal of their calls is want of memory, which leaves the tree half done.
ghost use Rattle.std.specs.Prelude.{◌≡◌, OnOk};
ghost use Rattle.std.specs.HashMap.{get};
ghost use Rattle.ecma_renamers.specs.Renamers.{context_renaming, id_renaming, ident_replacing, same_id};
ghost use Rattle.ecma_renamers.specs.Renaming.{renamed};

use crate::rule::Rule;
use crate::spot::Spot;
use crate::walk::rename;
use ecma_tree::{Expr, Id, Ident, Module, NoMemory, Pat, Stmt, SyntaxContext};
use std::alloc::Global;
use std::collections::HashMap;

/// Gives identifiers outside types other contexts by their ids, and changes nothing else.
#[derive(Drop)]
pub struct Remapper<'a> {
    pub contexts: &'a HashMap<Id, SyntaxContext>,
}

impl<'a> Remapper<'a> {
    /// It takes no memory.
    pub fn new(contexts: &'a HashMap<Id, SyntaxContext>) -> Remapper<'a>
        ensures { result.contexts.now ≡ contexts.now }
    {
        Remapper { contexts }
    }

    pub fn visit_mut_module(&mut self, alloc: Global, tree: &mut Module) -> Result<(), NoMemory>
        ensures tree { OnOk result
            (tree.new ≡ renamed (context_renaming (λ id. get same_id self.old.contexts.now id))
            tree.old) }
        ensures renamer { self.new ≡ self.old }
    {
        rename(alloc, &Rule::Contexts(self.contexts), Spot::Elsewhere, tree)
    }

    pub fn visit_mut_stmt(&mut self, alloc: Global, stmt: &mut Stmt) -> Result<(), NoMemory>
        ensures tree { OnOk result
            (stmt.new ≡ renamed (context_renaming (λ id. get same_id self.old.contexts.now id))
            stmt.old) }
        ensures renamer { self.new ≡ self.old }
    {
        rename(alloc, &Rule::Contexts(self.contexts), Spot::Elsewhere, stmt)
    }

    pub fn visit_mut_expr(&mut self, alloc: Global, expr: &mut Expr) -> Result<(), NoMemory>
        ensures tree { OnOk result
            (expr.new ≡ renamed (context_renaming (λ id. get same_id self.old.contexts.now id))
            expr.old) }
        ensures renamer { self.new ≡ self.old }
    {
        rename(alloc, &Rule::Contexts(self.contexts), Spot::Elsewhere, expr)
    }

    pub fn visit_mut_pat(&mut self, alloc: Global, pat: &mut Pat) -> Result<(), NoMemory>
        ensures tree { OnOk result
            (pat.new ≡ renamed (context_renaming (λ id. get same_id self.old.contexts.now id))
            pat.old) }
        ensures renamer { self.new ≡ self.old }
    {
        rename(alloc, &Rule::Contexts(self.contexts), Spot::Elsewhere, pat)
    }
}

/// Gives identifiers outside types other ids by their ids. A shorthand that gets another becomes a key with its value,
/// and an export specifier keeps the name that others know; other specifiers change in place.
#[derive(Drop)]
pub struct IdentRenamer<'a> {
    pub ids: &'a HashMap<Id, Id>,
}

impl<'a> IdentRenamer<'a> {
    /// It takes no memory.
    pub fn new(ids: &'a HashMap<Id, Id>) -> IdentRenamer<'a>
        ensures { result.ids.now ≡ ids.now }
    {
        IdentRenamer { ids }
    }

    pub fn visit_mut_module(&mut self, alloc: Global, tree: &mut Module) -> Result<(), NoMemory>
        ensures tree { OnOk result
            (tree.new ≡ renamed (id_renaming (λ id. get same_id self.old.ids.now id)) tree.old) }
        ensures renamer { self.new ≡ self.old }
    {
        rename(alloc, &Rule::Ids(self.ids), Spot::Elsewhere, tree)
    }

    pub fn visit_mut_stmt(&mut self, alloc: Global, stmt: &mut Stmt) -> Result<(), NoMemory>
        ensures tree { OnOk result
            (stmt.new ≡ renamed (id_renaming (λ id. get same_id self.old.ids.now id)) stmt.old) }
        ensures renamer { self.new ≡ self.old }
    {
        rename(alloc, &Rule::Ids(self.ids), Spot::Elsewhere, stmt)
    }

    pub fn visit_mut_expr(&mut self, alloc: Global, expr: &mut Expr) -> Result<(), NoMemory>
        ensures tree { OnOk result
            (expr.new ≡ renamed (id_renaming (λ id. get same_id self.old.ids.now id)) expr.old) }
        ensures renamer { self.new ≡ self.old }
    {
        rename(alloc, &Rule::Ids(self.ids), Spot::Elsewhere, expr)
    }

    pub fn visit_mut_pat(&mut self, alloc: Global, pat: &mut Pat) -> Result<(), NoMemory>
        ensures tree { OnOk result
            (pat.new ≡ renamed (id_renaming (λ id. get same_id self.old.ids.now id)) pat.old) }
        ensures renamer { self.new ≡ self.old }
    {
        rename(alloc, &Rule::Ids(self.ids), Spot::Elsewhere, pat)
    }
}

/// Puts an identifier in the place of each outside types that has an id. A shorthand becomes a key with its value;
/// specifiers change in place.
#[derive(Drop)]
pub struct IdentReplacer<'a> {
    pub from: Id,
    pub to: &'a Ident,
}

impl<'a> IdentReplacer<'a> {
    /// It takes no memory.
    pub fn new(from: Id, to: &'a Ident) -> IdentReplacer<'a>
        ensures from { result.from ≡ from }
        ensures to { result.to.now ≡ to.now }
    {
        IdentReplacer { from, to }
    }

    pub fn visit_mut_module(&mut self, alloc: Global, tree: &mut Module) -> Result<(), NoMemory>
        ensures tree { OnOk result
            (tree.new ≡ renamed (ident_replacing self.old.from self.old.to.now) tree.old) }
        ensures renamer { self.new ≡ self.old }
    {
        rename(
            alloc,
            &Rule::One(&self.from, self.to),
            Spot::Elsewhere,
            tree,
        )
    }

    pub fn visit_mut_stmt(&mut self, alloc: Global, stmt: &mut Stmt) -> Result<(), NoMemory>
        ensures tree { OnOk result
            (stmt.new ≡ renamed (ident_replacing self.old.from self.old.to.now) stmt.old) }
        ensures renamer { self.new ≡ self.old }
    {
        rename(
            alloc,
            &Rule::One(&self.from, self.to),
            Spot::Elsewhere,
            stmt,
        )
    }

    pub fn visit_mut_expr(&mut self, alloc: Global, expr: &mut Expr) -> Result<(), NoMemory>
        ensures tree { OnOk result
            (expr.new ≡ renamed (ident_replacing self.old.from self.old.to.now) expr.old) }
        ensures renamer { self.new ≡ self.old }
    {
        rename(
            alloc,
            &Rule::One(&self.from, self.to),
            Spot::Elsewhere,
            expr,
        )
    }

    pub fn visit_mut_pat(&mut self, alloc: Global, pat: &mut Pat) -> Result<(), NoMemory>
        ensures tree { OnOk result
            (pat.new ≡ renamed (ident_replacing self.old.from self.old.to.now) pat.old) }
        ensures renamer { self.new ≡ self.old }
    {
        rename(alloc, &Rule::One(&self.from, self.to), Spot::Elsewhere, pat)
    }
}

/// Puts an identifier in the place of each in an expression, outside types, that has an id, as [`IdentReplacer`] does.
pub fn replace_ident(alloc: Global, expr: &mut Expr, from: Id, to: &Ident) -> Result<(), NoMemory>
    ensures { OnOk result (expr.new ≡ renamed (ident_replacing from to.now) expr.old) }
{
    rename(alloc, &Rule::One(&from, to), Spot::Elsewhere, expr)
}
