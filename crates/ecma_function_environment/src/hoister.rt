//! Names in the places of what a function takes of its surroundings.
ghost use Rattle.std.specs.Prelude.{true, false, ◌≡◌, ◌+◌, ◌++◌, ◌<◌, ◌∷◌, [], Err, IfOk, OnOk, map};
ghost use Rattle.ecma_kind.specs.declared.error.PassError.TheVariants as pass_error;
ghost use Rattle.ecma_scope.specs.Drawing.{HasGivenAtMost};
ghost use Rattle.ecma_function_environment.specs.declared.seat.Seat.TheVariants as seat;
ghost use Rattle.ecma_function_environment.specs.Declaring.{declared, declared_draws, var_by};
ghost use Rattle.ecma_function_environment.specs.Hoisters.{this_name};
ghost use Rattle.ecma_function_environment.specs.Hoisting.{hoisted_one, needs_in, needs_of};
ghost use Rattle.ecma_function_environment.specs.Needs.{draws_for, named};

use crate::declaring::{declared, var_by};
use crate::hoisting::{Flags, hoist, push_needs};
use crate::need::{Names, Need, copy_need, ident_of_need};
use crate::seat::Seat;
use ecma_function_parts::first_or_absent;
use ecma_tree::{Expr, Ident, NoMemory, Node, Nodes, PassError, Pat, Session, Stmt, SyntaxContext};
use indexmap::IndexMap;
use item_list::ItemList;
use std::alloc::Global;
use std::marker::Model;
use std::mem;

/// Puts names in the places of `this`, `arguments`, `new.target` and members of `super`, and declares them.
///
/// It enters arrow functions, but no function and no class, and of getters, setters and methods of objects only their keys. What is disabled stays as it is.
/// `arguments` counts where it is an expression, in the given context or in none. Each name is drawn once, where it is first needed.
#[derive(Drop)]
pub struct FnEnvHoister {
    alloc: Global,
    flags: Flags,
    names: Names,
}

/// Draws a context for a need that has no name yet.
#[tactic(auto, using(crate::proofs::Naming::naming))]
fn name_need(session: &mut Session, names: &mut Names, need: &Need) -> Result<(), PassError>
    ensures names { OnOk result (names.new.entries ≡ named (need.now ∷ []) session.old.left names.old.entries) }
    ensures left { OnOk result (session.new.left + draws_for (need.now ∷ []) session.old.left names.old.entries ≡ session.old.left) }
    ensures spent { result ≡ Err pass_error.Spent → session.old.left < draws_for (need.now ∷ []) session.old.left names.old.entries }
    ensures session { HasGivenAtMost (draws_for (need.now ∷ []) session.old.left names.old.entries) session.old session.new }
{
    if names.contains_key(need) {
        return Ok(());
    }
    let mark = session.fresh_mark()?;
    names.insert(copy_need(need)?, SyntaxContext::empty().apply_mark(mark))?;
    Ok(())
}

/// Draws a context for each need that has no name yet.
fn name_needs(
    session: &mut Session,
    names: &mut Names,
    needs: &ItemList<Need>,
) -> Result<(), PassError>
    ensures names { OnOk result (names.new.entries ≡ named needs.now session.old.left names.old.entries) }
    ensures left { OnOk result (session.new.left + draws_for needs.now session.old.left names.old.entries ≡ session.old.left) }
    ensures spent { result ≡ Err pass_error.Spent → session.old.left < draws_for needs.now session.old.left names.old.entries }
    ensures session { HasGivenAtMost (draws_for needs.now session.old.left names.old.entries) session.old session.new }
{
    for i in 0..needs.len() {
        name_need(session, names, needs.at(i))?;
    }
    Ok(())
}

/// Puts what several trees need behind the others.
#[tactic(auto, using(crate::proofs::Hoisted::needing))]
fn push_all_needs(
    flags: &Flags,
    seat: Seat,
    nodes: &[Node],
    to: &mut ItemList<Need>,
) -> Result<(), NoMemory>
    ensures { OnOk result (to.new ≡ to.old ++ needs_of flags.now seat nodes.now) }
{
    for i in 0..nodes.len() {
        push_needs(flags, seat, &nodes[i], to)?;
    }
    Ok(())
}

fn hoisted_one(
    alloc: Global,
    flags: &Flags,
    names: &Names,
    seat: Seat,
    node: Node,
) -> Result<Node, NoMemory>
    ensures { IfOk result (λ new. new ≡ hoisted_one flags.now names.now.entries seat node) }
{
    Ok(first_or_absent(alloc, hoist(alloc, flags, names, seat, node)?))
}

/// Statements with names in the places of what they need.
fn hoist_all(
    alloc: Global,
    flags: &Flags,
    names: &Names,
    stmts: &mut Vec<Stmt>,
) -> Result<(), NoMemory>
    ensures { OnOk result (stmts.new.items ≡ map (hoisted_one flags.now names.now.entries seat.Other) stmts.old.items) }
{
    for i in 0..stmts.len() {
        let stmt = mem::replace(&mut stmts[i], Node::absent(alloc));
        stmts[i] = hoisted_one(alloc, flags, names, Seat::Other, stmt)?;
    }
    Ok(())
}

/// The name of `this`, if there is one.
fn this_name(alloc: Global, names: &Names) -> Result<Option<Ident>, NoMemory>
    ensures { IfOk result (λ name. name ≡ this_name names.now.entries) }
{
    match names.get(&Need::This) {
        Some(ctxt) => Ok(Some(ident_of_need(alloc, &Need::This, *ctxt)?)),
        None => Ok(None),
    }
}

impl Model for FnEnvHoister {
    ghost use Rattle.ecma_function_environment.specs.Hoisters.{Hoister};

    ghost Value = { Hoister };

    ghost view = { λ hoister. record { flags = hoister.flags; names = hoister.names.entries } };
}

impl FnEnvHoister {
    ghost use Rattle.ecma_function_environment.specs.Hoisters.{new_hoister, this_name, with_flags, with_needs};

    /// A hoister that has no names yet. The context is that of free names.
    pub fn new(alloc: Global, unresolved_ctxt: SyntaxContext) -> FnEnvHoister
        ensures { result ≡ new_hoister unresolved_ctxt }
    {
        FnEnvHoister {
            alloc,
            flags: Flags {
                unresolved: unresolved_ctxt,
                arguments_disabled: false,
                this_disabled: false,
                super_disabled: false,
            },
            names: IndexMap::new(alloc),
        }
    }

    /// Leaves `arguments` as it is.
    pub fn disable_arguments(&mut self)
        ensures { self.new ≡ with_flags (record (self.old.flags) { arguments_disabled = true }) self.old }
    {
        self.flags.arguments_disabled = true;
    }

    /// Leaves `this` as it is; it is then the receiver of members of `super` that are called.
    pub fn disable_this(&mut self)
        ensures { self.new ≡ with_flags (record (self.old.flags) { this_disabled = true }) self.old }
    {
        self.flags.this_disabled = true;
    }

    /// Leaves members of `super` as they are.
    pub fn disable_super(&mut self)
        ensures { self.new ≡ with_flags (record (self.old.flags) { super_disabled = true }) self.old }
    {
        self.flags.super_disabled = true;
    }

    /// Hands out what was collected, with what is disabled, and leaves a new hoister of the same context.
    pub fn take(&mut self) -> FnEnvHoister
        ensures taken { result ≡ self.old }
        ensures rest { self.new ≡ new_hoister self.old.flags.unresolved }
    {
        let new = FnEnvHoister::new(self.alloc, self.flags.unresolved);
        mem::replace(self, new)
    }

    /// Hoists what a tree needs.
    fn visit(&mut self, session: &mut Session, seat: Seat, node: &mut Node) -> Result<(), PassError>
        ensures tree { OnOk result (node.new ≡ hoisted_one self.old.flags self.new.names seat node.old) }
        ensures hoister { OnOk result (self.new ≡ with_needs (needs_in self.old.flags seat node.old) session.old.left self.old) }
        ensures left { OnOk result (session.new.left + draws_for (needs_in self.old.flags seat node.old) session.old.left self.old.names ≡ session.old.left) }
        ensures spent { result ≡ Err pass_error.Spent → session.old.left < draws_for (needs_in self.old.flags seat node.old) session.old.left self.old.names }
        ensures session { HasGivenAtMost (draws_for (needs_in self.old.flags seat node.old) session.old.left self.old.names) session.old session.new }
    {
        let mut needs = ItemList::new(self.alloc);
        push_needs(&self.flags, seat, node, &mut needs)?;
        name_needs(session, &mut self.names, &needs)?;
        let old = mem::replace(node, Node::absent(self.alloc));
        *node = hoisted_one(self.alloc, &self.flags, &self.names, seat, old)?;
        Ok(())
    }

    /// Hoists what an expression needs.
    pub fn visit_mut_expr(
        &mut self,
        session: &mut Session,
        expr: &mut Expr,
    ) -> Result<(), PassError>
        ensures tree { OnOk result (expr.new ≡ hoisted_one self.old.flags self.new.names seat.Read expr.old) }
        ensures hoister { OnOk result (self.new ≡ with_needs (needs_in self.old.flags seat.Read expr.old) session.old.left self.old) }
        ensures left { OnOk result (session.new.left + draws_for (needs_in self.old.flags seat.Read expr.old) session.old.left self.old.names ≡ session.old.left) }
        ensures spent { result ≡ Err pass_error.Spent → session.old.left < draws_for (needs_in self.old.flags seat.Read expr.old) session.old.left self.old.names }
        ensures session { HasGivenAtMost (draws_for (needs_in self.old.flags seat.Read expr.old) session.old.left self.old.names) session.old session.new }
    {
        self.visit(session, Seat::Read, expr)
    }

    /// Hoists what a pattern needs.
    pub fn visit_mut_pat(&mut self, session: &mut Session, pat: &mut Pat) -> Result<(), PassError>
        ensures tree { OnOk result (pat.new ≡ hoisted_one self.old.flags self.new.names seat.Target pat.old) }
        ensures hoister { OnOk result (self.new ≡ with_needs (needs_in self.old.flags seat.Target pat.old) session.old.left self.old) }
        ensures left { OnOk result (session.new.left + draws_for (needs_in self.old.flags seat.Target pat.old) session.old.left self.old.names ≡ session.old.left) }
        ensures spent { result ≡ Err pass_error.Spent → session.old.left < draws_for (needs_in self.old.flags seat.Target pat.old) session.old.left self.old.names }
        ensures session { HasGivenAtMost (draws_for (needs_in self.old.flags seat.Target pat.old) session.old.left self.old.names) session.old session.new }
    {
        self.visit(session, Seat::Target, pat)
    }

    /// Hoists what statements need.
    pub fn visit_mut_stmts(
        &mut self,
        session: &mut Session,
        stmts: &mut Vec<Stmt>,
    ) -> Result<(), PassError>
        ensures trees { OnOk result (stmts.new.items ≡ map (hoisted_one self.old.flags self.new.names seat.Other) stmts.old.items) }
        ensures hoister { OnOk result (self.new ≡ with_needs (needs_of self.old.flags seat.Other stmts.old.items) session.old.left self.old) }
        ensures left { OnOk result (session.new.left + draws_for (needs_of self.old.flags seat.Other stmts.old.items) session.old.left self.old.names ≡ session.old.left) }
        ensures spent { result ≡ Err pass_error.Spent → session.old.left < draws_for (needs_of self.old.flags seat.Other stmts.old.items) session.old.left self.old.names }
        ensures session { HasGivenAtMost (draws_for (needs_of self.old.flags seat.Other stmts.old.items) session.old.left self.old.names) session.old session.new }
    {
        let mut needs = ItemList::new(self.alloc);
        push_all_needs(&self.flags, Seat::Other, stmts.as_slice(), &mut needs)?;
        name_needs(session, &mut self.names, &needs)?;
        Ok(hoist_all(self.alloc, &self.flags, &self.names, stmts)?)
    }

    /// The declarators of the names.
    pub fn to_decl(self, session: &mut Session) -> Result<Nodes, PassError>
        ensures nodes { IfOk result (λ nodes. nodes ≡ declared false self.names session.old.left) }
        ensures left { OnOk result (session.new.left + declared_draws self.names ≡ session.old.left) }
        ensures spent { result ≡ Err pass_error.Spent → session.old.left < declared_draws self.names }
        ensures session { HasGivenAtMost (declared_draws self.names) session.old session.new }
    {
        declared(self.alloc, session, false, &self.names)
    }

    /// The declaration of the names, if there are any.
    pub fn to_stmt(self, session: &mut Session) -> Result<Option<Stmt>, PassError>
        ensures stmt { IfOk result (λ stmt. stmt ≡ var_by (declared false self.names session.old.left)) }
        ensures left { OnOk result (session.new.left + declared_draws self.names ≡ session.old.left) }
        ensures spent { result ≡ Err pass_error.Spent → session.old.left < declared_draws self.names }
        ensures session { HasGivenAtMost (declared_draws self.names) session.old session.new }
    {
        let decls = declared(self.alloc, session, false, &self.names)?;
        Ok(var_by(self.alloc, decls)?)
    }

    /// The declaration of the names in a class that extends another, where `super(..)` sets the name of `this`; and that name, if there is one.
    pub fn to_stmt_in_subclass(
        self,
        session: &mut Session,
    ) -> Result<(Option<Stmt>, Option<Ident>), PassError>
        ensures stmt { IfOk result (λ answer. answer.0 ≡ var_by (declared true self.names session.old.left)) }
        ensures this { IfOk result (λ answer. answer.1 ≡ this_name self.names) }
        ensures left { OnOk result (session.new.left + declared_draws self.names ≡ session.old.left) }
        ensures spent { result ≡ Err pass_error.Spent → session.old.left < declared_draws self.names }
        ensures session { HasGivenAtMost (declared_draws self.names) session.old session.new }
    {
        let decls = declared(self.alloc, session, true, &self.names)?;
        let stmt = var_by(self.alloc, decls)?;
        Ok((stmt, this_name(self.alloc, &self.names)?))
    }
}
