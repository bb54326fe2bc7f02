//! Finders that go over several parts one after another. A new one has found nothing; a visit adds what the call of the
//! same meaning finds in that part; its result is all that was found.
ghost use Rattle.std.specs.Prelude.{◌≡◌, ◌||◌, ◌++◌, false, [], OnErr, OnOk};
ghost use Rattle.std.specs.Fn.{CalledAt};
ghost use Rattle.std.specs.HashSet.{contains};
ghost use Rattle.std.specs.List.{FoldsTo};
ghost use Rattle.ecma_kind.specs.declared.ident.Ident.{Ident};
ghost use Rattle.ecma_find.specs.declared.finder.Finder.TheVariants as which;
ghost use Rattle.ecma_find.specs.Found.{finds, found, found_as};
ghost use Rattle.ecma_idents.specs.Identities.{plain_ident};
ghost use Rattle.ecma_find.specs.Names.{AddsAll, name_as, name_in};
ghost use Rattle.ecma_tree.specs.declared.node.Node.{Node};

use crate::bindings::call_each;
use crate::decls::insert_names;
use crate::finder::Finder;
use crate::names::push_names;
use crate::search::{
    contains_arguments, contains_ident_ref, contains_this_expr, contains_top_level_await,
    has_rest_pat, uses,
};
use ecma_idents::IdentLike;
use ecma_tree::{Id, Ident, NoMemory, Node, NodeRef, SyntaxContext};
use item_list::ItemList;
use std::alloc::Global;
use std::collections::HashSet;
use std::hash::Hash;

/// Finds `this`, as [`contains_this_expr`] does.
#[derive(Clone, Copy, Debug)]
pub struct ThisVisitor {
    /// Whether one was found.
    pub found: bool,
}

impl ThisVisitor {
    pub fn new() -> ThisVisitor
        ensures { result.found ≡ false }
    {
        ThisVisitor { found: false }
    }

    pub fn visit_node(&mut self, part: NodeRef<'_>)
        ensures { self.new.found ≡ (self.old.found || finds which.This part.entry) }
    {
        self.found = self.found || contains_this_expr(part);
    }

    pub fn result(self) -> bool
        ensures { result ≡ self.found }
    {
        self.found
    }
}

/// Finds `arguments`, as [`contains_arguments`] does.
#[derive(Clone, Copy, Debug)]
pub struct ArgumentsFinder {
    /// Whether one was found.
    pub found: bool,
}

impl ArgumentsFinder {
    pub fn new() -> ArgumentsFinder
        ensures { result.found ≡ false }
    {
        ArgumentsFinder { found: false }
    }

    pub fn visit_node(&mut self, part: NodeRef<'_>)
        ensures { self.new.found ≡ (self.old.found || finds which.Arguments part.entry) }
    {
        self.found = self.found || contains_arguments(part);
    }

    pub fn result(self) -> bool
        ensures { result ≡ self.found }
    {
        self.found
    }
}

/// Finds `await` outside functions, as [`contains_top_level_await`] does.
#[derive(Clone, Copy, Debug)]
pub struct TopLevelAwait {
    /// Whether one was found.
    pub found: bool,
}

impl TopLevelAwait {
    pub fn new() -> TopLevelAwait
        ensures { result.found ≡ false }
    {
        TopLevelAwait { found: false }
    }

    pub fn visit_node(&mut self, part: NodeRef<'_>)
        ensures { self.new.found ≡ (self.old.found || finds which.Await part.entry) }
    {
        self.found = self.found || contains_top_level_await(part);
    }

    pub fn result(self) -> bool
        ensures { result ≡ self.found }
    {
        self.found
    }
}

/// Finds rest patterns, as [`has_rest_pat`] does.
#[derive(Clone, Copy, Debug)]
pub struct RestPatVisitor {
    /// Whether one was found.
    pub found: bool,
}

impl RestPatVisitor {
    pub fn new() -> RestPatVisitor
        ensures { result.found ≡ false }
    {
        RestPatVisitor { found: false }
    }

    pub fn visit_node(&mut self, part: NodeRef<'_>)
        ensures { self.new.found ≡ (self.old.found || finds which.Rest part.entry) }
    {
        self.found = self.found || has_rest_pat(part);
    }

    pub fn result(self) -> bool
        ensures { result ≡ self.found }
    {
        self.found
    }
}

/// Finds expressions that are a name, as [`contains_ident_ref`] does.
#[derive(Clone, Copy)]
pub struct IdentRefFinder<'a> {
    /// What is looked for.
    pub id: &'a Id,
    /// Whether one was found.
    pub found: bool,
}

impl<'a> IdentRefFinder<'a> {
    pub fn new(id: &'a Id) -> IdentRefFinder<'a>
        ensures found { result.found ≡ false }
        ensures id { result.id.now ≡ id.now }
    {
        IdentRefFinder { id, found: false }
    }

    pub fn visit_node(&mut self, part: NodeRef<'_>)
        ensures found { self.new.found
            ≡ (self.old.found || finds (which.Reference self.old.id) part.entry) }
        ensures id { self.new.id ≡ self.old.id }
    {
        self.found = self.found || contains_ident_ref(part, self.id);
    }

    pub fn result(self) -> bool
        ensures { result ≡ self.entry.found }
    {
        self.found
    }
}

/// Finds identifiers of an id, whatever they are there for.
#[derive(Clone, Copy)]
pub struct IdentUsageFinder<'a> {
    /// What is looked for.
    pub id: &'a Id,
    /// Whether one was found.
    pub found: bool,
}

impl<'a> IdentUsageFinder<'a> {
    /// Whether an identifier of this id stands in the part, whatever it is there for. Types are not entered.
    pub fn find(id: &'a Id, part: NodeRef<'_>) -> bool
        ensures { result ≡ finds (which.Usage id.entry) part.entry }
    {
        uses(part, id)
    }

    pub fn new(id: &'a Id) -> IdentUsageFinder<'a>
        ensures found { result.found ≡ false }
        ensures id { result.id.now ≡ id.now }
    {
        IdentUsageFinder { id, found: false }
    }

    pub fn visit_node(&mut self, part: NodeRef<'_>)
        ensures found { self.new.found
            ≡ (self.old.found || finds (which.Usage self.old.id) part.entry) }
        ensures id { self.new.id ≡ self.old.id }
    {
        self.found = self.found || uses(part, self.id);
    }

    pub fn result(self) -> bool
        ensures { result ≡ self.entry.found }
    {
        self.found
    }
}

/// Collects the names that `var` and function declarations declare, as [`extract_var_ids`](crate::extract_var_ids) does.
#[derive(Drop)]
pub struct Hoister {
    alloc: Global,
    /// The names so far.
    pub vars: ItemList<Ident>,
}

impl Hoister {
    pub fn new(alloc: Global) -> Hoister
        ensures { result.vars ≡ [] }
    {
        Hoister {
            alloc,
            vars: ItemList::new(alloc),
        }
    }

    pub fn visit_node(&mut self, part: NodeRef<'_>) -> Result<(), NoMemory>
        ensures { OnOk result (self.new.vars ≡ self.old.vars
            ++ found_as Ident (name_as Ident plain_ident) which.Vars part.entry) }
    {
        push_names::<Ident>(self.alloc, Finder::Vars, part, &mut self.vars)
    }

    pub fn result(self) -> ItemList<Ident>
        ensures { result ≡ self.vars }
    {
        self.vars
    }
}

/// Collects the identifiers of patterns, as [`find_pat_ids`](crate::find_pat_ids) does.
#[derive(Drop)]
pub struct DestructuringFinder<I: IdentLike + Drop> {
    alloc: Global,
    /// What was found so far.
    pub found: ItemList<I>,
}

impl<I: IdentLike + Drop> DestructuringFinder<I> {
    pub fn new(alloc: Global) -> DestructuringFinder<I>
        ensures { result.found ≡ [] }
    {
        DestructuringFinder {
            alloc,
            found: ItemList::new(alloc),
        }
    }

    pub fn visit_node(&mut self, part: NodeRef<'_>) -> Result<(), NoMemory>
        ensures { OnOk result (self.new.found ≡ self.old.found
            ++ found_as I (name_as I I.of_ident) which.Pattern part.entry) }
    {
        push_names::<I>(self.alloc, Finder::Pattern, part, &mut self.found)
    }

    pub fn result(self) -> ItemList<I>
        ensures { result ≡ self.found }
    {
        self.found
    }
}

/// Calls its operation on declared names, as [`for_each_binding_ident`](crate::for_each_binding_ident) does.
#[derive(Drop)]
pub struct BindingIdentifierVisitor<F> {
    /// The operation, in the state that the last call left.
    pub op: F,
}

impl<F: FnMut(&Node)> BindingIdentifierVisitor<F> {
    pub fn new(op: F) -> BindingIdentifierVisitor<F>
        ensures { result.op ≡ op }
    {
        BindingIdentifierVisitor { op }
    }

    pub fn visit_node(&mut self, part: NodeRef<'_>)
        requires { F.IsAlwaysCallable self.old.op }
        ensures ran { FoldsTo (λ p x q. CalledAt F.FnMut p x tt q) self.old.op
            (found which.Bindings part.entry) self.new.op }
        ensures again { F.IsAlwaysCallable self.new.op }
    {
        call_each(part, &mut self.op);
    }
}

impl<F: FnMut(&Node) + Drop> BindingIdentifierVisitor<F> {
    /// Lets the operation go; there is nothing to answer.
    pub fn result(self) {}
}

/// Collects declared names, as [`collect_decls`](crate::collect_decls) does, or as
/// [`collect_decls_with_ctxt`](crate::collect_decls_with_ctxt) where a context is asked for.
#[derive(Drop)]
pub struct BindingCollector<I: IdentLike + Eq + Hash + Drop> {
    alloc: Global,
    /// The context that is asked for, if one is.
    pub only: Option<SyntaxContext>,
    /// The names so far.
    pub bindings: HashSet<I>,
}

impl<I: IdentLike + Eq + Hash + Drop> BindingCollector<I> {
    pub fn new(alloc: Global, only: Option<SyntaxContext>) -> BindingCollector<I>
        ensures none { (item : I) → contains I.eq result.bindings item ≡ false }
        ensures only { result.only ≡ only }
    {
        BindingCollector {
            alloc,
            only,
            bindings: HashSet::new(alloc),
        }
    }

    pub fn visit_node(&mut self, part: NodeRef<'_>) -> Result<(), NoMemory>
        ensures found { OnOk result
            (AddsAll I _ I.eq self.old.bindings self.new.bindings
            (found_as I (name_in I I.of_ident self.old.only) which.Declared part.entry)) }
        ensures only { self.new.only ≡ self.old.only }
    {
        insert_names::<I>(self.alloc, &self.only, part, &mut self.bindings)
    }

    pub fn result(self) -> HashSet<I>
        ensures { result ≡ self.bindings }
    {
        self.bindings
    }
}

/// Collects the identifiers that stand in no expression, function, arrow function or constructor, and are no key. Types are not entered.
#[derive(Drop)]
pub struct VarCollector<'a, I> {
    /// Where they are put, behind what is there.
    pub to: &'a mut ItemList<I>,
}

impl<'a, I: IdentLike + Drop> VarCollector<'a, I> {
    /// Without memory the list is as before.
    pub fn visit_node(&mut self, alloc: Global, part: NodeRef<'_>) -> Result<(), NoMemory>
        ensures found { OnOk result (self.exit.now.to.now
            ≡ self.entry.now.to.now ++ found_as I (name_as I I.of_ident) which.Collected part.entry) }
        ensures refused { OnErr result (self.exit.now.to.now ≡ self.entry.now.to.now) }
    {
        let mut found = ItemList::new(alloc);
        push_names::<I>(alloc, Finder::Collected, part, &mut found)?;
        self.to.append(found)?;
        Ok(())
    }
}
