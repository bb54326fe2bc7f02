//! The names that are declared in a part of a tree, as a set.
ghost use Rattle.std.specs.Prelude.{◌≡◌, IfOk, OnOk, None, Some};
ghost use Rattle.ecma_find.specs.declared.finder.Finder.TheVariants as which;
ghost use Rattle.ecma_find.specs.Finders.{rules_of};
ghost use Rattle.ecma_find.specs.Found.{found_as, taken_here, taken_within};
ghost use Rattle.ecma_find.specs.Names.{AddsAll, HoldsAll, is_asked, name_in};

use crate::finder::{Finder, Place, is_listed, place_at, root_place};
use ecma_idents::IdentLike;
use ecma_tree::{NoMemory, Node, NodeRef, SyntaxContext};
use ecma_walks::nodes;
use std::alloc::Global;
use std::collections::HashSet;
use std::hash::Hash;

/// Whether a context is the one that is asked for, if one is.
fn is_asked(only: &Option<SyntaxContext>, ctxt: SyntaxContext) -> bool
    ensures { result ≡ is_asked only.now ctxt }
{
    match only {
        Some(only) => ctxt == *only,
        None => true,
    }
}

/// Adds what stands for the identifier that a node is, if its context is the one that is asked for.
fn insert_name<I: IdentLike + Eq + Hash + Drop>(
    alloc: Global,
    only: &Option<SyntaxContext>,
    node: &Node,
    set: &mut HashSet<I>,
) -> Result<(), NoMemory>
    ensures { OnOk result (AddsAll I _ I.eq set.old set.new
        (name_in I I.of_ident only.now node.now)) }
{
    if let Some(ident) = node.to_ident()? {
        if is_asked(only, ident.ctxt) {
            set.insert(I::from_ident(alloc, &ident)?)?;
        }
    }
    Ok(())
}

/// Adds what stands for a node, if it declares a name.
fn insert_listed<I: IdentLike + Eq + Hash + Drop>(
    alloc: Global,
    only: &Option<SyntaxContext>,
    place: Place,
    node: &Node,
    set: &mut HashSet<I>,
) -> Result<(), NoMemory>
    ensures { OnOk result (AddsAll I _ I.eq set.old set.new
        (taken_here I (name_in I I.of_ident only.now) (rules_of which.Declared) place node.now)) }
{
    if is_listed(Finder::Declared, place, &node.kind) {
        insert_name::<I>(alloc, only, node, set)?;
    }
    Ok(())
}

/// Adds what stands for the names that are declared in a node; one that stands at no place is not entered.
fn insert_names_in<I: IdentLike + Eq + Hash + Drop>(
    alloc: Global,
    only: &Option<SyntaxContext>,
    around: Option<Place>,
    node: &Node,
    set: &mut HashSet<I>,
) -> Result<(), NoMemory>
    ensures { OnOk result (AddsAll I _ I.eq set.old set.new
        (taken_within I (name_in I I.of_ident only.now)
        (rules_of which.Declared) around node.now)) }
{
    let Some(place) = around else {
        return Ok(());
    };
    insert_listed::<I>(alloc, only, place, node, set)?;
    for i in 0..node.children.len() {
        let below = place_at(Finder::Declared, place, node, i);
        insert_names_in::<I>(alloc, only, below, node.children.at(i), set)?;
    }
    Ok(())
}

/// Adds what stands for the names that are declared in the part.
pub(crate) fn insert_names<I: IdentLike + Eq + Hash + Drop>(
    alloc: Global,
    only: &Option<SyntaxContext>,
    part: NodeRef<'_>,
    set: &mut HashSet<I>,
) -> Result<(), NoMemory>
    ensures { OnOk result (AddsAll I _ I.eq set.old set.new
        (found_as I (name_in I I.of_ident only.now) which.Declared part.entry)) }
{
    let place = root_place(part);
    for node in nodes(part) {
        insert_names_in::<I>(alloc, only, Some(place), node, set)?;
    }
    Ok(())
}

fn declared<I: IdentLike + Eq + Hash + Drop>(
    alloc: Global,
    part: NodeRef<'_>,
    only: Option<SyntaxContext>,
) -> Result<HashSet<I>, NoMemory>
    ensures { IfOk result (λ set. HoldsAll I _ I.eq set
        (found_as I (name_in I I.of_ident only) which.Declared part.entry)) }
{
    let mut set = HashSet::new(alloc);
    insert_names::<I>(alloc, &only, part, &mut set)?;
    Ok(set)
}

/// What stands for the names that are declared in the part, each once: those of declarators, of parameters (but for
/// parameter properties and the parameter of an object's setter), of functions, classes and imports, and of default
/// exports, of a function only with a body. `catch` declares none, and the head of a loop none without `var`, `let` or
/// `const`. Types are not entered. The only refusal is want of memory.
pub fn collect_decls<I: IdentLike + Eq + Hash + Drop>(
    alloc: Global,
    part: NodeRef<'_>,
) -> Result<HashSet<I>, NoMemory>
    ensures { IfOk result (λ set. HoldsAll I _ I.eq set
        (found_as I (name_in I I.of_ident None) which.Declared part.entry)) }
{
    declared(alloc, part, None)
}

/// The same of the names whose identifier has this context.
pub fn collect_decls_with_ctxt<I: IdentLike + Eq + Hash + Drop>(
    alloc: Global,
    part: NodeRef<'_>,
    ctxt: SyntaxContext,
) -> Result<HashSet<I>, NoMemory>
    ensures { IfOk result (λ set. HoldsAll I _ I.eq set
        (found_as I (name_in I I.of_ident (Some ctxt)) which.Declared part.entry)) }
{
    declared(alloc, part, Some(ctxt))
}
