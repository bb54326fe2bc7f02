//! Whether something is found in a part of a tree.
ghost use Rattle.std.specs.Prelude.{◌≡◌};
ghost use Rattle.ecma_find.specs.declared.finder.Finder.TheVariants as which;
ghost use Rattle.ecma_find.specs.Finders.{rules_of};
ghost use Rattle.ecma_find.specs.Found.{finds, finds_within};

use crate::finder::{Finder, Place, is_listed, place_at, root_place};
use ecma_tree::{Id, Node, NodeRef};
use ecma_walks::nodes;

/// Whether the finder lists a node, or one that is in it, where it stands at that place; none where it is not entered.
fn finds_in(finder: Finder<'_>, around: Option<Place>, node: &Node) -> bool
    ensures { result ≡ finds_within (rules_of finder.entry) around node.now }
{
    let Some(place) = around else {
        return false;
    };
    if is_listed(finder, place, &node.kind) {
        return true;
    }
    for i in 0..node.children.len() {
        if finds_in(
            finder,
            place_at(finder, place, node, i),
            node.children.at(i),
        ) {
            return true;
        }
    }
    false
}

/// Whether the finder lists a node of the part.
pub(crate) fn finds(finder: Finder<'_>, part: NodeRef<'_>) -> bool
    ensures { result ≡ finds finder.entry part.entry }
{
    let place = root_place(part);
    for node in nodes(part) {
        if finds_in(finder, Some(place), node) {
            return true;
        }
    }
    false
}

/// Whether `this` stands in the part, and is what `this` is there: constructors and functions are not entered, of a
/// getter of an object its key alone, and of a setter of an object its key and its parameter. Types are not entered.
pub fn contains_this_expr(part: NodeRef<'_>) -> bool
    ensures { result ≡ finds which.This part.entry }
{
    finds(Finder::This, part)
}

/// Whether an identifier of the text `arguments` stands in the part as an expression or a shorthand, whatever its context. Constructors and
/// functions are not entered, nor are types.
pub fn contains_arguments(part: NodeRef<'_>) -> bool
    ensures { result ≡ finds which.Arguments part.entry }
{
    finds(Finder::Arguments, part)
}

/// Whether an expression in the part is the name of this id. A shorthand, a declared name and a plain name that is
/// assigned to are no expressions. Types are not entered.
pub fn contains_ident_ref(part: NodeRef<'_>, id: &Id) -> bool
    ensures { result ≡ finds (which.Reference id.entry) part.entry }
{
    finds(Finder::Reference(id), part)
}

/// Whether `await` or `for await` stands in the part, outside functions: parameters, functions and arrow functions are
/// not entered, and of the members of classes and the properties of objects the keys in brackets alone. Types are not
/// entered.
pub fn contains_top_level_await(part: NodeRef<'_>) -> bool
    ensures { result ≡ finds which.Await part.entry }
{
    finds(Finder::Await, part)
}

/// Whether a rest pattern stands in the part. Types are not entered.
pub fn has_rest_pat(part: NodeRef<'_>) -> bool
    ensures { result ≡ finds which.Rest part.entry }
{
    finds(Finder::Rest, part)
}

/// Whether an identifier of this id stands in the part, whatever it is there for. Types are not entered.
pub(crate) fn uses(part: NodeRef<'_>, id: &Id) -> bool
    ensures { result ≡ finds (which.Usage id.entry) part.entry }
{
    finds(Finder::Usage(id), part)
}
