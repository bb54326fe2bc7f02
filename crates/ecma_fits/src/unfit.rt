//! Which trees fit, and the least place of a node that does not.
ghost use Rattle.std.specs.Prelude.{◌≡◌, ◌<◌, ◌↔◌, IsTrue, length};
ghost use Rattle.ecma_tree.specs.declared.node.Node.{out-Node};
ghost use Rattle.ecma_fits.specs.Fitting.{Fits, at_top, breaks_rule, first_unfit, first_unfit_in, is_misplaced, is_misshapen, is_unfit, unfit_here, where_in};

use crate::branches::is_dangling;
use crate::chains::is_loose;
use crate::counts::is_short;
use crate::members::is_misread;
use crate::role::{Role, is_out_of_role, is_tagged, role_in};
use crate::strays::{Arguments, arguments_in, is_stray_target, not_held};
use ecma_leaves::is_spelled;
use ecma_rules::{
    Around, around_in, at_root, failing_here, fails_list, fails_member, fails_statement,
    first_stray, least, second_constructor,
};
use ecma_tree::{Module, Node, Sort, has_sort};

/// Where a node stands: what it has to be, and what else stands around it.
#[derive(Clone, Copy, Debug)]
pub struct Where {
    pub role: Role,
    pub around: Around,
    pub arguments: Arguments,
}

/// Whether a node breaks a context rule that reads a finished tree as it reads a raw one.
fn breaks_rule(place: Where, node: &Node) -> bool
    ensures { result ≡ breaks_rule place node.now }
{
    fails_list(place.around, node)
        || fails_member(place.around, node)
        || fails_statement(place.around, node)
}

/// Whether no production gives such a node.
fn is_misshapen(node: &Node) -> bool
    ensures { result ≡ is_misshapen node.now }
{
    is_short(node) || is_dangling(node) || is_loose(node) || is_misread(node)
}

/// Whether a node does not stand where it may.
fn is_misplaced(place: Where, node: &Node) -> bool
    ensures { result ≡ is_misplaced place node.now }
{
    is_out_of_role(place.role, node)
        || is_stray_target(place.role, place.arguments, node)
        || breaks_rule(place, node)
}

/// Whether a node is not what it has to be where it stands.
#[tactic(auto, unfolding(crate::specs::Fitting::is_unfit))]
fn is_unfit(place: Where, node: &Node) -> bool
    ensures { result ≡ is_unfit place node.now }
{
    is_misshapen(node)
        || is_misplaced(place, node)
        || !is_spelled(&node.kind, is_tagged(place.role))
}

/// Its place; or, in a class, that of its second constructor with a body.
fn unfit_here(place: Where, node: &Node) -> Option<u32>
    ensures { result ≡ unfit_here place node.now }
{
    let here = failing_here(is_unfit(place, node), node);
    least(here, second_constructor(node))
}

/// Where the child at an index stands.
fn where_in(place: Where, node: &Node, index: usize) -> Where
    requires { index < length (out-Node node.now).children }
    ensures { result ≡ where_in place node.now index }
{
    Where {
        role: role_in(place.role, &node.kind, index),
        around: around_in(place.around, node, index),
        arguments: arguments_in(place.arguments, &node.kind, index),
    }
}

fn at_top() -> Where
    ensures { result ≡ at_top }
{
    Where {
        role: Role::Free,
        around: at_root(),
        arguments: not_held(),
    }
}

fn first_unfit_in(node: &Node, place: Where) -> Option<u32>
    ensures { result ≡ first_unfit_in node.now place }
{
    let mut found = unfit_here(place, node);
    for i in 0..node.children.len() {
        let below = first_unfit_in(node.children.at(i), where_in(place, node, i));
        found = least(found, below);
    }
    found
}

/// The least place at which a node of a finished tree begins that is not what it has to be where it stands; none exactly where each is.
/// What is asked, docs/FITS.md says.
pub fn first_unfit(tree: &Node) -> Option<u32>
    ensures { result ≡ first_unfit tree.now }
{
    let unfit = first_unfit_in(tree, at_top());
    let stray = first_stray(tree);
    least(unfit, stray)
}

/// Whether a tree fits: it is a module by its sorts, and each node of it is what it has to be where it stands.
#[tactic(auto, using(crate::proofs::Clauses::clauses))]
pub fn fits(tree: &Module) -> bool
    ensures { IsTrue result ↔ Fits tree.now }
{
    has_sort(tree, Sort::Module) && first_unfit(tree).is_none()
}
