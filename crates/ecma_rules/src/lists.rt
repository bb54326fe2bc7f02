//! What stands last in a list, and what a loop declares.
ghost use Rattle.std.specs.Prelude.{◌≡◌, ◌<◌, length};
ghost use Rattle.ecma_tree.specs.declared.node.Node.{out-Node};
ghost use Rattle.ecma_rules.specs.Lists.{is_early_rest, is_head, is_item, is_one_without_value, is_rest, is_rest_pattern, is_wrong_head, last_by, last_in};

use crate::children::{has_child, items_at};
use crate::target::{Target, is_spread, is_variables};
use ecma_tree::{Kind, Node};

/// Whether a node of this kind is a rest parameter, element or property.
pub(crate) fn is_rest_pattern(kind: &Kind) -> bool
    ensures { result ≡ is_rest_pattern kind.now }
{
    matches!(kind, Kind::RestPat)
}

fn is_item(target: Target) -> bool
    ensures { result ≡ is_item target }
{
    matches!(target, Target::Element | Target::Property)
}

fn is_rest(target: Target, kind: &Kind) -> bool
    ensures { result ≡ is_rest target kind.now }
{
    is_rest_pattern(kind) || (is_item(target) && is_spread(kind))
}

/// Whether a node is a rest parameter, element or property that does not stand last.
///
///     function f(a, ...b) { }
///     function f(...a, b) { }   // refused
pub(crate) fn is_early_rest(target: Target, is_last: bool, node: &Node) -> bool
    ensures { result ≡ is_early_rest target is_last node.now }
{
    is_rest(target, &node.kind) && !is_last
}

#[tactic(auto, unfolding(crate::specs::Lists::last_by))]
fn last_by(is_last: bool, kind: &Kind, count: usize, index: usize) -> bool
    requires { index < count }
    ensures { result ≡ last_by is_last kind.now count index }
{
    match kind {
        Kind::List => index + 1 == count,
        Kind::Param => is_last,
        Kind::TsParamProp { .. } => is_last,
        Kind::AssignPat => is_last,
        _ => true,
    }
}

/// Whether the child at an index stands last in its list.
pub(crate) fn last_in(is_last: bool, node: &Node, index: usize) -> bool
    requires { index < length (out-Node node.now).children }
    ensures { result ≡ last_in is_last node.now index }
{
    last_by(is_last, &node.kind, node.children.len(), index)
}

fn is_one_without_value(declarators: &[Node]) -> bool
    ensures { result ≡ is_one_without_value declarators.now }
{
    match declarators {
        [declarator] => !has_child(declarator, 1),
        _ => false,
    }
}

fn is_head(target: Target) -> bool
    ensures { result ≡ is_head target }
{
    matches!(target, Target::Head)
}

/// Whether a node is a declaration before `in` or `of` that has not one declarator, or one with a value.
///
///     for (const [a, b] of c);
///     for (let a, b of c);   // refused
pub(crate) fn is_wrong_head(target: Target, node: &Node) -> bool
    ensures { result ≡ is_wrong_head target node.now }
{
    is_head(target) && is_variables(&node.kind) && !is_one_without_value(items_at(node, 0))
}
