//! The least place at which a rule is broken.
ghost use Rattle.std.specs.Prelude.{◌≡◌, ◌&&◌, not};
ghost use Rattle.ecma_rules.specs.Children.{kind_of};
ghost use Rattle.ecma_rules.specs.Rules.{fails_list, fails_member, fails_statement, fails_super, fails_target, first_broken, is_misplaced, misplaced_here};
ghost use Rattle.ecma_rules.specs.Walks.{first_broken_in, holds_strays, is_watched, stray_if, unasked};

use crate::failing::{failing_here, least};
use crate::jumps::{first_stray, holds_strays};
use crate::lists::{is_early_rest, is_wrong_head, last_in};
use crate::members::{
    is_misfit, is_special_constructor, is_stray_property, misplaces_this, second_constructor,
};
use crate::standing::{Around, Standing, around_in, unasked};
use crate::statements::{is_declared_body, is_quoted_local};
use crate::supers::{is_lone_super, is_private_of_super};
use crate::target::{Target, is_no_target, is_stray_default};
use ecma_tree::{Kind, Node};

fn fails_target(around: Around, node: &Node) -> bool
    ensures { result ≡ fails_target around node.now }
{
    is_no_target(around.target, node) || is_stray_default(around.target, node)
}

/// Whether a node takes the rest of a list and does not stand last, or is a wrong declaration in the head of a loop.
pub fn fails_list(around: Around, node: &Node) -> bool
    ensures { result ≡ fails_list around node.now }
{
    is_wrong_head(around.target, node) || is_early_rest(around.target, around.is_last, node)
}

/// Whether a node is a parameter or a member that may not stand where it does.
pub fn fails_member(around: Around, node: &Node) -> bool
    ensures { result ≡ fails_member around node.now }
{
    is_stray_property(around.standing, node)
        || is_misfit(node)
        || is_special_constructor(node)
        || misplaces_this(node)
}

/// Whether a node is a quoted local name, or a declaration as the body of a statement.
pub fn fails_statement(around: Around, node: &Node) -> bool
    ensures { result ≡ fails_statement around node.now }
{
    is_quoted_local(around.standing, node) || is_declared_body(around.standing, node)
}

fn fails_super(around: Around, node: &Node) -> bool
    ensures { result ≡ fails_super around node.now }
{
    is_lone_super(around.standing, node) || is_private_of_super(node)
}

/// Whether a node is not what it has to be where it stands.
#[tactic(auto, unfolding(crate::specs::Rules::is_misplaced))]
fn is_misplaced(around: Around, node: &Node) -> bool
    ensures { result ≡ is_misplaced around node.now }
{
    fails_target(around, node)
        || fails_list(around, node)
        || fails_member(around, node)
        || fails_statement(around, node)
        || fails_super(around, node)
}

/// Its place; or, in a class, that of its second constructor with a body.
fn misplaced_here(around: Around, node: &Node) -> Option<u32>
    ensures { result ≡ misplaced_here around node.now }
{
    let place = failing_here(is_misplaced(around, node), node);
    least(place, second_constructor(node))
}

/// Whether a node of this kind may break a rule where nothing is asked of it, asks something of its children, or holds strays.
#[tactic(auto, unfolding(crate::specs::Walks::is_watched))]
fn is_watched(kind: &Kind) -> bool
    ensures { result ≡ is_watched kind.now }
{
    matches!(
        kind,
        Kind::AssignProp
            | Kind::RestPat
            | Kind::TsParamProp { .. }
            | Kind::AssignPat
            | Kind::GetterProp
            | Kind::SetterProp
            | Kind::MethodProp
            | Kind::ClassMethod { .. }
            | Kind::PrivateMethod { .. }
            | Kind::Function { .. }
            | Kind::ArrowExpr { .. }
            | Kind::Constructor { .. }
            | Kind::Super
            | Kind::SuperPropExpr
            | Kind::Class { .. }
            | Kind::AssignExpr { .. }
            | Kind::UpdateExpr { .. }
            | Kind::CallExpr
            | Kind::NamedExport { .. }
            | Kind::IfStmt
            | Kind::LabeledStmt
            | Kind::WhileStmt
            | Kind::DoWhileStmt
            | Kind::ForStmt
            | Kind::ForInStmt
            | Kind::ForOfStmt { .. }
            | Kind::TsEnumMember
            | Kind::TsModuleBlock
    )
}

/// The least place of a stray in a node that holds strays, where those are looked for.
fn stray_in_holder(with_strays: bool, node: &Node) -> Option<u32>
    ensures { result ≡ stray_if (with_strays && holds_strays (kind_of node.now)) node.now }
{
    if with_strays && holds_strays(&node.kind) {
        first_stray(node)
    } else {
        None
    }
}

/// Whether strays are still to be looked for in the children of a node of this kind.
fn seeks_strays_below(with_strays: bool, kind: &Kind) -> bool
    ensures { result ≡ with_strays && not (holds_strays kind.now) }
{
    with_strays && !holds_strays(kind)
}

/// The least place at which a node in a tree begins that is not what it has to be where it stands, or that is a stray, where
/// strays are looked for. Where a node holds strays, they are looked for from there, and no more in its children.
#[cycle(breaking)]
fn first_broken_in(node: &Node, around: Around, with_strays: bool) -> Option<u32>
    ensures { result ≡ first_broken_in with_strays node.now around }
{
    let misplaced = misplaced_here(around, node);
    let stray = stray_in_holder(with_strays, node);
    let mut found = least(misplaced, stray);
    let strays_below = seeks_strays_below(with_strays, &node.kind);
    for i in 0..node.children.len() {
        let inside = around_in(around, node, i);
        let below = first_broken_around(node.children.at(i), inside, strays_below);
        found = least(found, below);
    }
    found
}

/// The same, found faster where nothing is asked of the tree.
#[cycle(breaking)]
fn first_broken_around(node: &Node, around: Around, with_strays: bool) -> Option<u32>
    ensures { result ≡ first_broken_in with_strays node.now around }
{
    match around {
        Around {
            target: Target::Free,
            standing: Standing::Plain,
            is_last,
        } => first_broken_freely(node, is_last, with_strays),
        _ => first_broken_in(node, around, with_strays),
    }
}

/// The same in a tree of which nothing is asked.
#[cycle(breaking)]
fn first_broken_freely(node: &Node, is_last: bool, with_strays: bool) -> Option<u32>
    ensures { result ≡ first_broken_in with_strays node.now (unasked is_last) }
{
    if is_watched(&node.kind) {
        return first_broken_in(node, unasked(is_last), with_strays);
    }
    let mut found = None;
    for i in 0..node.children.len() {
        let last = last_in(is_last, node, i);
        let below = first_broken_freely(node.children.at(i), last, with_strays);
        found = least(found, below);
    }
    found
}

/// The least place at which a node begins that breaks a context rule; none exactly where no node does. docs/RULES.md has the
/// rules.
pub fn first_broken(tree: &Node) -> Option<u32>
    ensures { result ≡ first_broken tree.now }
{
    first_broken_freely(tree, true, true)
}
