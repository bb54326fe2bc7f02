//! What is assigned to.
ghost use Rattle.std.specs.Prelude.{◌≡◌};
ghost use Rattle.ecma_tree.specs.Sorted.{is_absent};
ghost use Rattle.ecma_rules.specs.Targets.{at_child, in_list, in_literal, in_short_default, in_spread, in_value, is_default, is_key_value, is_literal, is_no_target, is_plain, is_plain_target, is_property, is_short_default, is_simple_target, is_spread, is_stray_default, is_variables, is_wrapper, may_be, on_left, takes_patterns, target_in};

use ecma_tree::{AssignOp, Kind, Node};

/// What a node has to be, since something is assigned to it.
#[derive(Clone, Copy, Debug)]
pub enum Target {
    /// Nothing is asked.
    Free,
    /// It stands on the left of `=`: a target, or a literal that turns into a pattern.
    Left,
    /// It stands on the left of another assignment, or is an operand of `++` or `--`: a target that is no pattern.
    Simple,
    /// It stands before `in` or `of` of a loop: as `Left`, or a declaration.
    Head,
    /// It stands in a pattern, where no default is allowed or where the default stands beside it.
    Part,
    /// The elements of an array literal that turns into a pattern.
    Elements,
    /// One of them, or the value of a property: a target or a literal, perhaps with a default.
    Element,
    /// The properties of an object literal that turns into a pattern.
    Properties,
    /// One of them.
    Property,
    /// What takes the rest of an object: a target that is no pattern.
    Rest,
    /// The name of a property that has a default after it.
    Name,
}

fn is_plain_target(kind: &Kind) -> bool
    ensures { result ≡ is_plain_target kind.now }
{
    matches!(
        kind,
        Kind::Ident { .. } | Kind::MemberExpr | Kind::SuperPropExpr
    )
}

fn is_wrapper(kind: &Kind) -> bool
    ensures { result ≡ is_wrapper kind.now }
{
    matches!(
        kind,
        Kind::ParenExpr
            | Kind::TsTypeAssertion
            | Kind::TsConstAssertion
            | Kind::TsNonNullExpr
            | Kind::TsAsExpr
            | Kind::TsInstantiation
            | Kind::TsSatisfiesExpr
    )
}

/// Whether a node is a name, a member that is no optional chain, a member of `super`, or one of these in parentheses or under
/// type wrappers.
#[tactic(auto, using(crate::proofs::Simple::simple))]
pub fn is_simple_target(node: &Node) -> bool
    ensures { result ≡ is_simple_target node.now }
{
    if is_plain_target(&node.kind) {
        return true;
    }
    if !is_wrapper(&node.kind) {
        return false;
    }
    match node.children.get(0) {
        Some(inner) => is_simple_target(inner),
        None => false,
    }
}

fn is_literal(kind: &Kind) -> bool
    ensures { result ≡ is_literal kind.now }
{
    matches!(kind, Kind::ArrayLit | Kind::ObjectLit)
}

pub(crate) fn is_spread(kind: &Kind) -> bool
    ensures { result ≡ is_spread kind.now }
{
    matches!(kind, Kind::SpreadElement)
}

fn is_plain(op: AssignOp) -> bool
    ensures { result ≡ is_plain op }
{
    matches!(op, AssignOp::Assign)
}

fn is_default(kind: &Kind) -> bool
    ensures { result ≡ is_default kind.now }
{
    match kind {
        Kind::AssignExpr { op } => is_plain(*op),
        _ => false,
    }
}

pub(crate) fn is_variables(kind: &Kind) -> bool
    ensures { result ≡ is_variables kind.now }
{
    matches!(kind, Kind::VarDecl { .. })
}

fn is_short_default(kind: &Kind) -> bool
    ensures { result ≡ is_short_default kind.now }
{
    matches!(kind, Kind::AssignProp)
}

fn is_absent(kind: &Kind) -> bool
    ensures { result ≡ is_absent kind.now }
{
    matches!(kind, Kind::Absent)
}

fn is_key_value(kind: &Kind) -> bool
    ensures { result ≡ is_key_value kind.now }
{
    matches!(kind, Kind::KeyValueProp)
}

/// Whether a node of this kind may stand there that is no simple target.
fn may_be(target: Target, kind: &Kind) -> bool
    ensures { result ≡ may_be target kind.now }
{
    match target {
        Target::Left => is_literal(kind),
        Target::Simple => false,
        Target::Head => is_literal(kind) || is_variables(kind),
        Target::Part => is_literal(kind),
        Target::Element => {
            is_literal(kind) || is_default(kind) || is_spread(kind) || is_absent(kind)
        }
        Target::Rest => false,
        Target::Property => is_key_value(kind) || is_short_default(kind) || is_spread(kind),
        _ => true,
    }
}

/// Whether a node is assigned to and is no target.
///
///     [a, b.c] = d;
///     [a, f()] = b;   // refused
pub(crate) fn is_no_target(target: Target, node: &Node) -> bool
    ensures { result ≡ is_no_target target node.now }
{
    !(may_be(target, &node.kind) || is_simple_target(node))
}

fn is_property(target: Target) -> bool
    ensures { result ≡ is_property target }
{
    matches!(target, Target::Property)
}

/// Whether a node is `name = value` outside the object literals that turn into patterns.
///
///     ({ a = 1 } = b);
///     ({ a = 1 });   // refused
pub(crate) fn is_stray_default(target: Target, node: &Node) -> bool
    ensures { result ≡ is_stray_default target node.now }
{
    is_short_default(&node.kind) && !is_property(target)
}

fn takes_patterns(target: Target) -> bool
    ensures { result ≡ takes_patterns target }
{
    matches!(
        target,
        Target::Left | Target::Head | Target::Part | Target::Element
    )
}

fn in_list(target: Target) -> Target
    ensures { result ≡ in_list target }
{
    match target {
        Target::Elements => Target::Element,
        Target::Properties => Target::Property,
        _ => Target::Free,
    }
}

fn in_literal(target: Target, items: Target) -> Target
    ensures { result ≡ in_literal target items }
{
    if takes_patterns(target) {
        items
    } else {
        Target::Free
    }
}

fn in_spread(target: Target) -> Target
    ensures { result ≡ in_spread target }
{
    match target {
        Target::Element => Target::Part,
        Target::Property => Target::Rest,
        _ => Target::Free,
    }
}

fn in_value(target: Target) -> Target
    ensures { result ≡ in_value target }
{
    match target {
        Target::Property => Target::Element,
        _ => Target::Free,
    }
}

fn in_short_default(target: Target) -> Target
    ensures { result ≡ in_short_default target }
{
    match target {
        Target::Property => Target::Name,
        _ => Target::Free,
    }
}

fn on_left(target: Target, op: AssignOp) -> Target
    ensures { result ≡ on_left target op }
{
    match op {
        AssignOp::Assign => match target {
            Target::Element => Target::Part,
            _ => Target::Left,
        },
        _ => Target::Simple,
    }
}

fn at_child(wanted: usize, index: usize, target: Target) -> Target
    ensures { result ≡ at_child wanted index target }
{
    if index == wanted {
        target
    } else {
        Target::Free
    }
}

/// What the child at an index has to be, in a node of this kind.
#[tactic(auto, unfolding(crate::specs::Targets::target_in))]
pub(crate) fn target_in(target: Target, kind: &Kind, index: usize) -> Target
    ensures { result ≡ target_in target kind.now index }
{
    match kind {
        Kind::List => in_list(target),
        Kind::ArrayLit => in_literal(target, Target::Elements),
        Kind::ObjectLit => in_literal(target, Target::Properties),
        Kind::SpreadElement => in_spread(target),
        Kind::KeyValueProp => at_child(1, index, in_value(target)),
        Kind::AssignProp => at_child(0, index, in_short_default(target)),
        Kind::AssignExpr { op } => at_child(0, index, on_left(target, *op)),
        Kind::UpdateExpr { .. } => Target::Simple,
        Kind::ForInStmt => at_child(0, index, Target::Head),
        Kind::ForOfStmt { .. } => at_child(0, index, Target::Head),
        _ => Target::Free,
    }
}
