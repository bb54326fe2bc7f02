//! Parameters and members of objects and classes.
ghost use Rattle.std.specs.Prelude.{◌≡◌, ◌&&◌, ◌||◌, filter};
ghost use Rattle.std.specs.List.{list_any};
ghost use Rattle.ecma_tree.specs.Sorted.{is_list};
ghost use Rattle.ecma_tree.specs.declared.node.Node.{out-Node};
ghost use Rattle.ecma_rules.specs.Children.{child_holds, child_is};
ghost use Rattle.ecma_rules.specs.Members.{behind_first, fits_kind, has_body, is_binding_name, is_constructor, is_constructor_key, is_declaring, is_empty_list, is_full_constructor, is_method, is_named_pattern, is_one_parameter, is_plain_parameter, is_property_kind, is_special_by, is_special_constructor, is_special_function, is_stray_property, is_this_by, is_misfit, is_this_parameter, is_this_pattern, misfits_by, misplaces_this, misplaces_this_by, second_constructor, second_of, takes_not_one, takes_one};
ghost use Rattle.ecma_rules.specs.Lists.{is_rest_pattern};

use crate::children::{has_child, is_named, items_at};
use crate::lists::is_rest_pattern;
use crate::standing::Standing;
use ecma_tree::{Kind, MethodKind, Node};

fn is_named_pattern(node: &Node) -> bool
    ensures { result ≡ is_plain_parameter node.now }
{
    match &node.kind {
        Kind::BindingIdent => true,
        Kind::AssignPat => match node.children.get(0) {
            Some(left) => matches!(left.kind, Kind::BindingIdent),
            None => false,
        },
        _ => false,
    }
}

fn has_named_pattern(node: &Node) -> bool
    ensures { result ≡ child_holds is_plain_parameter node.now 0 }
{
    match node.children.get(0) {
        Some(pattern) => is_named_pattern(pattern),
        None => false,
    }
}

fn is_declaring(standing: Standing) -> bool
    ensures { result ≡ is_declaring standing }
{
    matches!(standing, Standing::Declaring)
}

fn is_property_kind(kind: &Kind) -> bool
    ensures { result ≡ is_property_kind kind.now }
{
    matches!(kind, Kind::TsParamProp { .. })
}

/// Whether a node is a parameter with modifiers that is none of a constructor with a body, or no plain name.
///
///     class A { constructor(private b) { } }
///     function f(private a) { }   // refused
pub(crate) fn is_stray_property(standing: Standing, node: &Node) -> bool
    ensures { result ≡ is_stray_property standing node.now }
{
    is_property_kind(&node.kind) && !(is_declaring(standing) && has_named_pattern(node))
}

fn is_this_pattern(node: &Node) -> bool
    ensures { result ≡ is_this_pattern node.now }
{
    match &node.kind {
        Kind::BindingIdent => match node.children.get(0) {
            Some(name) => is_named(&name.kind, "this"),
            None => false,
        },
        _ => false,
    }
}

fn is_this_parameter(node: &Node) -> bool
    ensures { result ≡ is_this_parameter node.now }
{
    match node.children.get(0) {
        Some(pattern) => is_this_pattern(pattern),
        None => false,
    }
}

fn has_rest_pattern(node: &Node) -> bool
    ensures { result ≡ child_is is_rest_pattern node.now 0 }
{
    match node.children.get(0) {
        Some(pattern) => is_rest_pattern(&pattern.kind),
        None => false,
    }
}

fn takes_one(parameter: &Node) -> bool
    ensures { result ≡ takes_one parameter.now }
{
    !is_this_parameter(parameter) && !has_rest_pattern(parameter)
}

fn is_one_parameter(parameters: &[Node]) -> bool
    ensures { result ≡ is_one_parameter parameters.now }
{
    match parameters {
        [parameter] => takes_one(parameter),
        [first, parameter] => is_this_parameter(first) && takes_one(parameter),
        _ => false,
    }
}

fn is_empty_list(parameters: &[Node]) -> bool
    ensures { result ≡ is_empty_list parameters.now }
{
    match parameters {
        [] => true,
        _ => false,
    }
}

fn fits_kind(kind: MethodKind, function: &Node) -> bool
    ensures { result ≡ fits_kind kind function.now }
{
    match kind {
        MethodKind::Method => true,
        MethodKind::Getter => is_empty_list(items_at(function, 0)),
        MethodKind::Setter => is_one_parameter(items_at(function, 0)),
    }
}

fn has_fitting(kind: MethodKind, node: &Node) -> bool
    ensures { result ≡ child_holds (fits_kind kind) node.now 1 }
{
    match node.children.get(1) {
        Some(function) => fits_kind(kind, function),
        None => false,
    }
}

fn has_not_one(node: &Node, index: usize) -> bool
    ensures { result ≡ child_is takes_not_one node.now index }
{
    match node.children.get(index) {
        Some(child) => matches!(child.kind, Kind::List) || is_rest_pattern(&child.kind),
        None => false,
    }
}

/// Whether the second child is a function with a body.
fn has_full_function(node: &Node) -> bool
    ensures { result ≡ child_holds has_body node.now 1 }
{
    match node.children.get(1) {
        Some(function) => has_child(function, 1),
        None => false,
    }
}

/// Whether a node is a rest with a default, a getter with a parameter, a setter that does not take one argument, or a getter,
/// setter or method of an object without a body.
///
///     ({ get a() { return 1; }, set a(b) { } });
///     ({ get a(b) { return 1; } });   // refused
///     (...a = b) => c;   // refused
///     ({ get a() });   // refused
#[tactic(auto, unfolding(crate::specs::Members::misfits_by))]
pub(crate) fn is_misfit(node: &Node) -> bool
    ensures { result ≡ is_misfit node.now }
{
    match &node.kind {
        Kind::AssignPat => has_rest_pattern(node),
        Kind::GetterProp => has_child(node, 3) || !has_child(node, 2),
        Kind::SetterProp => has_not_one(node, 2) || !has_child(node, 3),
        Kind::MethodProp => !has_full_function(node),
        Kind::ClassMethod { kind, .. } => !has_fitting(*kind, node),
        Kind::PrivateMethod { kind, .. } => !has_fitting(*kind, node),
        _ => false,
    }
}

fn any_is_this(patterns: &[Node]) -> bool
    ensures { result ≡ list_any is_this_pattern patterns.now }
{
    match patterns {
        [] => false,
        [pattern, others @ ..] => is_this_pattern(pattern) || any_is_this(others),
    }
}

fn any_is_this_parameter(parameters: &[Node]) -> bool
    ensures { result ≡ list_any is_this_parameter parameters.now }
{
    match parameters {
        [] => false,
        [parameter, others @ ..] => is_this_parameter(parameter) || any_is_this_parameter(others),
    }
}

fn is_this_behind_first(parameters: &[Node]) -> bool
    ensures { result ≡ list_any is_this_parameter (behind_first parameters.now) }
{
    match parameters {
        [] => false,
        [_first, others @ ..] => any_is_this_parameter(others),
    }
}

fn has_this_pattern(node: &Node, index: usize) -> bool
    ensures { result ≡ child_holds is_this_pattern node.now index }
{
    match node.children.get(index) {
        Some(pattern) => is_this_pattern(pattern),
        None => false,
    }
}

/// Whether a node is a function with a parameter `this` where none may stand.
///
///     function f(this: T, a) { }
///     function f(a, this: T) { }   // refused
#[tactic(auto, unfolding(crate::specs::Members::misplaces_this_by))]
pub(crate) fn misplaces_this(node: &Node) -> bool
    ensures { result ≡ misplaces_this node.now }
{
    match &node.kind {
        Kind::Function { .. } => is_this_behind_first(items_at(node, 0)),
        Kind::ArrowExpr { .. } => any_is_this(items_at(node, 0)),
        Kind::Constructor { .. } => any_is_this_parameter(items_at(node, 1)),
        Kind::SetterProp => has_this_pattern(node, 2),
        _ => false,
    }
}

fn is_constructor(kind: &Kind) -> bool
    ensures { result ≡ is_constructor kind.now }
{
    matches!(kind, Kind::Constructor { .. })
}

fn is_full_constructor(node: &Node) -> bool
    ensures { result ≡ is_full_constructor node.now }
{
    is_constructor(&node.kind) && has_child(node, 2)
}

fn both(a: bool, b: bool) -> bool
    ensures { result ≡ a && b }
{
    a && b
}

fn either(a: bool, b: bool) -> bool
    ensures { result ≡ a || b }
{
    a || b
}

/// The place of the second constructor with a body in a list of members.
fn second_member(list: &Node) -> Option<u32>
    ensures { result ≡ second_of (filter is_full_constructor (out-Node list.now).children) }
{
    let mut is_seen = false;
    for i in 0..list.children.len() {
        let member = list.children.at(i);
        let is_full = is_full_constructor(member);
        if both(is_seen, is_full) {
            return Some(member.span.lo);
        }
        is_seen = either(is_seen, is_full);
    }
    None
}

/// The place of the second constructor of a class that has a body.
///
///     class A { constructor(b); constructor(b, c?) { } }
///     class A { constructor() { } constructor() { } }   // refused
pub fn second_constructor(node: &Node) -> Option<u32>
    ensures { result ≡ second_constructor node.now }
{
    match &node.kind {
        Kind::Class { .. } => match node.children.get(1) {
            Some(list) => second_member(list),
            None => None,
        },
        _ => None,
    }
}

fn is_constructor_key(kind: &Kind) -> bool
    ensures { result ≡ is_constructor_key kind.now }
{
    match kind {
        Kind::IdentName { sym } => sym.as_str() == "constructor",
        Kind::Str { value, .. } => value.as_str() == "constructor",
        _ => false,
    }
}

fn has_constructor_key(node: &Node) -> bool
    ensures { result ≡ child_is is_constructor_key node.now 0 }
{
    match node.children.get(0) {
        Some(key) => is_constructor_key(&key.kind),
        None => false,
    }
}

fn is_special_function(kind: &Kind) -> bool
    ensures { result ≡ is_special_function kind.now }
{
    match kind {
        Kind::Function {
            is_generator,
            is_async,
        } => *is_generator || *is_async,
        _ => false,
    }
}

fn has_special_function(node: &Node) -> bool
    ensures { result ≡ child_is is_special_function node.now 1 }
{
    match node.children.get(1) {
        Some(function) => is_special_function(&function.kind),
        None => false,
    }
}

fn is_method(kind: MethodKind) -> bool
    ensures { result ≡ is_method kind }
{
    matches!(kind, MethodKind::Method)
}

/// Whether a node is a constructor that is an accessor, a generator or async.
///
///     class A { async ["constructor"]() { } }   // a key in brackets
///     class A { async constructor() { } }   // refused
pub(crate) fn is_special_constructor(node: &Node) -> bool
    ensures { result ≡ is_special_constructor node.now }
{
    match &node.kind {
        Kind::ClassMethod { kind, modifiers } => {
            !modifiers.is_static
                && has_constructor_key(node)
                && (!is_method(*kind) || has_special_function(node))
        }
        _ => false,
    }
}
