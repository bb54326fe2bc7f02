//! Functions that plain modules have: with bodies, and without a parameter `this`.
ghost use Rattle.std.specs.Prelude.{◌≡◌, ◌||◌, map};
ghost use Rattle.ecma_tree.specs.declared.node.Node.{out-Node};
ghost use Rattle.ecma_tree.specs.Sorted.{is_absent};
ghost use Rattle.ecma_plain.specs.Functions.{body_of, functions, is_missing_at, is_this_name, lacks_body, takes_this, unusual_here};

use ecma_tree::{Kind, Node};

fn is_absent(kind: &Kind) -> bool
    ensures { result ≡ is_absent kind.now }
{
    matches!(kind, Kind::Absent)
}

fn is_this_name(kind: &Kind) -> bool
    ensures { result ≡ is_this_name kind.now }
{
    match kind {
        Kind::Ident { sym, .. } => sym.as_str() == "this",
        _ => false,
    }
}

/// Which child of a node is its body, of those that may lack one.
fn body_of(kind: &Kind) -> Option<usize>
    ensures { result ≡ body_of kind.now }
{
    match kind {
        Kind::Function { .. } => Some(1),
        Kind::Constructor { .. } | Kind::GetterProp => Some(2),
        Kind::SetterProp => Some(3),
        _ => None,
    }
}

/// Whether the child at an index is missing.
fn is_missing_at(node: &Node, index: usize) -> bool
    ensures { result ≡ is_missing_at (map functions (out-Node node.now).children) index }
{
    match node.children.get(index) {
        Some(child) => is_absent(&child.kind),
        None => false,
    }
}

/// Whether a function, a constructor or an accessor lacks its body.
fn lacks_body(node: &Node) -> bool
    ensures { result ≡ lacks_body (map functions (out-Node node.now).children) (body_of (out-Node node.now).kind) }
{
    match body_of(&node.kind) {
        Some(index) => is_missing_at(node, index),
        None => false,
    }
}

/// Whether a bound name is `this`.
fn names_this(node: &Node) -> bool
    ensures { result ≡ takes_this Kind.BindingIdent (map functions (out-Node node.now).children) }
{
    match node.children.get(0) {
        Some(name) => is_this_name(&name.kind),
        None => false,
    }
}

/// Whether the setter of an object has a parameter before its own.
fn sets_this(node: &Node) -> bool
    ensures { result ≡ takes_this Kind.SetterProp (map functions (out-Node node.now).children) }
{
    if node.children.len() != 4 {
        return false;
    }
    !is_missing_at(node, 1)
}

/// Whether a node is a bound name `this`, or the setter of an object with a parameter before its own.
fn takes_this(node: &Node) -> bool
    ensures { result ≡ takes_this (out-Node node.now).kind (map functions (out-Node node.now).children) }
{
    match &node.kind {
        Kind::BindingIdent => names_this(node),
        Kind::SetterProp => sets_this(node),
        _ => false,
    }
}

fn is_unusual(node: &Node) -> bool
    ensures { result ≡ unusual_here (out-Node node.now).kind (map functions (out-Node node.now).children) }
{
    lacks_body(node) || takes_this(node)
}

fn either(a: bool, b: bool) -> bool
    ensures { result ≡ a || b }
{
    a || b
}

/// Whether a tree has a function without its body, or a parameter that is there for its type alone.
pub(crate) fn has_unusual(node: &Node) -> bool
    ensures { result ≡ (functions node.now).has_unusual }
{
    let mut found = is_unusual(node);
    for i in 0..node.children.len() {
        let below = has_unusual(node.children.at(i));
        found = either(found, below);
    }
    found
}
