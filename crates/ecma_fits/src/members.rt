//! Members that are read as they stand.
ghost use Rattle.std.specs.Prelude.{◌≡◌};
ghost use Rattle.ecma_tree.specs.declared.node.Node.{out-Node};
ghost use Rattle.ecma_rules.specs.Children.{child_is};
ghost use Rattle.ecma_rules.specs.Members.{is_constructor_key, is_method, is_special_function};
ghost use Rattle.ecma_fits.specs.Members.{is_misread, is_misread_by, is_special_accessor};

use ecma_tree::{Kind, MethodKind, Node};

fn is_constructor_key(kind: &Kind) -> bool
    ensures { result ≡ is_constructor_key kind.now }
{
    match kind {
        Kind::IdentName { sym } => sym.as_str() == "constructor",
        Kind::Str { value, .. } => value.as_str() == "constructor",
        _ => false,
    }
}

fn has_constructor_key(node: &Node) -> bool
    ensures { result ≡ child_is is_constructor_key node.now 0 }
{
    match node.children.get(0) {
        Some(key) => is_constructor_key(&key.kind),
        None => false,
    }
}

fn is_special_function(kind: &Kind) -> bool
    ensures { result ≡ is_special_function kind.now }
{
    match kind {
        Kind::Function {
            is_generator,
            is_async,
        } => *is_generator || *is_async,
        _ => false,
    }
}

fn has_special_function(node: &Node) -> bool
    ensures { result ≡ child_is is_special_function node.now 1 }
{
    match node.children.get(1) {
        Some(function) => is_special_function(&function.kind),
        None => false,
    }
}

fn is_method(kind: MethodKind) -> bool
    ensures { result ≡ is_method kind }
{
    matches!(kind, MethodKind::Method)
}

/// Whether a member is a getter or a setter that is a generator or async.
fn is_special_accessor(kind: MethodKind, node: &Node) -> bool
    ensures { result ≡ is_special_accessor kind node.now }
{
    !is_method(kind) && has_special_function(node)
}

/// Whether a member of a class would be read as another: a constructor is the member `constructor` that is not static, and no other is.
#[tactic(auto, unfolding(crate::specs::Members::is_misread_by))]
pub(crate) fn is_misread(node: &Node) -> bool
    ensures { result ≡ is_misread node.now }
{
    match &node.kind {
        Kind::Constructor { .. } => !has_constructor_key(node),
        Kind::ClassMethod { kind, modifiers } => {
            is_special_accessor(*kind, node) || (!modifiers.is_static && has_constructor_key(node))
        }
        Kind::PrivateMethod { kind, .. } => is_special_accessor(*kind, node),
        _ => false,
    }
}
