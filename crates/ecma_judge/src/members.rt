//! Members of what is made where they are read: an object, a class or a function.
ghost use Rattle.std.specs.Prelude.{◌≡◌, not};
ghost use Rattle.ecma_tree.specs.declared.node.Node.{out-Node};
ghost use Rattle.ecma_judge.specs.Parts.{has_kind, is_there, passes_at};
ghost use Rattle.ecma_judge.specs.Effects.{class_may_call, has_static_accessor, is_accessor_kind, is_open_key, is_proto, is_static_accessor, properties_may_call, property_may_call, reading_may_call_by, reads_plainly};

use crate::parts::is_there;
use ecma_tree::{Kind, MethodKind, Node};
use short_texts::is_same;

fn is_accessor_kind(kind: MethodKind) -> bool
    ensures { result ≡ is_accessor_kind kind }
{
    matches!(kind, MethodKind::Getter | MethodKind::Setter)
}

fn is_static_accessor(kind: &Kind) -> bool
    ensures { result ≡ is_static_accessor kind.now }
{
    match kind {
        Kind::ClassMethod { kind, modifiers } => modifiers.is_static && is_accessor_kind(*kind),
        Kind::PrivateMethod { kind, modifiers } => modifiers.is_static && is_accessor_kind(*kind),
        _ => false,
    }
}

fn has_static_accessor(members: &Node) -> bool
    ensures { result ≡ has_static_accessor members.now }
{
    for member in members.children.as_slice() {
        if is_static_accessor(&member.kind) {
            return true;
        }
    }
    false
}

fn has_heritage(class: &Node) -> bool
    ensures { result ≡ passes_at is_there 0 class.now }
{
    match class.children.get(0) {
        Some(heritage) => is_there(heritage),
        None => false,
    }
}

fn has_static_accessors(class: &Node) -> bool
    ensures { result ≡ passes_at has_static_accessor 1 class.now }
{
    match class.children.get(1) {
        Some(members) => has_static_accessor(members),
        None => false,
    }
}

fn class_may_call(class: &Node) -> bool
    ensures { result ≡ class_may_call class.now }
{
    has_heritage(class) || has_static_accessors(class)
}

fn class_expr_may_call(node: &Node) -> bool
    ensures { result ≡ passes_at class_may_call 1 node.now }
{
    match node.children.get(1) {
        Some(class) => class_may_call(class),
        None => false,
    }
}

fn is_proto(text: &str) -> bool
    ensures { result ≡ is_proto text.now }
{
    is_same(text, "__proto__")
}

fn is_open_key(kind: &Kind) -> bool
    ensures { result ≡ is_open_key kind.now }
{
    match kind {
        Kind::IdentName { sym } => is_proto(sym.as_str()),
        Kind::Str { value, .. } => is_proto(value.as_str()),
        Kind::ComputedPropName => true,
        _ => false,
    }
}

fn has_open_key(property: &Node) -> bool
    ensures { result ≡ passes_at (has_kind is_open_key) 0 property.now }
{
    match property.children.get(0) {
        Some(key) => is_open_key(&key.kind),
        None => false,
    }
}

#[tactic(auto, unfolding(crate::specs::Effects::property_may_call_by))]
fn property_may_call(property: &Node) -> bool
    ensures { result ≡ property_may_call property.now }
{
    match &property.kind {
        Kind::SpreadElement => true,
        Kind::GetterProp => true,
        Kind::SetterProp => true,
        Kind::MethodProp => true,
        Kind::Ident { sym, .. } => is_proto(sym.as_str()),
        Kind::KeyValueProp => has_open_key(property),
        _ => false,
    }
}

fn properties_may_call(properties: &Node) -> bool
    ensures { result ≡ properties_may_call properties.now }
{
    for property in properties.children.as_slice() {
        if property_may_call(property) {
            return true;
        }
    }
    false
}

fn object_may_call(node: &Node) -> bool
    ensures { result ≡ passes_at properties_may_call 0 node.now }
{
    match node.children.get(0) {
        Some(properties) => properties_may_call(properties),
        None => false,
    }
}

fn reading_may_call(object: &Node) -> bool
    ensures { result ≡ reading_may_call_by (out-Node object.now).kind object.now }
{
    match &object.kind {
        Kind::ObjectLit => object_may_call(object),
        Kind::ClassExpr => class_expr_may_call(object),
        Kind::FnExpr => false,
        Kind::ArrowExpr { .. } => false,
        _ => true,
    }
}

/// Whether the object of a member is made there, and to read a member of it calls nothing.
pub(crate) fn reads_plainly(member: &Node) -> bool
    ensures { result ≡ passes_at reads_plainly 0 member.now }
{
    match member.children.get(0) {
        Some(object) => !reading_may_call(object),
        None => false,
    }
}
