//! Classes and their members.
ghost use Rattle.std.specs.Prelude.{◌≡◌, IfOk};
ghost use Rattle.ecma_grammar.specs.trees.Parts.{framed, kind_of};
ghost use Rattle.ecma_grammar.specs.trees.Classes.{class, constructor_of, field, field_kind, index_signature_with_types, is_constructor, is_constructor_key, is_plain_function, is_private_name, member, member_by, method, method_by, method_kind, modified, new_signature, no_modifiers, type_signature};

use ecma_nodes_parts::{
    Signature, accessibility_of, five, four, function_of, has_word, is_present, let_go, nine,
    parameters, six, three, two,
};
use ecma_tree::{Kind, MemberModifiers, MethodKind, NoMemory, Node, Nodes, Span};
use std::alloc::Global;

/// A class with its name.
pub fn class(
    alloc: Global,
    span: Span,
    kind: Kind,
    is_abstract: bool,
    items: Nodes,
) -> Result<Node, NoMemory>
    ensures { IfOk result (λ x. x ≡ framed 6 (class span kind is_abstract) items) }
{
    let Some((name, type_params, super_class, super_type_params, implements, members)) = six(items)
    else {
        return Ok(Node::absent(alloc));
    };
    let children = [
        super_class,
        members,
        type_params,
        super_type_params,
        implements,
    ];
    let class = Node::of(alloc, span, Kind::Class { is_abstract }, children)?;
    Node::of(alloc, span, kind, [name, class])
}

fn is_private_name(node: &Node) -> bool
    ensures { result ≡ is_private_name (kind_of node.now) }
{
    matches!(node.kind, Kind::PrivateName { .. })
}

fn no_modifiers(is_optional: bool) -> MemberModifiers
    ensures { result ≡ no_modifiers is_optional }
{
    MemberModifiers {
        accessibility: None,
        is_static: false,
        is_abstract: false,
        is_optional,
        is_override: false,
    }
}

fn method_kind(key: &Node, kind: MethodKind, modifiers: MemberModifiers) -> Kind
    ensures { result ≡ method_kind key.now kind modifiers }
{
    if is_private_name(key) {
        Kind::PrivateMethod { kind, modifiers }
    } else {
        Kind::ClassMethod { kind, modifiers }
    }
}

/// A method without modifiers.
pub fn method(alloc: Global, span: Span, kind: MethodKind, items: Nodes) -> Result<Node, NoMemory>
    ensures { IfOk result (λ x. x ≡ framed 9 (method span kind) items) }
{
    let Some(
        (
            is_async,
            is_generator,
            key,
            question,
            exclamation,
            type_params,
            params,
            return_type,
            body,
        ),
    ) = nine(items) else {
        return Ok(Node::absent(alloc));
    };
    let_go(exclamation);
    let signature = Signature {
        type_params,
        params,
        return_type,
        body,
    };
    let (is_async, is_generator) = (is_present(&is_async), is_present(&is_generator));
    let function = function_of(alloc, span, is_async, is_generator, signature)?;
    let kind = method_kind(&key, kind, no_modifiers(is_present(&question)));
    Node::of(alloc, span, kind, [key, function])
}

fn field_kind(
    key: &Node,
    modifiers: MemberModifiers,
    readonly: bool,
    declare: bool,
    definite: bool,
) -> Kind
    ensures { result ≡ field_kind key.now modifiers readonly declare definite }
{
    if is_private_name(key) {
        Kind::PrivateProp {
            modifiers,
            readonly,
            declare,
            definite,
        }
    } else {
        Kind::ClassProp {
            modifiers,
            readonly,
            declare,
            definite,
        }
    }
}

/// A field without modifiers.
pub fn field(alloc: Global, span: Span, items: Nodes) -> Result<Node, NoMemory>
    ensures { IfOk result (λ x. x ≡ framed 5 (field span) items) }
{
    let Some((key, question, exclamation, annotation, value)) = five(items) else {
        return Ok(Node::absent(alloc));
    };
    let modifiers = no_modifiers(is_present(&question));
    let kind = field_kind(&key, modifiers, false, false, is_present(&exclamation));
    Node::of(alloc, span, kind, [key, value, annotation])
}

/// The modifiers that are written.
fn modified(modifiers: &Node, before: MemberModifiers) -> MemberModifiers
    ensures { result ≡ modified modifiers.now before }
{
    MemberModifiers {
        accessibility: accessibility_of(modifiers),
        is_static: has_word(modifiers, "static"),
        is_abstract: has_word(modifiers, "abstract"),
        is_optional: before.is_optional,
        is_override: has_word(modifiers, "override"),
    }
}

/// Whether a key is `constructor`, as a name or a text.
fn is_constructor_key(key: &Node) -> bool
    ensures { result ≡ is_constructor_key (kind_of key.now) }
{
    match &key.kind {
        Kind::IdentName { sym } => sym.as_str() == "constructor",
        Kind::Str { value, .. } => value.as_str() == "constructor",
        _ => false,
    }
}

fn is_plain_function(function: &Node) -> bool
    ensures { result ≡ is_plain_function (kind_of function.now) }
{
    match function.kind {
        Kind::Function {
            is_generator,
            is_async,
        } => !is_generator && !is_async,
        _ => false,
    }
}

/// Whether a method is the constructor: it has that key, and is not static, no generator and not async.
fn is_constructor(modifiers: &Node, key: &Node, function: &Node) -> bool
    ensures { result ≡ is_constructor modifiers.now key.now function.now }
{
    is_constructor_key(key) && is_plain_function(function) && !has_word(modifiers, "static")
}

fn constructor_of(
    alloc: Global,
    span: Span,
    modifiers: &Node,
    before: MemberModifiers,
    key: Node,
    parts: Nodes,
) -> Result<Node, NoMemory>
    ensures { IfOk result (λ x. x ≡ framed 4 (constructor_of span modifiers.now before key) parts) }
{
    let Some((params, body, type_params, return_type)) = four(parts) else {
        return Ok(Node::absent(alloc));
    };
    let_go(type_params);
    let_go(return_type);
    let kind = Kind::Constructor {
        accessibility: accessibility_of(modifiers),
        is_optional: before.is_optional,
    };
    Node::of(alloc, span, kind, [key, params, body])
}

fn method_by(
    alloc: Global,
    span: Span,
    modifiers: &Node,
    before: MemberModifiers,
    children: Nodes,
) -> Result<Node, NoMemory>
    ensures { IfOk result (λ x. x ≡ framed 2 (method_by span modifiers.now before) children) }
{
    let Some((key, function)) = two(children) else {
        return Ok(Node::absent(alloc));
    };
    if is_constructor(modifiers, &key, &function) {
        let Node { children, .. } = function;
        return constructor_of(alloc, span, modifiers, before, key, children);
    }
    let kind = Kind::ClassMethod {
        kind: MethodKind::Method,
        modifiers: modified(modifiers, before),
    };
    Node::of(alloc, span, kind, [key, function])
}

fn member_by(
    alloc: Global,
    span: Span,
    modifiers: &Node,
    kind: Kind,
    children: Nodes,
) -> Result<Node, NoMemory>
    ensures { IfOk result (λ x. x ≡ member_by span modifiers.now kind children) }
{
    let kind = match kind {
        Kind::ClassMethod {
            kind: MethodKind::Method,
            modifiers: before,
        } => return method_by(alloc, span, modifiers, before, children),
        Kind::ClassMethod {
            kind,
            modifiers: before,
        } => Kind::ClassMethod {
            kind,
            modifiers: modified(modifiers, before),
        },
        Kind::PrivateMethod {
            kind,
            modifiers: before,
        } => Kind::PrivateMethod {
            kind,
            modifiers: modified(modifiers, before),
        },
        Kind::ClassProp {
            modifiers: before,
            definite,
            ..
        } => Kind::ClassProp {
            modifiers: modified(modifiers, before),
            readonly: has_word(modifiers, "readonly"),
            declare: has_word(modifiers, "declare"),
            definite,
        },
        Kind::PrivateProp {
            modifiers: before,
            definite,
            ..
        } => Kind::PrivateProp {
            modifiers: modified(modifiers, before),
            readonly: has_word(modifiers, "readonly"),
            declare: has_word(modifiers, "declare"),
            definite,
        },
        other => other,
    };
    Ok(Node::new(span, kind, children))
}

/// A member with its modifiers.
pub fn member(alloc: Global, span: Span, items: Nodes) -> Result<Node, NoMemory>
    ensures { IfOk result (λ x. x ≡ framed 2 (member span) items) }
{
    let Some((modifiers, member)) = two(items) else {
        return Ok(Node::absent(alloc));
    };
    let Node { kind, children, .. } = member;
    member_by(alloc, span, &modifiers, kind, children)
}

/// An index signature, which holds its types.
pub fn index_signature(alloc: Global, span: Span, items: Nodes) -> Result<Node, NoMemory>
    ensures { IfOk result (λ x. x ≡ framed 3 (index_signature_with_types span) items) }
{
    let Some((modifiers, index, annotation)) = three(items) else {
        return Ok(Node::absent(alloc));
    };
    let kind = Kind::TsIndexSignature {
        readonly: has_word(&modifiers, "readonly"),
        is_static: has_word(&modifiers, "static"),
    };
    Node::of(alloc, span, kind, [index, annotation])
}

/// A signature inside a type, as a method without a body.
pub fn type_signature(
    alloc: Global,
    span: Span,
    kind: MethodKind,
    items: Nodes,
) -> Result<Node, NoMemory>
    ensures { IfOk result (λ x. x ≡ framed 2 (type_signature span kind) items) }
{
    let Some((front, params)) = two(items) else {
        return Ok(Node::absent(alloc));
    };
    let signature = Signature {
        type_params: Node::absent(alloc),
        params,
        return_type: Node::absent(alloc),
        body: Node::absent(alloc),
    };
    let function = function_of(alloc, span, false, false, signature)?;
    let kind = Kind::ClassMethod {
        kind,
        modifiers: no_modifiers(false),
    };
    Node::of(alloc, span, kind, [front, function])
}

/// One after `new`, as a constructor without a body.
pub fn new_signature(alloc: Global, span: Span, items: Nodes) -> Result<Node, NoMemory>
    ensures { IfOk result (λ x. x ≡ framed 2 (new_signature span) items) }
{
    let Some((front, params)) = two(items) else {
        return Ok(Node::absent(alloc));
    };
    let kind = Kind::Constructor {
        accessibility: None,
        is_optional: false,
    };
    let params = parameters(alloc, params)?;
    Node::of(alloc, span, kind, [front, params, Node::absent(alloc)])
}
