//! Functions, their parameters, patterns and what is declared by them.
ghost use Rattle.std.specs.Prelude.{◌≡◌, IfOk};
ghost use Rattle.ecma_grammar.specs.trees.Parts.{children_of, framed, kind_of};
ghost use Rattle.ecma_grammar.specs.trees.Functions.{annotated, annotated_of, annotated_pattern, arrow, declarator, end_of, function, getter, is_this, is_this_ident, parameter, questioned, questioned_kind, questioned_part, setter, setter_by, setter_of, yield_};

use ecma_nodes_parts::{
    Signature, accessibility_of, five, four, function_of, has_word, is_absent, is_present, let_go,
    one, seven, three, two,
};
use ecma_tree::{Kind, NoMemory, Node, Nodes, Span};
use std::alloc::Global;

/// A kind with its `?`, where it may have one.
fn questioned_kind(optional: bool, kind: Kind) -> Kind
    ensures { result ≡ questioned_kind optional kind }
{
    match kind {
        Kind::Ident { sym, ctxt, .. } => Kind::Ident {
            sym,
            ctxt,
            optional,
        },
        Kind::ArrayPat { .. } => Kind::ArrayPat { optional },
        Kind::ObjectPat { .. } => Kind::ObjectPat { optional },
        other => other,
    }
}

fn questioned(optional: bool, node: Node) -> Node
    ensures { result ≡ questioned optional node }
{
    let Node {
        span,
        kind,
        children,
    } = node;
    Node::new(span, questioned_kind(optional, kind), children)
}

/// The question mark of a name stands in its identifier.
fn questioned_part(optional: bool, kind: &Kind, part: Node) -> Node
    ensures { result ≡ questioned_part optional kind.now part }
{
    match kind {
        Kind::BindingIdent => questioned(optional, part),
        _ => part,
    }
}

fn annotated_of(
    alloc: Global,
    span: Span,
    kind: Kind,
    optional: bool,
    annotation: Node,
    children: Nodes,
) -> Result<Node, NoMemory>
    ensures { IfOk result (λ x. x ≡ framed 2 (annotated_of span kind optional annotation) children) }
{
    let Some((part, none)) = two(children) else {
        return Ok(Node::absent(alloc));
    };
    let_go(none);
    let part = questioned_part(optional, &kind, part);
    Node::of(
        alloc,
        span,
        questioned_kind(optional, kind),
        [part, annotation],
    )
}

/// A pattern with its `?` and its annotation.
fn annotated_pattern(
    alloc: Global,
    span: Span,
    pattern: Node,
    optional: bool,
    annotation: Node,
) -> Result<Node, NoMemory>
    ensures { IfOk result (λ x. x ≡ annotated_pattern span pattern optional annotation) }
{
    let Node { kind, children, .. } = pattern;
    annotated_of(alloc, span, kind, optional, annotation, children)
}

/// A pattern with its `?` and its annotation, of what was read.
pub fn annotated(alloc: Global, span: Span, items: Nodes) -> Result<Node, NoMemory>
    ensures { IfOk result (λ x. x ≡ framed 3 (annotated span) items) }
{
    match three(items) {
        Some((pattern, question, annotation)) => {
            annotated_pattern(alloc, span, pattern, is_present(&question), annotation)
        }
        None => Ok(Node::absent(alloc)),
    }
}

/// Where a pattern with its annotation ends.
fn end_of(pattern: &Node, annotation: &Node) -> u32
    ensures { result ≡ end_of pattern.now annotation.now }
{
    if is_absent(annotation) {
        pattern.span.hi
    } else {
        annotation.span.hi
    }
}

/// A declarator of a pattern, its `!`, its annotation and its value.
pub fn declarator(alloc: Global, span: Span, items: Nodes) -> Result<Node, NoMemory>
    ensures { IfOk result (λ x. x ≡ framed 4 (declarator span) items) }
{
    let Some((pattern, exclamation, annotation, value)) = four(items) else {
        return Ok(Node::absent(alloc));
    };
    let inner = Span {
        lo: pattern.span.lo,
        hi: end_of(&pattern, &annotation),
    };
    let kind = Kind::VarDeclarator {
        definite: is_present(&exclamation),
    };
    let name = annotated_pattern(alloc, inner, pattern, false, annotation)?;
    Node::of(alloc, span, kind, [name, value])
}

/// A parameter, a property where it has modifiers.
pub fn parameter(alloc: Global, span: Span, items: Nodes) -> Result<Node, NoMemory>
    ensures { IfOk result (λ x. x ≡ framed 2 (parameter span) items) }
{
    let Some((modifiers, pattern)) = two(items) else {
        return Ok(Node::absent(alloc));
    };
    if is_absent(&modifiers) {
        return Ok(pattern);
    }
    let kind = Kind::TsParamProp {
        accessibility: accessibility_of(&modifiers),
        is_override: has_word(&modifiers, "override"),
        readonly: has_word(&modifiers, "readonly"),
    };
    Node::of(alloc, span, kind, [pattern])
}

/// A function with its name.
pub fn function(alloc: Global, span: Span, kind: Kind, items: Nodes) -> Result<Node, NoMemory>
    ensures { IfOk result (λ x. x ≡ framed 7 (function span kind) items) }
{
    let Some((is_async, is_generator, name, type_params, params, return_type, body)) = seven(items)
    else {
        return Ok(Node::absent(alloc));
    };
    let signature = Signature {
        type_params,
        params,
        return_type,
        body,
    };
    let (is_async, is_generator) = (is_present(&is_async), is_present(&is_generator));
    let function = function_of(alloc, span, is_async, is_generator, signature)?;
    Node::of(alloc, span, kind, [name, function])
}

/// An arrow function.
pub fn arrow(alloc: Global, span: Span, items: Nodes) -> Result<Node, NoMemory>
    ensures { IfOk result (λ x. x ≡ framed 5 (arrow span) items) }
{
    let Some((is_async, type_params, params, return_type, body)) = five(items) else {
        return Ok(Node::absent(alloc));
    };
    let kind = Kind::ArrowExpr {
        is_async: is_present(&is_async),
        is_generator: false,
    };
    Node::of(alloc, span, kind, [params, body, type_params, return_type])
}

/// `yield`, or `yield*`.
pub fn yield_expr(alloc: Global, span: Span, items: Nodes) -> Result<Node, NoMemory>
    ensures { IfOk result (λ x. x ≡ framed 2 (yield_ span) items) }
{
    let Some((star, operand)) = two(items) else {
        return Ok(Node::absent(alloc));
    };
    let kind = Kind::YieldExpr {
        delegate: is_present(&star),
    };
    Node::of(alloc, span, kind, [operand])
}

/// A getter of an object; parameters that it may not have stand behind its body.
pub fn getter(alloc: Global, span: Span, items: Nodes) -> Result<Node, NoMemory>
    ensures { IfOk result (λ x. x ≡ framed 5 (getter span) items) }
{
    let Some((key, type_params, params, return_type, body)) = five(items) else {
        return Ok(Node::absent(alloc));
    };
    let_go(type_params);
    if params.children.len() == 0 {
        return Node::of(alloc, span, Kind::GetterProp, [key, return_type, body]);
    }
    Node::of(
        alloc,
        span,
        Kind::GetterProp,
        [key, return_type, body, params],
    )
}

/// Whether a pattern is the parameter `this`.
fn is_this(pattern: &Node) -> bool
    ensures { result ≡ is_this pattern.now }
{
    if !matches!(pattern.kind, Kind::BindingIdent) {
        return false;
    }
    match pattern.children.get(0) {
        Some(id) => is_this_ident(&id.kind),
        None => false,
    }
}

fn is_this_ident(kind: &Kind) -> bool
    ensures { result ≡ is_this_ident kind.now }
{
    match kind {
        Kind::Ident { sym, .. } => sym.as_str() == "this",
        _ => false,
    }
}

fn setter_of(
    alloc: Global,
    span: Span,
    key: Node,
    this_param: Node,
    param: Node,
    body: Node,
) -> Result<Node, NoMemory>
    ensures { IfOk result (λ x. x ≡ setter_of span key this_param param body) }
{
    Node::of(
        alloc,
        span,
        Kind::SetterProp,
        [key, this_param, param, body],
    )
}

/// A setter of one parameter, perhaps behind `this`; where they are others, all stand as a list in its place.
fn setter_by(
    alloc: Global,
    span: Span,
    key: Node,
    params: Node,
    body: Node,
) -> Result<Node, NoMemory>
    ensures { IfOk result (λ x. x ≡ setter_by span key params body (children_of params)) }
{
    match params.children.as_slice() {
        [param] if !is_this(param) => {
            let Node { children, .. } = params;
            match one(children) {
                Some(param) => setter_of(alloc, span, key, Node::absent(alloc), param, body),
                None => Ok(Node::absent(alloc)),
            }
        }
        [first, _] if is_this(first) => {
            let Node { children, .. } = params;
            match two(children) {
                Some((first, second)) => setter_of(alloc, span, key, first, second, body),
                None => Ok(Node::absent(alloc)),
            }
        }
        _ => setter_of(alloc, span, key, Node::absent(alloc), params, body),
    }
}

/// A setter of an object.
pub fn setter(alloc: Global, span: Span, items: Nodes) -> Result<Node, NoMemory>
    ensures { IfOk result (λ x. x ≡ framed 5 (setter span) items) }
{
    let Some((key, type_params, params, return_type, body)) = five(items) else {
        return Ok(Node::absent(alloc));
    };
    let_go(type_params);
    let_go(return_type);
    setter_by(alloc, span, key, params, body)
}
