//! Names of properties.
ghost use Rattle.std.specs.Prelude.{◌≡◌, IfOk, bytes_eq};
ghost use Rattle.ecma_number.specs.Text.{text_of};
ghost use Rattle.ecma_kind.specs.declared.kind.Kind.TheVariants as kind;
ghost use Rattle.ecma_tree.specs.declared.node.Node.{out-Node};
ghost use Rattle.ecma_tree.specs.Nodes.{node_of};
ghost use Rattle.ecma_utils.specs.PropNames.{is_text_of, key_expr, key_is, key_value, literal_is_by, member_key, only_literal_is, only_or};

use ecma_number::JsNumber;
use ecma_tree::{DUMMY_SP, Expr, Kind, NoMemory, Node, Nodes, Span, SyntaxContext};
use itoa::Buffer;
use short_texts::is_same;
use std::alloc::Global;

/// What stands in brackets.
fn inner(span: Span, mut children: Nodes) -> Expr
    ensures { result ≡ only_or (node_of span kind.ComputedPropName children) children }
{
    if children.len() == 1 {
        if let Some(expr) = children.pop() {
            return expr;
        }
    }
    Node::new(span, Kind::ComputedPropName, children)
}

/// The expression of a key: a name as an identifier in the empty context, what stands in brackets, and a literal itself.
#[tactic(auto, using(crate::proofs::Rebuilding::rebuilt))]
pub fn prop_name_to_expr(key: Node) -> Expr
    ensures { result ≡ key_expr key }
{
    let Node {
        span,
        kind,
        children,
    } = key;
    match kind {
        Kind::IdentName { sym } => {
            let ctxt = SyntaxContext::empty();
            let optional = false;
            Node::new(
                span,
                Kind::Ident {
                    sym,
                    ctxt,
                    optional,
                },
                children,
            )
        }
        Kind::ComputedPropName => inner(span, children),
        kind => Node::new(span, kind, children),
    }
}

/// The value of a key: a name as a text, what stands in brackets, and a literal itself. Its only refusal is want of memory.
#[tactic(auto, using(crate::proofs::Rebuilding::rebuilt))]
pub fn prop_name_to_expr_value(_alloc: Global, key: Node) -> Result<Expr, NoMemory>
    ensures { IfOk result (λ node. node ≡ key_value key) }
{
    let Node {
        span,
        kind,
        children,
    } = key;
    match kind {
        Kind::IdentName { sym } => Ok(Node::new(
            span,
            Kind::Str {
                value: sym,
                raw: None,
            },
            children,
        )),
        Kind::ComputedPropName => Ok(inner(span, children)),
        kind => Ok(Node::new(span, kind, children)),
    }
}

/// The key behind an object: a name and a key in brackets as they are, and a literal in brackets. Its only refusal is want of memory.
pub fn prop_name_to_member_prop(alloc: Global, key: Node) -> Result<Node, NoMemory>
    ensures { IfOk result (λ node. node ≡ member_key key) }
{
    match &key.kind {
        Kind::IdentName { .. } => Ok(key),
        Kind::ComputedPropName => Ok(key),
        _ => Node::computed_prop_name(alloc, DUMMY_SP, key),
    }
}

/// Whether this is the text of a Number.
fn number_is(text: &str, value: JsNumber) -> bool
    ensures { result ≡ bytes_eq (text_of value) text.now }
{
    match value {
        JsNumber::NaN => is_same("NaN", text),
        JsNumber::NegZero => is_same("0", text),
        JsNumber::Infinity => is_same("Infinity", text),
        JsNumber::NegInfinity => is_same("-Infinity", text),
        JsNumber::Whole(number) => {
            let mut buffer = Buffer::new();
            is_same(buffer.format(number.get()), text)
        }
    }
}

fn is_text_of(text: &str, value: Option<JsNumber>) -> bool
    ensures { result ≡ is_text_of text.now value }
{
    match value {
        Some(value) => number_is(text, value),
        None => false,
    }
}

fn literal_is(text: &str, node: &Node) -> bool
    ensures { result ≡ literal_is_by text.now (out-Node node.now).kind }
{
    match &node.kind {
        Kind::Str { value, .. } => is_same(value.as_str(), text),
        _ => false,
    }
}

fn only_literal_is(text: &str, children: &Nodes) -> bool
    ensures { result ≡ only_literal_is text.now children.now }
{
    children.len() == 1 && literal_is(text, children.at(0))
}

/// Whether this is the text of a key that is written out: a name, a text, a number whose value has this text, or a text in brackets.
pub fn prop_name_eq(key: &Node, text: &str) -> bool
    ensures { result ≡ key_is text.now key.now }
{
    match &key.kind {
        Kind::IdentName { sym } => is_same(sym.as_str(), text),
        Kind::Str { value, .. } => is_same(value.as_str(), text),
        Kind::Number { value, .. } => is_text_of(text, *value),
        Kind::ComputedPropName => only_literal_is(text, &key.children),
        _ => false,
    }
}
