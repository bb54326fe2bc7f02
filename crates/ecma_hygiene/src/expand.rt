//! Two names where there was one: what is a key, or a name for others, keeps its text.
ghost use Rattle.std.specs.Prelude.{◌≡◌, [], ◌∷◌, IfOk, OnOk};
ghost use Rattle.ecma_kind.specs.declared.kind.Kind.TheVariants as kind;
ghost use Rattle.ecma_tree.specs.declared.node.Node.{out-Node};
ghost use Rattle.ecma_tree.specs.Nodes.{node_of};
ghost use Rattle.ecma_hygiene.specs.Renamed.{expanded, expanded_by, key_of, kind_is_absent, name_of, property_key, proto_in_brackets, two_names, two_patterns, with_default};

use ecma_tree::{JsWord, Kind, NoMemory, Node, Nodes, Span, SyntaxContext};
use std::alloc::Global;
use std::mem;

/// The old text of an identifier that gets another, and where it stands.
#[derive(Drop)]
pub(crate) struct OldName {
    pub(crate) text: JsWord,
    pub(crate) span: Span,
}

fn key_of(alloc: Global, old: OldName) -> Node
    ensures { result ≡ key_of old }
{
    let OldName { text, span } = old;
    Node::leaf(alloc, span, Kind::IdentName { sym: text })
}

/// `["__proto__"]`, in the place of an identifier.
fn proto_in_brackets(alloc: Global, span: Span) -> Result<Node, NoMemory>
    ensures { IfOk result (λ node. node ≡ proto_in_brackets span) }
{
    let value = JsWord::new(alloc, "__proto__")?;
    let raw = Some(JsWord::new(alloc, "\"__proto__\"")?);
    let text = Node::leaf(alloc, span, Kind::Str { value, raw });
    Node::of(alloc, span, Kind::ComputedPropName, [text])
}

/// The key of a property that is written in the place of a shorthand. `__proto__` stands in brackets: as a plain key it would set
/// the prototype (ECMAScript, B.3.1).
fn property_key(alloc: Global, old: OldName) -> Result<Node, NoMemory>
    ensures { IfOk result (λ key. key ≡ property_key old) }
{
    if old.text.as_str() == "__proto__" {
        return proto_in_brackets(alloc, old.span);
    }
    Ok(key_of(alloc, old))
}

fn name_of(alloc: Global, old: OldName) -> Node
    ensures { result ≡ name_of old }
{
    let OldName { text, span } = old;
    let ctxt = SyntaxContext::empty();
    let optional = false;
    Node::leaf(
        alloc,
        span,
        Kind::Ident {
            sym: text,
            ctxt,
            optional,
        },
    )
}

pub(crate) fn is_absent(node: &Node) -> bool
    ensures { result ≡ kind_is_absent node.now }
{
    matches!(node.kind, Kind::Absent)
}

/// A shorthand becomes a key with its value.
fn expand_shorthand(alloc: Global, old: OldName, node: &mut Node) -> Result<(), NoMemory>
    ensures { OnOk result (node.new ≡ node_of (out-Node node.old).span kind.KeyValueProp (property_key old ∷ node.old ∷ [])) }
{
    let span = node.span;
    let key = property_key(alloc, old)?;
    let value = mem::replace(node, Node::absent(alloc));
    *node = Node::of(alloc, span, Kind::KeyValueProp, [key, value])?;
    Ok(())
}

/// A specifier gets its second name.
#[tactic(auto, using(crate::proofs::Writing::writing))]
fn write_two_names(alloc: Global, old: OldName, children: &mut Nodes)
    ensures { children.new ≡ two_names old children.old }
{
    if children.len() == 2 {
        children.set(1, name_of(alloc, old));
    }
}

fn with_default(alloc: Global, span: Span, pattern: Node, value: Node) -> Result<Node, NoMemory>
    ensures { IfOk result (λ node. node ≡ with_default span pattern value) }
{
    if is_absent(&value) {
        return Ok(pattern);
    }
    Node::of(alloc, span, Kind::AssignPat, [pattern, value])
}

/// A shorthand pattern becomes a key with its pattern.
#[tactic(auto, using(crate::proofs::Writing::writing))]
fn write_two_patterns(alloc: Global, old: OldName, node: &mut Node) -> Result<(), NoMemory>
    ensures { OnOk result (node.new ≡ two_patterns old node.old (out-Node node.old).children) }
{
    if node.children.len() != 2 {
        return Ok(());
    }
    let span = node.span;
    let value = node.children.replace(1, Node::absent(alloc));
    let pattern = node.children.replace(0, Node::absent(alloc));
    let pattern = with_default(alloc, span, pattern, value)?;
    let key = key_of(alloc, old);
    *node = Node::of(alloc, span, Kind::KeyValuePatProp, [key, pattern])?;
    Ok(())
}

/// Puts the old text of a node's shared name beside the new one.
#[tactic(auto, unfolding(crate::specs::Renamed::expanded_by))]
fn expand_here(alloc: Global, old: OldName, node: &mut Node) -> Result<(), NoMemory>
    ensures { OnOk result (node.new ≡ expanded_by (out-Node node.old).kind old node.old) }
{
    match &node.kind {
        Kind::Ident { .. } => expand_shorthand(alloc, old, node)?,
        Kind::ImportNamedSpecifier { .. } => write_two_names(alloc, old, &mut node.children),
        Kind::ExportNamedSpecifier { .. } => write_two_names(alloc, old, &mut node.children),
        Kind::AssignPatProp => write_two_patterns(alloc, old, node)?,
        _ => {}
    }
    Ok(())
}

/// The same where a node has a shared name that gets another text.
pub(crate) fn expand(alloc: Global, old: Option<OldName>, node: &mut Node) -> Result<(), NoMemory>
    ensures { OnOk result (node.new ≡ expanded old node.old) }
{
    match old {
        Some(old) => expand_here(alloc, old, node),
        None => Ok(()),
    }
}
