//! Two names where there was one: what is a key, or a name for others, stays.
ghost use Rattle.std.specs.Prelude.{◌≡◌, [], ◌∷◌, IfOk, OnOk};
ghost use Rattle.ecma_kind.specs.declared.kind.Kind.TheVariants as kind;
ghost use Rattle.ecma_tree.specs.declared.node.Node.{out-Node};
ghost use Rattle.ecma_tree.specs.Nodes.{node_of};
ghost use Rattle.ecma_renamers.specs.Renaming.{expanded, expanded_by, key_of, kind_is_absent, name_of, two_names, two_patterns, with_default};

use ecma_tree::{Ident, Kind, NoMemory, Node, Nodes, Span, SyntaxContext};
use std::alloc::Global;
use std::mem;

fn key_of(alloc: Global, old: Ident) -> Node
    ensures { result ≡ key_of old }
{
    let Ident { span, sym, .. } = old;
    Node::leaf(alloc, span, Kind::IdentName { sym })
}

fn name_of(alloc: Global, old: Ident) -> Node
    ensures { result ≡ name_of old }
{
    let Ident { span, sym, .. } = old;
    let ctxt = SyntaxContext::empty();
    let optional = false;
    Node::leaf(
        alloc,
        span,
        Kind::Ident {
            sym,
            ctxt,
            optional,
        },
    )
}

pub(crate) fn is_absent(node: &Node) -> bool
    ensures { result ≡ kind_is_absent node.now }
{
    matches!(node.kind, Kind::Absent)
}

/// A shorthand becomes a key with its value.
fn expand_shorthand(alloc: Global, span: Span, old: Ident, node: &mut Node) -> Result<(), NoMemory>
    ensures { OnOk result (node.new ≡ node_of span kind.KeyValueProp (key_of old ∷ node.old ∷ [])) }
{
    let key = key_of(alloc, old);
    let value = mem::replace(node, Node::absent(alloc));
    *node = Node::of(alloc, span, Kind::KeyValueProp, [key, value])?;
    Ok(())
}

/// A specifier gets its second name.
#[tactic(auto, using(crate::proofs::Writing::writing))]
fn write_two_names(alloc: Global, old: Ident, children: &mut Nodes)
    ensures { children.new ≡ two_names old children.old }
{
    if children.len() == 2 {
        children.set(1, name_of(alloc, old));
    }
}

fn with_default(alloc: Global, span: Span, pattern: Node, value: Node) -> Result<Node, NoMemory>
    ensures { IfOk result (λ node. node ≡ with_default span pattern value) }
{
    if is_absent(&value) {
        return Ok(pattern);
    }
    Node::of(alloc, span, Kind::AssignPat, [pattern, value])
}

/// A shorthand pattern becomes a key with its pattern.
#[tactic(auto, using(crate::proofs::Writing::writing))]
fn write_two_patterns(alloc: Global, old: Ident, node: &mut Node) -> Result<(), NoMemory>
    ensures { OnOk result (node.new ≡ two_patterns old node.old (out-Node node.old).children) }
{
    if node.children.len() != 2 {
        return Ok(());
    }
    let span = node.span;
    let value = node.children.replace(1, Node::absent(alloc));
    let pattern = node.children.replace(0, Node::absent(alloc));
    let pattern = with_default(alloc, span, pattern, value)?;
    let key = key_of(alloc, old);
    *node = Node::of(alloc, span, Kind::KeyValuePatProp, [key, pattern])?;
    Ok(())
}

/// Puts a node's shared name as it was beside the new one.
#[tactic(auto, unfolding(crate::specs::Renaming::expanded_by))]
fn expand_here(alloc: Global, span: Span, old: Ident, node: &mut Node) -> Result<(), NoMemory>
    ensures { OnOk result (node.new ≡ expanded_by (out-Node node.old).kind span old node.old) }
{
    match &node.kind {
        Kind::Ident { .. } => expand_shorthand(alloc, span, old, node)?,
        Kind::ImportNamedSpecifier { .. } => write_two_names(alloc, old, &mut node.children),
        Kind::ExportNamedSpecifier { .. } => write_two_names(alloc, old, &mut node.children),
        Kind::AssignPatProp => write_two_patterns(alloc, old, node)?,
        _ => {}
    }
    Ok(())
}

/// The same where a node of this span has a shared name that gets a second one.
pub(crate) fn expand(
    alloc: Global,
    span: Span,
    old: Option<Ident>,
    node: &mut Node,
) -> Result<(), NoMemory>
    ensures { OnOk result (node.new ≡ expanded span old node.old) }
{
    match old {
        Some(old) => expand_here(alloc, span, old, node),
        None => Ok(()),
    }
}
