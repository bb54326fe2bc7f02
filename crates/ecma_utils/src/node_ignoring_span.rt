//! Nodes that are compared, and fed to a hasher, without their spans.
ghost use Rattle.std.specs.Prelude.{◌≡◌, fold, get_or, map, []};
ghost use Rattle.std.specs.Cmp.{on_equiv, on_per, partial_equiv_from_equiv};
ghost use Rattle.ecma_tree.specs.declared.node.Node.{out-Node};
ghost use Rattle.ecma_utils.specs.IgnoringSpans.{EqualsHashAlike, SameIsEqualButForSpans, SpansChangeNeither, fed_tree, held, same_tree};
ghost use Rattle.ecma_utils.specs.IgnoringLaws.{equals_hash_alike, same_equivalence};

use ecma_tree::{Kind, Node, same_but_for_spans};
use std::hash::{Hash, Hasher};

/// A node that is compared without the spans in it. An expression may so be a key of std's maps and sets: expressions that are equal but
/// for spans are one key. No call takes memory.
#[derive(Debug, Drop)]
pub enum NodeIgnoringSpan<'a, T> {
    Borrowed(&'a T),
    Owned(T),
}

impl<'a, T> NodeIgnoringSpan<'a, T> {
    pub fn borrowed(node: &'a T) -> NodeIgnoringSpan<'a, T>
        ensures { held result ≡ node.now }
    {
        NodeIgnoringSpan::Borrowed(node)
    }

    pub fn owned(node: T) -> NodeIgnoringSpan<'a, T>
        ensures { held result ≡ node }
    {
        NodeIgnoringSpan::Owned(node)
    }

    fn held(&self) -> &T
        ensures { result.now ≡ held self.now }
    {
        match self {
            NodeIgnoringSpan::Borrowed(node) => node,
            NodeIgnoringSpan::Owned(node) => node,
        }
    }
}

fn is_same(node: &Node, other: &Node) -> bool
    ensures { result ≡ same_tree node.now other.now }
{
    same_but_for_spans(node, other)
}

/// Nodes of the same kinds with all their data, in the same shape.
impl<'a> PartialEq for NodeIgnoringSpan<'a, Node> {
    ghost eq = { λ a b. same_tree (held a) (held b) };

    ghost laws = { on_per held (partial_equiv_from_equiv same_equivalence) };

    fn eq(&self, other: &NodeIgnoringSpan<'a, Node>) -> bool {
        is_same(self.held(), other.held())
    }
}

impl<'a> Eq for NodeIgnoringSpan<'a, Node> {
    ghost laws = { on_equiv held same_equivalence };
}

/// Feeds the child at an index, if it is there.
#[cycle(feeding)]
#[tactic(auto, using(crate::proofs::Ignoring::feeding))]
fn feed_at<H: Hasher>(node: &Node, index: usize, state: &mut H)
    ensures { state.new ≡ fold H.write state.old
        (get_or (map fed_tree (out-Node node.now).children) index []) }
{
    if let Some(child) = node.children.get(index) {
        feed(child, state);
    }
}

/// Feeds a name's text; of a member its object, and then a key that is a name; of all else nothing.
#[cycle(feeding)]
#[tactic(auto, using(crate::proofs::Ignoring::feeding), unfolding(crate::specs::IgnoringSpans::fed_by))]
fn feed<H: Hasher>(node: &Node, state: &mut H)
    ensures { state.new ≡ fold H.write state.old (fed_tree node.now) }
{
    match &node.kind {
        Kind::Ident { sym, .. } => sym.hash(state),
        Kind::IdentName { sym } => sym.hash(state),
        Kind::MemberExpr => {
            feed_at(node, 0, state);
            feed_at(node, 1, state);
        }
        _ => {}
    }
}

/// A name feeds its text, a member its object and then a key that is a name; all other expressions feed nothing.
impl<'a> Hash for NodeIgnoringSpan<'a, Node> {
    ghost hash_input = { λ node. fed_tree (held node) };

    ghost respects_eq = { λ a b. equals_hash_alike (held a) (held b) };

    fn hash<H: Hasher>(&self, state: &mut H) {
        feed(self.held(), state);
    }
}

/// Two are equal exactly where their nodes are equal but for spans.
pub fn equal_ones_are_equal_but_for_spans()
    ensures { SameIsEqualButForSpans }
{}

/// Equal ones feed a hasher alike.
pub fn equal_ones_hash_alike()
    ensures { EqualsHashAlike }
{}

/// Spans change neither what a node feeds a hasher nor what it is equal to.
pub fn spans_change_neither()
    ensures { SpansChangeNeither }
{}
