//! Taking the spans out of a tree.
ghost use Rattle.std.specs.Prelude.{◌≡◌};
ghost use Rattle.ecma_tree.specs.Spans.{without_spans};

use crate::node::Node;
use ecma_kind::DUMMY_SP;

/// Gives the node and every node below it the span of what stands in no text.
pub fn drop_spans(node: &mut Node)
    ensures { node.new ≡ without_spans node.old }
{
    let count = node.children.len();
    node.span = DUMMY_SP;
    for i in 0..count {
        drop_spans(node.children.get_mut(i));
    }
}
