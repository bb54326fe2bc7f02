//! Taking the contexts out of a tree.
ghost use Rattle.std.specs.Prelude.{◌≡◌};
ghost use Rattle.ecma_tree.specs.Contexts.{kind_with_context};
ghost use Rattle.ecma_scope.specs.Laws.{without_contexts};

use ecma_tree::{Kind, Node, SyntaxContext};

fn drop_context(kind: &mut Kind)
    ensures { kind.new ≡ kind_with_context (λ sym ctxt. 0) kind.old }
{
    if let Kind::Ident { ctxt, .. } = kind {
        *ctxt = SyntaxContext::empty();
    }
}

/// Gives the node and every node below it no context.
pub(crate) fn drop_contexts(node: &mut Node)
    ensures { node.new ≡ without_contexts node.old }
{
    let count = node.children.len();
    drop_context(&mut node.kind);
    for i in 0..count {
        drop_contexts(node.children.get_mut(i));
    }
}
