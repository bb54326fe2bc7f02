//! The children of a node by their names.
ghost use Rattle.std.specs.Prelude.{IfSome, IsNone};
ghost use Rattle.ecma_tree.specs.Children.{HasChild};
ghost use Rattle.ecma_tree.specs.declared.node.Node.{Node};

use crate::node::Node;
use ecma_kind::{Field, field_index};

impl Node {
    /// The child of this name; `None` exactly where nodes of its kind have no such child, or where it has too few
    /// children.
    pub fn child(&self, field: Field) -> Option<&Node>
        ensures some { IfSome result (λ child. HasChild field self.now child.now) }
        ensures none { IsNone result → (child : Node) → HasChild field self.now child → ⊥ }
    {
        let index = field_index(&self.kind, field)?;
        self.children.get(index)
    }
}
