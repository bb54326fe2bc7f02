//! Changes of every node by its kind alone.
ghost use Rattle.std.specs.Prelude.{◌≡◌, map};
ghost use Rattle.ecma_kind.specs.declared.kind.Kind.{Kind};
ghost use Rattle.ecma_tree.specs.Changing.{changed};
ghost use Rattle.ecma_forest.specs.Changes.{KeepsSummaries, same_span};

use crate::forest::Forest;
use ecma_tree::Kind;

/// A change of every node by its kind alone.
pub trait Change {
    ghost kind_to: { Self → Kind → Kind };

    /// Changes a kind.
    fn change(&self, kind: &mut Kind)
        ensures { kind.new ≡ kind_to self.now kind.old };

    ghost keeps: { (rules : Self) → KeepsSummaries (kind_to rules) };
}

impl Forest {
    /// Changes the nodes of all trees where they stand: each kind once, however many nodes are of it.
    pub fn change<C: Change>(&mut self, change: &C)
        ensures below { self.new.below ≡ map (changed same_span (C.kind_to change.now)) self.old.below }
        ensures roots { self.new.roots ≡ map (changed same_span (C.kind_to change.now)) self.old.roots }
    {
        self.kinds.change(change);
    }
}
