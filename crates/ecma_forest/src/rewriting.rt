//! Rewriting from the leaves up, with what stays shared.
ghost use Rattle.std.specs.Prelude.{◌≡◌, Bool, ◌≤◌, ◌<◌, ◌++◌, List, OnErr, OnOk, length, take, drop};
ghost use Rattle.ecma_kind.specs.declared.span.Span.{Span};
ghost use Rattle.ecma_kind.specs.declared.kind.Kind.{Kind};
ghost use Rattle.ecma_tree.specs.declared.node.Node.{Node, out-Node};
ghost use Rattle.ecma_forest.specs.Summaries.{AsksByParts};
ghost use Rattle.ecma_forest.specs.Rewriting.{ChangesAskedAlone, rewritten};
ghost use Rattle.ecma_forest.specs.declared.summary.Summary.{Summary};
ghost use Rattle.ecma_forest.specs.Slots.{Extends};
ghost use Rattle.ecma_forest.specs.Trees.{node};

use crate::forest::Forest;
use crate::summary::Summary;
use ecma_tree::NoMemory;

/// What becomes of a node once its children are rewritten: no node, one, or several.
pub trait Rule {
    ghost rule: { Self → Span → Kind → List Node → List Node };

    ghost works_at: { Self → Summary → Bool };

    /// Whether there may be something to do in a tree of this summary.
    fn works_at(&self, summary: Summary) -> bool
        ensures { result ≡ works_at self.now summary };

    /// Puts what the node at a place becomes in the place of its children, which are the roots from start on. Without memory
    /// those in front of start stay.
    fn apply(&self, forest: &mut Forest, at: u32, start: usize) -> Result<(), NoMemory>
        requires at { at < length forest.old.below }
        requires start { start ≤ length forest.old.roots }
        ensures more { Extends forest.old.below forest.new.below }
        ensures ok { OnOk result (forest.new.roots ≡ take start forest.old.roots ++ rule self.now (out-Node (node forest.old at)).span (out-Node (node forest.old at)).kind (drop start forest.old.roots)) }
        ensures err { OnErr result (Extends (take start forest.old.roots) forest.new.roots) };

    ghost joins: { (rules : Self) → AsksByParts (works_at rules) };

    ghost others_stay: { (rules : Self) → ChangesAskedAlone (works_at rules) (rule rules) };
}

/// Puts the tree at a place, rewritten from the leaves up, behind the roots. A tree in which there is nothing to do,
/// by its summary, is shared and not looked into. Without memory the roots are what they were.
pub fn rewrite<R: Rule>(rule: &R, forest: &mut Forest, at: u32) -> Result<(), NoMemory>
    requires { at < length forest.old.below }
    ensures more { Extends forest.old.below forest.new.below }
    ensures ok { OnOk result (forest.new.roots ≡ forest.old.roots ++ rewritten (R.rule rule.now) (node forest.old at)) }
    ensures err { OnErr result (forest.new.roots ≡ forest.old.roots) }
{
    if !rule.works_at(forest.summary(at)) {
        forest.keep(at)?;
        return Ok(());
    }
    let start = forest.len();
    for i in 0..forest.count(at) {
        let child = forest.child(at, i);
        if let Err(error) = rewrite(rule, forest, child) {
            forest.cut(start);
            return Err(error);
        }
    }
    if let Err(error) = rule.apply(forest, at, start) {
        forest.cut(start);
        return Err(error);
    }
    Ok(())
}
