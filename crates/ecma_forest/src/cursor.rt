//! Reading a tree where it stands.
ghost use Rattle.std.specs.Prelude.{◌≡◌, ◌<◌, length, slice_get, Some};
ghost use Rattle.ecma_tree.specs.declared.node.Node.{out-Node};
ghost use Rattle.ecma_forest.specs.Trees.{node};
ghost use Rattle.ecma_forest.specs.Summaries.{tree_summary};

use crate::forest::Forest;
use crate::summary::Summary;
use ecma_tree::{Kind, Span};
use std::marker::Model;

/// A tree that is read where it stands.
#[derive(Drop)]
pub struct Cursor<'a> {
    forest: &'a Forest,
    at: u32,
}

impl<'a> Model for Cursor<'a> {
    ghost use Rattle.std.specs.Prelude.{◌<◌, length};
    ghost use Rattle.ecma_tree.specs.declared.node.Node.{Node};
    ghost use Rattle.ecma_tree.specs.contracts.node.Node as e;
    ghost use Rattle.std.specs.Coded.{codes};
    ghost use Rattle.ecma_forest.specs.Trees.{node};

    ghost Value = { Node };

    ghost coded = { Prim.hlevel (codes, e.the_row.coded) };

    ghost view = { λ c. node c.forest.now c.at };

    ghost invariant = { λ c. c.at < length c.forest.now.below };
}

impl<'a> Cursor<'a> {
    /// Where it stands.
    pub fn span(&self) -> Span
        ensures { result ≡ (out-Node self.now).span }
    {
        self.forest.span(self.at)
    }

    /// What it is.
    pub fn kind(&self) -> &'a Kind
        ensures { result.now ≡ (out-Node self.now).kind }
    {
        self.forest.kind(self.at)
    }

    /// How many children it has.
    pub fn count(&self) -> u32
        ensures { result ≡ length (out-Node self.now).children }
    {
        self.forest.count(self.at)
    }

    /// What stands somewhere in it. It does not look below.
    pub fn summary(&self) -> Summary
        ensures { result ≡ tree_summary self.now }
    {
        self.forest.summary(self.at)
    }

    /// The child of an index.
    pub fn child(&self, i: u32) -> Cursor<'a>
        requires { i < length (out-Node self.now).children }
        ensures { slice_get (out-Node self.now).children i ≡ Some result }
    {
        Cursor {
            forest: self.forest,
            at: self.forest.child(self.at, i),
        }
    }
}

impl Forest {
    /// The tree at a place.
    pub fn at(&self, at: u32) -> Cursor<'_>
        requires { at < length self.now.below }
        ensures { result ≡ node self.now at }
    {
        Cursor { forest: self, at }
    }
}
