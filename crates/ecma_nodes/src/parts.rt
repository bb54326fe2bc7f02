//! Flags as nodes.
ghost use Rattle.std.specs.Prelude.{◌≡◌};
ghost use Rattle.ecma_grammar.specs.trees.Parts.{flag_node};

use ecma_grammar::Flag;
use ecma_tree::{DUMMY_SP, Kind, Node};
use std::alloc::Global;

/// A flag as a node.
pub fn flag_node(alloc: Global, flag: Flag) -> Node
    ensures { result ≡ flag_node flag }
{
    match flag {
        Flag::Absent => Node::absent(alloc),
        Flag::Present => Node::leaf(alloc, DUMMY_SP, Kind::Bool { value: true }),
    }
}
