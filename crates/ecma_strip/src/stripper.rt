//! The pass that takes the types out of a tree of the whole language.
ghost use Rattle.std.specs.Prelude.{◌≡◌, filter, IsOk};
ghost use Rattle.ecma_tree.specs.Nodes.{node_of};
ghost use Rattle.ecma_tree.specs.declared.node.Node.{out-Node};
ghost use Rattle.ecma_strip.specs.Staying.{stays};
ghost use Rattle.ecma_strip.specs.Stripping.{staying_nodes, stripped};

use crate::plain::make_plain;
use crate::staying::stays;
use ecma_tree::{Kind, Module, NoMemory, Node};
use std::alloc::Global;

/// The pass that takes the types out of a module.
#[derive(Drop)]
pub struct TypeStripper {}

/// The pass that takes the types out of a module: [`TypeStripper::visit_mut_module`] runs it. It takes no memory.
pub fn strip_type() -> TypeStripper {
    TypeStripper {}
}

impl TypeStripper {
    /// Takes the types out of a module, all the way down (docs/STRIPPING.md is the table). It needs no memory, so it
    /// never refuses.
    pub fn visit_mut_module(&mut self, alloc: Global, module: &mut Module) -> Result<(), NoMemory>
        ensures done { IsOk result }
        ensures tree { «module».new ≡ stripped «module».old }
    {
        strip(alloc, module);
        Ok(())
    }
}

/// Drops what goes from a list.
fn drop_items(list: &mut Node)
    ensures { list.new ≡ node_of (out-Node list.old).span (out-Node list.old).kind (filter stays (out-Node list.old).children) }
{
    list.children.retain(|item| stays(item));
}

/// Drops what goes from a node that is a list.
fn drop_from_list(node: &mut Node)
    ensures { node.new ≡ node_of (out-Node node.old).span (out-Node node.old).kind (staying_nodes (out-Node node.old).kind (out-Node node.old).children) }
{
    match &node.kind {
        Kind::List => drop_items(node),
        _ => {}
    }
}

/// Takes the types out of a node with all below it: first what goes from a list, then the types in what is left, then those
/// of the node itself.
fn strip(alloc: Global, node: &mut Node)
    ensures { node.new ≡ stripped node.old }
{
    drop_from_list(node);
    let count = node.children.len();
    for i in 0..count {
        strip(alloc, node.children.get_mut(i));
    }
    make_plain(alloc, node);
}
