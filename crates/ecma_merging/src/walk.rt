//! What is found in all lists of a tree.
ghost use Rattle.std.specs.Prelude.{◌≡◌, ◌++◌, OnOk};
ghost use Rattle.ecma_tree.specs.declared.node.Node.{out-Node};
ghost use Rattle.ecma_merging.specs.Merging.{found, found_here, is_ambient_in};

use crate::asked::Asked;
use crate::finding::Finding;
use crate::list::push_in;
use ecma_tree::{Kind, NoMemory, Node};
use item_list::ItemList;
use std::alloc::Global;

/// Whether what stands in a node of this kind is ambient.
#[tactic(auto, unfolding(crate::specs::Merging::is_ambient_in))]
fn is_ambient_in(ambient: bool, kind: &Kind) -> bool
    ensures { result ≡ is_ambient_in ambient kind.now }
{
    match kind {
        Kind::TsModuleDecl { declare, .. } => *declare || ambient,
        Kind::TsNamespaceDecl { declare, .. } => *declare || ambient,
        _ => ambient,
    }
}

fn push_here(
    alloc: Global,
    asked: Asked,
    ambient: bool,
    node: &Node,
    findings: &mut ItemList<Finding>,
) -> Result<(), NoMemory>
    ensures { OnOk result (findings.new ≡ findings.old ++ found_here asked ambient node.now) }
{
    match &node.kind {
        Kind::List => push_in(alloc, asked, ambient, node.children.as_slice(), findings),
        _ => Ok(()),
    }
}

/// Puts what is found in a node, and in all below it, behind what is there.
pub(crate) fn push_found(
    alloc: Global,
    asked: Asked,
    ambient: bool,
    node: &Node,
    findings: &mut ItemList<Finding>,
) -> Result<(), NoMemory>
    ensures { OnOk result (findings.new ≡ findings.old ++ found asked node.now ambient) }
{
    push_here(alloc, asked, ambient, node, findings)?;
    let inner = is_ambient_in(ambient, &node.kind);
    for i in 0..node.children.len() {
        push_found(alloc, asked, inner, node.children.at(i), findings)?;
    }
    Ok(())
}
