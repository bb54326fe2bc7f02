//! The ids that are declared in a node.
ghost use Rattle.std.specs.Prelude.{◌≡◌, ◌++◌, OnOk};
ghost use Rattle.ecma_hygiene.specs.Ids.{declared_by, declared_here, declared_ids};

use crate::soughts::{is_declared, soughts_in};
use ecma_scope::Sought;
use ecma_tree::{Id, Kind, NoMemory, Node};
use item_list::ItemList;
use std::alloc::Global;

fn push_declared_by(declared: bool, kind: &Kind, ids: &mut ItemList<Id>) -> Result<(), NoMemory>
    ensures { OnOk result (ids.new ≡ ids.old ++ declared_by declared kind.now) }
{
    if declared {
        if let Kind::Ident { sym, ctxt, .. } = kind {
            ids.push((sym.clone()?, *ctxt))?;
        }
    }
    Ok(())
}

/// Puts the ids that are declared in a node after those that are there.
pub(crate) fn push_declared(
    alloc: Global,
    soughts: &ItemList<Sought>,
    node: &Node,
    ids: &mut ItemList<Id>,
) -> Result<(), NoMemory>
    ensures { OnOk result (ids.new ≡ ids.old ++ declared_ids node.now soughts.now) }
{
    if soughts.is_empty() {
        return Ok(());
    }
    push_declared_by(is_declared(soughts), &node.kind, ids)?;
    for i in 0..node.children.len() {
        let inner = soughts_in(alloc, soughts, node, i)?;
        push_declared(alloc, &inner, node.children.at(i), ids)?;
    }
    Ok(())
}
