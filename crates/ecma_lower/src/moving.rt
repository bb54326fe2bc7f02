//! `export =` at the end of a module.
ghost use Rattle.std.specs.Prelude.{◌≡◌, IfOk, OnOk};
ghost use Rattle.ecma_lower.specs.Moving.{exports_last, with_exports_last};

use crate::assignment::is_export_assignment;
use crate::items::{put_items, take_items};
use ecma_tree::{Module, NoMemory, Nodes};
use std::alloc::Global;

/// These items, with each `export =` behind all others.
#[tactic(auto, using(crate::proofs::Parted::parted))]
fn exports_last(alloc: Global, items: Nodes) -> Result<Nodes, NoMemory>
    ensures { IfOk result (λ moved. moved ≡ exports_last items) }
{
    let mut others = Nodes::new(alloc);
    let mut exports = Nodes::new(alloc);
    for item in items.into_vec() {
        if is_export_assignment(&item) {
            exports.push(item)?;
        } else {
            others.push(item)?;
        }
    }
    others.append(exports)?;
    Ok(others)
}

/// Moves each `export =` to the end of a module.
#[tactic(auto, using(crate::proofs::Putting::putting))]
pub(crate) fn put_exports_last(alloc: Global, tree: &mut Module) -> Result<(), NoMemory>
    ensures { OnOk result (tree.new ≡ with_exports_last tree.old) }
{
    let items = take_items(alloc, tree);
    let moved = exports_last(alloc, items)?;
    put_items(tree, moved);
    Ok(())
}
