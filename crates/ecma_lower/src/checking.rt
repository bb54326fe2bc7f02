//! What is not lowered: assignments that a module of ECMAScript cannot have, and a second `export =`.
ghost use Rattle.std.specs.Prelude.{◌≡◌, slice_get};
ghost use Rattle.ecma_lower.specs.Assignments.{is_assignment};
ghost use Rattle.ecma_lower.specs.Checking.{answer, first_refusal, places_of, refuses_exports, refuses_imports};
ghost use Rattle.ecma_lower.specs.Items.{items_of};

use crate::assignment::{Assignment, is_assignment};
use crate::error::LowerError;
use ecma_config::{Config, TsImportExportAssignConfig};
use ecma_tree::{Module, Node};
use std::alloc::Global;

fn refuses_imports(assign: TsImportExportAssignConfig) -> bool
    ensures { result ≡ refuses_imports assign }
{
    matches!(assign, TsImportExportAssignConfig::EsNext)
}

fn refuses_exports(assign: TsImportExportAssignConfig) -> bool
    ensures { result ≡ refuses_exports assign }
{
    matches!(
        assign,
        TsImportExportAssignConfig::NodeNext | TsImportExportAssignConfig::EsNext
    )
}

/// Where the assignment stands before which there are so many others of its form.
#[tactic(auto, using(crate::proofs::Places::places))]
fn nth_place(form: Assignment, items: &[Node], n: usize) -> Option<u32>
    ensures { result ≡ slice_get (places_of (is_assignment form) items.now) n }
{
    let mut left = n;
    for i in 0..items.len() {
        if is_assignment(form, &items[i]) {
            if left == 0 {
                return Some(items[i].span.lo);
            }
            left -= 1;
        }
    }
    None
}

/// The same of the items of a module.
fn nth_place_in(form: Assignment, tree: &Module, n: usize) -> Option<u32>
    ensures { result ≡ slice_get (places_of (is_assignment form) (items_of tree.now)) n }
{
    match tree.children.get(0) {
        Some(list) => nth_place(form, list.children.as_slice(), n),
        None => None,
    }
}

/// The first refusal that holds.
fn first_refusal(tree: &Module, assign: TsImportExportAssignConfig) -> Option<LowerError>
    ensures { result ≡ first_refusal assign tree.now }
{
    if let Some(at) = nth_place_in(Assignment::Export, tree, 1) {
        return Some(LowerError::ExportAssignTwice { at });
    }
    if refuses_imports(assign) {
        if let Some(at) = nth_place_in(Assignment::Import, tree, 0) {
            return Some(LowerError::ImportAssign { at });
        }
    }
    if refuses_exports(assign) {
        if let Some(at) = nth_place_in(Assignment::Export, tree, 0) {
            return Some(LowerError::ExportAssign { at });
        }
    }
    None
}

/// Refuses what is not lowered, of a module without what elision drops. The first of these that holds is answered, of one kind the first in the text:
/// a second `export =`; under `EsNext` an `import a = require("m")`; under `NodeNext` and `EsNext` an `export =`. It takes no memory yet.
pub fn check_lowering(_alloc: Global, tree: &Module, config: &Config) -> Result<(), LowerError>
    ensures { result ≡ answer (first_refusal config.now.import_export_assign_config tree.now) }
{
    match first_refusal(tree, config.import_export_assign_config) {
        Some(refusal) => Err(refusal),
        None => Ok(()),
    }
}
