//! The check.
ghost use Rattle.std.specs.Prelude.{◌≡◌, IfOk};
ghost use Rattle.ecma_merging.specs.Merging.{Answers, first_found, first_mixed, first_twice};

use crate::asked::Asked;
use crate::error::MergeError;
use crate::finding::soonest_name;
use crate::walk::push_found;
use ecma_tree::{JsWord, Module, NoMemory};
use item_list::ItemList;
use std::alloc::Global;

/// The name that is found first in the text, if there is one.
fn first_found(alloc: Global, asked: Asked, tree: &Module) -> Result<Option<JsWord>, NoMemory>
    ensures { IfOk result (λ first. first ≡ first_found asked tree.now) }
{
    let mut findings = ItemList::new(alloc);
    push_found(alloc, asked, false, tree, &mut findings)?;
    soonest_name(&findings)
}

fn answer(mixed: Option<JsWord>, twice: Option<JsWord>) -> Result<(), MergeError>
    ensures { Answers result mixed twice }
{
    match mixed {
        Some(name) => Err(MergeError::MixedExport { name }),
        None => match twice {
            Some(name) => Err(MergeError::Redeclared { name }),
            None => Ok(()),
        },
    }
}

/// Tells, of the declarations of a module that merge, the first name in the text that has `export` in one place and not in another; or else the first member that is
/// given twice among enums that merge and are not ambient (docs/SCOPES.md). Of two declarations the later is told. `Ok` comes exactly where there is neither.
pub fn check_merging(alloc: Global, tree: &Module) -> Result<(), MergeError>
    ensures { Answers result (first_mixed tree.now) (first_twice tree.now) }
{
    let mixed = first_found(alloc, Asked::Mixed, tree)?;
    let twice = first_found(alloc, Asked::Twice, tree)?;
    answer(mixed, twice)
}
