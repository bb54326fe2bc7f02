//! Names that are to be told, and which of them stands first in the text.
ghost use Rattle.std.specs.Prelude.{◌≡◌, IfOk};
ghost use Rattle.std.specs.Option.{option_map};
ghost use Rattle.ecma_merging.specs.Merging.{name_of, soonest, sooner};

use ecma_tree::{JsWord, NoMemory};
use item_list::ItemList;

/// A name that is to be told.
#[derive(Drop)]
pub(crate) struct Finding {
    pub(crate) name: JsWord,
    /// The byte offset of the name in the declaration that is told, from 0 on.
    pub(crate) at: u32,
}

/// Of two findings the one that stands first in the text; where they stand at one offset, the former.
fn sooner<'a>(former: &'a Finding, latter: &'a Finding) -> &'a Finding
    ensures { result.now ≡ sooner former.now latter.now }
{
    if latter.at < former.at {
        latter
    } else {
        former
    }
}

/// The name of the finding that stands first in the text, if there is one.
pub(crate) fn soonest_name(findings: &ItemList<Finding>) -> Result<Option<JsWord>, NoMemory>
    ensures { IfOk result (λ name. name ≡ option_map name_of (soonest findings.now)) }
{
    if findings.len() == 0 {
        return Ok(None);
    }
    let mut first = findings.at(0);
    for i in 1..findings.len() {
        first = sooner(first, findings.at(i));
    }
    Ok(Some(first.name.clone()?))
}
