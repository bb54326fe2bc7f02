//! The pass `hygiene`: it walks over a module, chooses a text for each binding, and writes the texts into the module.
ghost use Rattle.std.specs.Prelude.{◌≡◌, OnOk};
ghost use Rattle.ecma_hygiene.specs.Hygienic.{IsHygienic};
ghost use Rattle.ecma_hygiene.specs.Renamed.{renamed};
ghost use Rattle.ecma_hygiene.specs.Texts.{text_in};

use crate::naming::Named;
use crate::rename::{Renaming, rename, text_map};
use crate::spot::{Spot, Standing};
use crate::texts::texts_of;
use crate::walk::walk_module;
use ecma_scope::Role;
use ecma_tree::{Module, NoMemory};
use item_list::ItemList;
use std::alloc::Global;

/// Writes these texts into a module.
fn write_texts(alloc: Global, names: &ItemList<Named>, tree: &mut Module) -> Result<(), NoMemory>
    ensures { OnOk result (tree.new ≡ renamed (text_in names.now) tree.old) }
{
    if names.is_empty() {
        return Ok(());
    }
    let texts = text_map(alloc, names)?;
    let renaming = Renaming { alloc, texts };
    let role = Role::Root;
    let spot = Spot::Elsewhere;
    rename(&renaming, Standing { role, spot }, tree)?;
    Ok(())
}

/// Gives the bindings of a module their final texts, so that the texts alone say what its ids say. New names come first:
/// each takes its own text if none has it, else the least number from 1 after it that makes a text that none has. Then a
/// binding of the source gets a number too where an identifier of its text stands in its scope and names another, or where it
/// is one of the body of a function that has a parameter of its text. Keys of objects and patterns stay, and so do imported and exported names.
pub fn hygiene(alloc: Global, tree: &mut Module) -> Result<(), NoMemory>
    ensures { OnOk result (IsHygienic tree.old tree.new) }
{
    let found = walk_module(alloc, tree)?;
    let names = texts_of(alloc, &found)?;
    write_texts(alloc, &names, tree)?;
    Ok(())
}
