//! The passes that write enums and reads of their members.
ghost use Rattle.std.specs.Prelude.{◌≡◌, ◌⊎◌, [], IfErr, IfOk, OnOk};
ghost use Rattle.ecma_enums.specs.Folded.{Answers};
ghost use Rattle.ecma_enums.specs.declared.error.EnumError.TheVariants as enum_error;
ghost use Rattle.ecma_lower_enums.specs.Lowered as table;
ghost use Rattle.ecma_lower_enums.specs.Lowered.{enums_lowered, inlining, left, with_members_read};
ghost use Rattle.ecma_lower_enums.specs.Writing.{with_enums_written};

use crate::known::KnownEnums;
use crate::names::names_in;
use crate::writing::write_enums;
use ecma_enums::{EnumError, TsEnumRecord, record_enums};
use ecma_tree::{Mark, Module, NoMemory};
use item_list::ItemList;
use std::alloc::Global;

fn known_enums(
    alloc: Global,
    may_change: bool,
    keeps_constants: bool,
    members: TsEnumRecord,
    tree: &Module,
) -> Result<KnownEnums, NoMemory>
    ensures { IfOk result (λ enums. enums ≡ table.known_enums may_change keeps_constants members tree.now) }
{
    Ok(KnownEnums {
        members,
        names: names_in(alloc, tree)?,
        may_change,
        keeps_constants,
        writes: true,
    })
}

fn write_with(
    alloc: Global,
    may_change: bool,
    keeps_constants: bool,
    members: TsEnumRecord,
    tree: &mut Module,
) -> Result<(), NoMemory>
    ensures { OnOk result (tree.new ≡ with_enums_written
        (table.known_enums may_change keeps_constants members tree.old) tree.old) }
{
    let enums = known_enums(alloc, may_change, keeps_constants, members, tree)?;
    write_enums(alloc, &enums, tree)
}

/// Writes the enums of a resolved module, and the values of members in the places of reads of them (docs/ENUMS.md is the table); its free names have the
/// context of `unresolved`. Where enums are mutable only members of `const` ones stay what they are; under `verbatim_module_syntax` all members of these
/// are written. `EnumNumber` comes exactly where a number of a member is beyond those that are computed; it tells the first in the text, and the tree is
/// as it was. No context is drawn. After want of memory the tree may be gone.
pub fn lower_enums(
    alloc: Global,
    unresolved: Mark,
    ts_enum_is_mutable: bool,
    verbatim_module_syntax: bool,
    tree: &mut Module,
) -> Result<(), EnumError>
    ensures answer { Answers (left result tree.new)
        (enums_lowered ts_enum_is_mutable verbatim_module_syntax unresolved tree.old) }
    // Where a number is beyond, the tree is as it was.
    ensures kept { IfErr result (λ refusal. (refusal ≡ enum_error.NoMemory) ⊎ (tree.new ≡ tree.old)) }
{
    let members = record_enums(alloc, unresolved, tree)?;
    write_with(
        alloc,
        ts_enum_is_mutable,
        verbatim_module_syntax,
        members,
        tree,
    )?;
    Ok(())
}

/// The pass that puts the values of members in the places of reads of them: [`InlineEnum::visit_mut_module`] runs it.
#[derive(Debug, Drop)]
pub struct InlineEnum {
    enums: KnownEnums,
}

impl InlineEnum {
    /// The pass for these members, of which none changes.
    pub fn new(alloc: Global, members: TsEnumRecord) -> InlineEnum
        ensures { result.enums ≡ inlining members }
    {
        InlineEnum {
            enums: KnownEnums {
                members,
                names: ItemList::new(alloc),
                may_change: false,
                keeps_constants: false,
                writes: false,
            },
        }
    }

    /// Puts the value of a member in the place of each read of it, where it is known: everywhere but where a member is assigned to, updated, deleted, or the head
    /// of a loop (docs/ENUMS.md). Enums stay. After want of memory the tree may be gone.
    pub fn visit_mut_module(&mut self, alloc: Global, tree: &mut Module) -> Result<(), NoMemory>
        ensures tree { OnOk result (tree.new ≡ with_enums_written self.old.enums tree.old) }
        ensures pass { self.new ≡ self.old }
    {
        write_enums(alloc, &self.enums, tree)
    }
}
