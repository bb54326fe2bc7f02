//! The members of enums that stand before, and what is known of them.
ghost use Rattle.std.specs.Prelude.{◌≡◌, IfOk};
ghost use Rattle.std.specs.Option.{option_copied};
ghost use Rattle.ecma_enums.specs.Records.{entry_named, is_of, recorded};

use crate::value::TsEnumRecordValue;
use ecma_tree::{Id, JsWord, NoMemory, SyntaxContext};
use item_list::ItemList;
use short_texts::is_same;

/// A member of an enum: the id of the enum, and the member's name.
#[derive(Debug, Drop)]
pub struct TsEnumRecordKey {
    pub enum_id: Id,
    pub member_name: JsWord,
}

/// A member, and what is known of its value.
#[derive(Debug, Drop)]
pub struct TsEnumRecordEntry {
    pub key: TsEnumRecordKey,
    pub value: TsEnumRecordValue,
    /// Whether the enum is `const`.
    pub is_const: bool,
}

/// Members in the order of the text. Of one that is there twice the later counts.
pub type TsEnumRecord = ItemList<TsEnumRecordEntry>;

fn is_of(key: &TsEnumRecordKey, sym: &str, ctxt: SyntaxContext, name: &str) -> bool
    ensures { result ≡ is_of sym.now ctxt name.now key.now }
{
    is_same(key.enum_id.0.as_str(), sym)
        && key.enum_id.1 == ctxt
        && is_same(key.member_name.as_str(), name)
}

/// The entry of the member of this name, of the enum with this text and context.
pub(crate) fn entry_named<'a>(
    entries: &'a [TsEnumRecordEntry],
    sym: &str,
    ctxt: SyntaxContext,
    name: &str,
) -> Option<&'a TsEnumRecordEntry>
    ensures { option_copied result ≡ entry_named sym.now ctxt name.now entries.now }
{
    let mut found = None;
    for entry in entries {
        if is_of(&entry.key, sym, ctxt, name) {
            found = Some(entry);
        }
    }
    found
}

/// What is recorded of it.
pub(crate) fn recorded(
    entries: &[TsEnumRecordEntry],
    sym: &str,
    ctxt: SyntaxContext,
    name: &str,
) -> Result<Option<TsEnumRecordValue>, NoMemory>
    ensures { IfOk result (λ value. value ≡ recorded sym.now ctxt name.now entries.now) }
{
    match entry_named(entries, sym, ctxt, name) {
        Some(entry) => Ok(Some(entry.value.clone()?)),
        None => Ok(None),
    }
}
