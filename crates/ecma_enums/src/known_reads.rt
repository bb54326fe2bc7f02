//! Reads of members of enums whose values are known.
ghost use Rattle.std.specs.Prelude.{◌≡◌, IfOk};
ghost use Rattle.ecma_enums.specs.KnownReads as table;
ghost use Rattle.ecma_enums.specs.KnownReads.{stays_known};
ghost use Rattle.ecma_enums.specs.Keys.{key_at};
ghost use Rattle.ecma_enums.specs.Names.{name_at};

use crate::keys::key_at;
use crate::names::name_at;
use crate::record::{TsEnumRecord, TsEnumRecordEntry, entry_named};
use crate::value::TsEnumRecordValue;
use ecma_tree::{Expr, Id, Kind, NoMemory, Node};

fn stays_known(may_change: bool, entry: &TsEnumRecordEntry) -> bool
    ensures { result ≡ stays_known may_change entry.now }
{
    entry.value.is_const() && (entry.is_const || !may_change)
}

fn lasting(
    may_change: bool,
    entry: &TsEnumRecordEntry,
) -> Result<Option<TsEnumRecordValue>, NoMemory>
    ensures { IfOk result (λ value. value ≡ table.lasting may_change entry.now) }
{
    if stays_known(may_change, entry) {
        return Ok(Some(entry.value.clone()?));
    }
    Ok(None)
}

fn value_of(
    may_change: bool,
    members: &[TsEnumRecordEntry],
    name: &Id,
    key: &str,
) -> Result<Option<TsEnumRecordValue>, NoMemory>
    ensures { IfOk result (λ value. value ≡ table.value_of may_change members.now (Some name.now) (Some key.now)) }
{
    match entry_named(members, name.0.as_str(), name.1, key) {
        Some(entry) => lasting(may_change, entry),
        None => Ok(None),
    }
}

fn known_member(
    may_change: bool,
    members: &[TsEnumRecordEntry],
    node: &Node,
) -> Result<Option<TsEnumRecordValue>, NoMemory>
    ensures { IfOk result (λ value. value
        ≡ table.value_of may_change members.now (name_at node.now 0) (key_at node.now 1)) }
{
    let Some(name) = name_at(node, 0)? else {
        return Ok(None);
    };
    match key_at(node, 1)? {
        Some(key) => value_of(may_change, members, &name, key.as_str()),
        None => Ok(None),
    }
}

/// The value of the member that an expression reads, where it is known and stays what it is: of `E.A`, `E["A"]` and ``E[`A`]``, also with types
/// round the name or the key, where `E` is the name of an enum. Where enums may change, only the members of `const` enums stay what they are.
pub fn known_read(
    members: &TsEnumRecord,
    may_change: bool,
    expr: &Expr,
) -> Result<Option<TsEnumRecordValue>, NoMemory>
    ensures { IfOk result (λ value. value ≡ table.known_read may_change members.now expr.now) }
{
    match &expr.kind {
        Kind::MemberExpr => known_member(may_change, members.as_slice(), expr),
        _ => Ok(None),
    }
}
