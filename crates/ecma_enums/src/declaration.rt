//! A member of an enum declaration.
ghost use Rattle.std.specs.Prelude.{◌≡◌, IfOk};
ghost use Rattle.std.specs.Option.{option_copied};
ghost use Rattle.ecma_enums.specs.Declarations as table;
ghost use Rattle.ecma_enums.specs.Declarations.{entry_of, first_value, initialiser};
ghost use Rattle.ecma_enums.specs.Folded.{Answers};

use crate::computer::EnumValueComputer;
use crate::error::EnumError;
use crate::record::{TsEnumRecordEntry, TsEnumRecordKey};
use crate::value::TsEnumRecordValue;
use ecma_number::JsNumber;
use ecma_tree::{Id, JsWord, Kind, NoMemory, Node};
use std::alloc::Global;

/// The name of a member.
fn member_name(alloc: Global, member: &Node) -> Result<JsWord, NoMemory>
    ensures { IfOk result (λ name. name ≡ table.member_name member.now) }
{
    let Some(name) = member.children.get(0) else {
        return JsWord::new(alloc, "");
    };
    match &name.kind {
        Kind::Ident { sym, .. } => Ok(sym.clone()?),
        Kind::Str { value, .. } => Ok(value.clone()?),
        _ => JsWord::new(alloc, ""),
    }
}

fn is_there(node: &Node) -> bool
    ensures { result ≡ table.is_there node.now }
{
    !matches!(node.kind, Kind::Absent)
}

/// The initialiser of a member.
fn initialiser(member: &Node) -> Option<&Node>
    ensures { option_copied result ≡ initialiser member.now }
{
    match member.children.get(1) {
        Some(expr) => { if is_there(expr) { Some(expr) } else { None } }
        None => None,
    }
}

/// The automatic value of a member at an offset, where it is one of those that are computed.
fn automatic(at: u32, next: Option<TsEnumRecordValue>) -> Result<TsEnumRecordValue, EnumError>
    ensures { result ≡ table.automatic at next }
{
    match next {
        Some(value) => Ok(value),
        None => Err(EnumError::EnumNumber { at }),
    }
}

/// The value of a member, of which the automatic value is told.
#[tactic(auto, using(crate::proofs::Answering::answers_same))]
pub(crate) fn member_value(
    alloc: Global,
    computer: &EnumValueComputer,
    next: Option<TsEnumRecordValue>,
    member: &Node,
) -> Result<TsEnumRecordValue, EnumError>
    ensures { Answers result (table.member_value computer.now next member.now) }
{
    match initialiser(member) {
        Some(expr) => computer.compute(alloc, expr),
        None => automatic(member.span.lo, next),
    }
}

/// The entry of a member of this value, of an enum of this id that is `const` or is not.
pub(crate) fn entry_of(
    alloc: Global,
    id: &Id,
    is_const: bool,
    member: &Node,
    value: TsEnumRecordValue,
) -> Result<TsEnumRecordEntry, NoMemory>
    ensures { IfOk result (λ entry. entry ≡ entry_of id.now is_const member.now value) }
{
    let enum_id = (id.0.clone()?, id.1);
    let member_name = member_name(alloc, member)?;
    let key = TsEnumRecordKey {
        enum_id,
        member_name,
    };
    Ok(TsEnumRecordEntry {
        key,
        value,
        is_const,
    })
}

/// The automatic value of the first member.
pub(crate) fn first_value() -> Option<TsEnumRecordValue>
    ensures { result ≡ first_value }
{
    Some(TsEnumRecordValue::Number(JsNumber::from(0u32)))
}
