//! What is known of the enums of a text: helpers of the tests.
use ecma_enums::{EnumError, TsEnumRecord, TsEnumRecordEntry, TsEnumRecordValue, record_enums};
use ecma_number::{JsNumber, ToJsString};
use ecma_scope::resolve;
use ecma_text::read_module;
use ecma_tree::{Mark, Module, NoMemory, PassError, Session};
use std::alloc::Global;
use std::test::Fail;

// A function that may let go of a node is proved for every kind that it may have: so this one alone does.
pub(crate) fn let_go(_tree: Module) {}

fn resolve_alone(alloc: Global, tree: &mut Module) -> Result<Mark, PassError> {
    let mut session = Session::new(1000);
    let unresolved = session.fresh_mark()?;
    let top = session.fresh_mark()?;
    resolve(alloc, &mut session, tree, unresolved, top)?;
    Ok(unresolved)
}

/// The members of all enums of a tree, whose names are resolved.
pub(crate) fn members_of(alloc: Global, tree: &mut Module) -> Result<TsEnumRecord, EnumError> {
    match resolve_alone(alloc, tree) {
        Ok(free) => record_enums(alloc, free, tree),
        Err(_) => Err(EnumError::NoMemory),
    }
}

/// A text as a tree.
pub(crate) fn tree_of(alloc: Global, text: &str) -> Option<Module> {
    if 1000 < text.len() {
        return None;
    }
    read_module(alloc, text).ok()
}

/// The members of all enums of a text.
pub(crate) fn members(alloc: Global, text: &str) -> Result<TsEnumRecord, EnumError> {
    match tree_of(alloc, text) {
        Some(mut tree) => {
            let found = members_of(alloc, &mut tree);
            let_go(tree);
            found
        }
        None => Err(EnumError::NoMemory),
    }
}

/// A text behind `'`, `void` behind what is no number, `opaque` for what is not known before it runs.
pub(crate) fn push_value(
    alloc: Global,
    out: &mut String,
    value: &TsEnumRecordValue,
) -> Result<(), NoMemory> {
    match value {
        TsEnumRecordValue::String(text) => {
            out.push_str("'")?;
            out.push_str(text.as_str())?;
        }
        TsEnumRecordValue::Number(JsNumber::NegZero) => out.push_str("-0")?,
        TsEnumRecordValue::Number(number) => out.push_str(number.to_js_string(alloc)?.as_str())?,
        TsEnumRecordValue::Opaque => out.push_str("opaque")?,
        TsEnumRecordValue::Void => out.push_str("void")?,
    }
    Ok(())
}

fn push_name(out: &mut String, entry: &TsEnumRecordEntry) -> Result<(), NoMemory> {
    out.push_str(entry.key.enum_id.0.as_str())?;
    out.push_str(".")?;
    out.push_str(entry.key.member_name.as_str())?;
    out.push_str("=")?;
    Ok(())
}

/// The values of members, with a space before each, and behind it the names of the enum and the member, where they are to be shown.
fn shown(alloc: Global, with_names: bool, members: &TsEnumRecord) -> Result<String, NoMemory> {
    let mut out = String::new(alloc);
    for entry in members.as_slice() {
        out.push_str(" ")?;
        if with_names {
            push_name(&mut out, entry)?;
        }
        push_value(alloc, &mut out, &entry.value)?;
    }
    Ok(out)
}

/// What is known of the members of a text, or where the first number is that is beyond those that are computed.
pub(crate) fn told(alloc: Global, with_names: bool, text: &str) -> Result<String, Fail> {
    match members(alloc, text) {
        Ok(members) => Ok(shown(alloc, with_names, &members)?),
        Err(EnumError::EnumNumber { at }) => Ok(format!(in alloc; " beyond {at}")?),
        Err(EnumError::NoMemory) => Err(Fail::from("no memory")),
    }
}
