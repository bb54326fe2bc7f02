//! What folding makes of an expression.
ghost use Rattle.std.specs.Prelude.{◌≡◌};
ghost use Rattle.ecma_enums.specs.Folded as table;

use crate::error::EnumError;
use crate::value::TsEnumRecordValue;
use ecma_number::JsNumber;
use ecma_tree::JsWord;

/// What folding makes of an expression.
#[derive(Debug, Drop)]
pub(crate) enum Folded {
    /// Its value is this text.
    Text(JsWord),
    /// Its value is this number.
    Number(JsNumber),
    /// Nothing is known of its value.
    Opaque,
    /// A numeral or a result in it, which begins at this offset, is beyond the numbers that are computed.
    Beyond(u32),
}

/// What is known of a number that stands or comes about at an offset.
pub(crate) fn number_or_beyond(at: u32, number: Option<JsNumber>) -> Folded
    ensures { result ≡ table.number_or_beyond at number }
{
    match number {
        Some(number) => Folded::Number(number),
        None => Folded::Beyond(at),
    }
}

/// What is known of a member that is recorded so.
pub(crate) fn known(value: Option<TsEnumRecordValue>) -> Folded
    ensures { result ≡ table.known value }
{
    match value {
        Some(TsEnumRecordValue::String(text)) => Folded::Text(text),
        Some(TsEnumRecordValue::Number(number)) => Folded::Number(number),
        _ => Folded::Opaque,
    }
}

/// The value of a member with an initialiser of which this is known.
pub(crate) fn answer(folded: Folded) -> Result<TsEnumRecordValue, EnumError>
    ensures { result ≡ table.answer folded }
{
    match folded {
        Folded::Text(text) => Ok(TsEnumRecordValue::String(text)),
        Folded::Number(number) => Ok(TsEnumRecordValue::Number(number)),
        Folded::Opaque => Ok(TsEnumRecordValue::Opaque),
        Folded::Beyond(at) => Err(EnumError::EnumNumber { at }),
    }
}
