//! Texts: what of them needs nothing but a node's own data and what is known of its parts.
ghost use Rattle.std.specs.Prelude.{◌≡◌, IfOk};
ghost use Rattle.ecma_judge.specs.Texts as table;

use crate::ctx::ExprCtx;
use ecma_number::{BoolValue, JsNumber, Purity, ToJsString, Value};
use ecma_tree::{JsWord, NoMemory, SyntaxContext, UnaryOp};
use short_texts::is_same;
use std::alloc::Global;

pub(crate) fn bool_text(alloc: Global, value: bool) -> Result<JsWord, NoMemory>
    ensures { IfOk result (λ text. text ≡ table.bool_text value) }
{
    if value {
        return JsWord::new(alloc, "true");
    }
    JsWord::new(alloc, "false")
}

pub(crate) fn known_bool_text(alloc: Global, value: BoolValue) -> Result<Value<JsWord>, NoMemory>
    ensures { IfOk result (λ text. text ≡ table.known_bool_text value) }
{
    match value {
        Value::Known(value) => Ok(Value::Known(bool_text(alloc, value)?)),
        Value::Unknown => Ok(Value::Unknown),
    }
}

pub(crate) fn known_number_text(
    alloc: Global,
    number: &Option<JsNumber>,
) -> Result<Value<JsWord>, NoMemory>
    ensures { IfOk result (λ text. text ≡ table.known_number_text number.now) }
{
    match number {
        Some(number) => {
            let text = number.to_js_string(alloc)?;
            Ok(Value::Known(JsWord::new(alloc, text.as_str())?))
        }
        None => Ok(Value::Unknown),
    }
}

fn is_text_name(sym: &str) -> bool
    ensures { result ≡ table.is_text_name sym.now }
{
    is_same(sym, "undefined") || is_same(sym, "Infinity") || is_same(sym, "NaN")
}

pub(crate) fn name_text(
    ctx: &ExprCtx,
    sym: &JsWord,
    ctxt: SyntaxContext,
) -> Result<Value<JsWord>, NoMemory>
    ensures { IfOk result (λ text. text ≡ table.name_text ctx.now sym.now ctxt) }
{
    if ctxt == ctx.unresolved_ctxt && is_text_name(sym.as_str()) {
        return Ok(Value::Known(sym.clone()?));
    }
    Ok(Value::Unknown)
}

/// Of `void` with what it stands before.
pub(crate) fn void_text(alloc: Global, own: Purity) -> Result<Value<JsWord>, NoMemory>
    ensures { IfOk result (λ text. text ≡ table.void_text own) }
{
    if own.is_pure() {
        return Ok(Value::Known(JsWord::new(alloc, "undefined")?));
    }
    Ok(Value::Unknown)
}

pub(crate) fn is_idle_void(own: Purity, op: UnaryOp) -> bool
    ensures { result ≡ table.is_idle_void own op }
{
    match op {
        UnaryOp::Void => own.is_pure(),
        _ => false,
    }
}

pub(crate) fn is_undefined_name(ctx: &ExprCtx, sym: &str, ctxt: SyntaxContext) -> bool
    ensures { result ≡ table.is_undefined_name ctx.now sym.now ctxt }
{
    ctxt == ctx.unresolved_ctxt && is_same(sym, "undefined")
}
