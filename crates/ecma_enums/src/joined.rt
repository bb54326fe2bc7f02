//! Texts that are put together.
ghost use Rattle.std.specs.Prelude.{◌≡◌, ◌++◌, [], IfOk, string_bytes};
ghost use Rattle.ecma_enums.specs.declared.folded.Folded.TheVariants as folded;
ghost use Rattle.ecma_enums.specs.Folded.{as_text, joined};
ghost use Rattle.ecma_enums.specs.Joined.{seen};

use crate::folded::Folded;
use ecma_number::ToJsString;
use ecma_tree::{JsWord, NoMemory};
use std::alloc::Global;

/// No text of a module has so many bytes.
const TOO_LONG: usize = 1 << 32;

/// What is known of texts that are put together.
#[derive(Drop)]
pub(crate) enum Joined {
    Text(String),
    Opaque,
    /// A number in one of them, which begins at this offset, is beyond those that are computed.
    Beyond(u32),
}

/// A text with another behind it. One that no module could hold is want of memory.
fn with_text(text: String, more: &str) -> Result<String, NoMemory>
    ensures { IfOk result (λ whole. string_bytes whole ≡ string_bytes text ++ more.now) }
{
    if text.len() >= TOO_LONG || more.len() >= TOO_LONG - text.len() {
        return Err(NoMemory);
    }
    let mut whole = text;
    whole.push_str(more)?;
    Ok(whole)
}

/// A text with what is known of another behind it.
fn text_with(alloc: Global, text: String, part: &Folded) -> Result<Joined, NoMemory>
    ensures { IfOk result (λ whole. seen whole ≡ joined (folded.Text (string_bytes text)) (as_text part.now)) }
{
    match part {
        Folded::Text(more) => Ok(Joined::Text(with_text(text, more.as_str())?)),
        Folded::Number(number) => {
            let more = number.to_js_string(alloc)?;
            Ok(Joined::Text(with_text(text, more.as_str())?))
        }
        Folded::Opaque => Ok(Joined::Opaque),
        Folded::Beyond(at) => Ok(Joined::Beyond(*at)),
    }
}

/// What is not known, with what is known of another text behind it.
fn opaque_with(part: &Folded) -> Joined
    ensures { seen result ≡ joined folded.Opaque (as_text part.now) }
{
    match part {
        Folded::Beyond(at) => Joined::Beyond(*at),
        _ => Joined::Opaque,
    }
}

impl Joined {
    /// No text.
    pub(crate) fn new(alloc: Global) -> Joined
        ensures { seen result ≡ folded.Text [] }
    {
        Joined::Text(String::new(alloc))
    }

    /// The texts with another behind them, a number as its text.
    pub(crate) fn with(self, alloc: Global, part: &Folded) -> Result<Joined, NoMemory>
        ensures { IfOk result (λ whole. seen whole ≡ joined (seen self) (as_text part.now)) }
    {
        match self {
            Joined::Text(text) => text_with(alloc, text, part),
            Joined::Opaque => Ok(opaque_with(part)),
            Joined::Beyond(at) => Ok(Joined::Beyond(at)),
        }
    }

    /// What is known of them.
    pub(crate) fn into_folded(self, alloc: Global) -> Result<Folded, NoMemory>
        ensures { IfOk result (λ known. known ≡ seen self) }
    {
        match self {
            Joined::Text(text) => Ok(Folded::Text(JsWord::new(alloc, text.as_str())?)),
            Joined::Opaque => Ok(Folded::Opaque),
            Joined::Beyond(at) => Ok(Folded::Beyond(at)),
        }
    }
}
