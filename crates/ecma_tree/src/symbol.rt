//! Which texts may be the symbol of an identifier.
ghost use Rattle.std.specs.Prelude.{◌≡◌, IfErr, IfOk, MatchResult};
ghost use Rattle.ecma_lex.specs.Symbols.{IsName, offered};

use ecma_kind::{JsWord, NoMemory};
use ecma_lex::Verified;
use std::alloc::Global;

/// Whether a text may be the symbol of an identifier: whether it is a name that is not reserved (ECMAScript, 12.7). If it is none, the
/// answer is the symbol that is offered in its place: every character before the first that may begin a name is dropped, and behind it
/// each that may not continue one; if what is left is a reserved word or nothing, `_` stands before it.
pub fn verify_symbol(alloc: Global, text: &str) -> Result<Result<(), JsWord>, NoMemory>
    ensures value { IfOk result (λ answer. MatchResult answer (λ _. IsName text.now) (λ symbol. (IsName text.now → ⊥) × (symbol ≡ offered text.now))) }
    ensures name { IfOk result (λ answer. IfErr answer IsName) }
{
    match ecma_lex::verify_symbol(alloc, text)? {
        Verified::Valid => Ok(Ok(())),
        Verified::Offered(symbol) => Ok(Err(JsWord::new(alloc, &symbol)?)),
    }
}
