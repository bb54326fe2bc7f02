//! The bytes of a plain module to the bytes of its layout.
ghost use Rattle.std.specs.Prelude.{◌≡◌, ◌≤◌, false, length, IfOk, IfErr};
ghost use Rattle.ecma_modules.specs.Modules.{deepest, plain, reads_as};
ghost use Rattle.ts_to_js.specs.Answer.{Answers};
ghost use Rattle.ts_to_js.specs.Refusals.{refusal_of};
ghost use Rattle.relayout.specs.Relayout.{IsRelaid, laid_out, relaid};

use ecma_print::print_module;
use ecma_round_trip_texts::relaid_modules_are_read_again;
use ecma_text::{ReadError, read_plain};
use ecma_tree::Module;
use std::alloc::Global;
use ts_to_js::{LIMIT, TsError, decoded};

/// Lays the bytes of a plain module out anew.
pub fn relayout(alloc: Global, src: &[u8]) -> Result<Vec<u8>, TsError>
    // The text is the layout of the tree that was read; else the first refusal that holds is answered.
    // Want of memory alone may come instead, but for `TooLong` and `NotUtf8`, which take none.
    ensures text { Answers result (relaid src.now) }
    // It is read again as the tree that was read.
    ensures again { IfOk result (λ text. IsRelaid src.now text.items) }
{
    relaid_modules_are_read_again();
    relayout_bytes(alloc, src)
}

fn relayout_bytes(alloc: Global, src: &[u8]) -> Result<Vec<u8>, TsError>
    ensures { Answers result (relaid src.now) }
{
    if src.len() > LIMIT {
        return Err(TsError::TooLong);
    }
    match decoded(src) {
        None => Err(TsError::NotUtf8),
        Some(text) => relayout_text(alloc, text),
    }
}

fn relayout_text(alloc: Global, text: &str) -> Result<Vec<u8>, TsError>
    requires { length text.now ≤ LIMIT }
    ensures { Answers result (laid_out (reads_as text.now (plain false) deepest)) }
{
    lay_out(alloc, read_plain(alloc, text, false))
}

/// Prints a module that was read, or says why there is none.
fn lay_out(alloc: Global, reading: Result<Module, ReadError>) -> Result<Vec<u8>, TsError>
    ensures text { IfOk reading (λ tree. Answers result (laid_out (Ok tree))) }
    ensures refusal { IfErr reading (λ reason. result ≡ Err (refusal_of reason)) }
{
    let tree = reading?;
    Ok(print_module(alloc, &tree)?)
}
