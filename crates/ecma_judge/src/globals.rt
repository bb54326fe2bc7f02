//! Names of the global object.
ghost use Rattle.std.specs.Prelude.{◌≡◌, map};
ghost use Rattle.ecma_judge.specs.Contexts.{is_among, is_global, is_one_of_globals};

use crate::ctx::ExprCtx;
use ecma_tree::Kind;
use short_texts::is_same;

/// Whether a text is one of these.
pub(crate) fn is_among(text: &str, words: &[&str]) -> bool
    ensures { result ≡ is_among text.now (map (λ word. word.now) words.now) }
{
    for word in words {
        if is_same(text, word) {
            return true;
        }
    }
    false
}

/// Whether a node is the name of this text that no scope declares.
pub(crate) fn is_global(ctx: &ExprCtx, text: &str, kind: &Kind) -> bool
    ensures { result ≡ is_global ctx.now text.now kind.now }
{
    match kind {
        Kind::Ident { sym, ctxt, .. } => {
            *ctxt == ctx.unresolved_ctxt && is_same(sym.as_str(), text)
        }
        _ => false,
    }
}

/// Whether a node is the name of one of these texts that no scope declares.
pub(crate) fn is_one_of_globals(ctx: &ExprCtx, words: &[&str], kind: &Kind) -> bool
    ensures { result ≡ is_one_of_globals ctx.now (map (λ word. word.now) words.now) kind.now }
{
    match kind {
        Kind::Ident { sym, ctxt, .. } => {
            *ctxt == ctx.unresolved_ctxt && is_among(sym.as_str(), words)
        }
        _ => false,
    }
}
