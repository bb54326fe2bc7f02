//! Texts that are names, and spreads of `arguments`.
ghost use Rattle.std.specs.Prelude.{◌≡◌, ◌↔◌, IsTrue, Some, length, if◌then◌else◌};
ghost use Rattle.ecma_lex.specs.Keys.{is_valid_continue, is_valid_start, key_end};
ghost use Rattle.ecma_lex.specs.Symbols.{IsName};
ghost use Rattle.ecma_utils.specs.Names.{is_arguments, is_rest_arguments};

use ecma_lex::is_reserved;
use ecma_tree::{JsWord, Kind, Node, is_valid_continue, is_valid_start};
use short_texts::is_same;

/// Whether a character may stand in a name, as its first or behind it.
fn belongs(is_first: bool, c: char) -> bool
    ensures { result ≡ (if is_first then is_valid_start c else is_valid_continue c) }
{
    if is_first {
        is_valid_start(c)
    } else {
        is_valid_continue(c)
    }
}

/// Whether the whole text is a name, reserved or not (IdentifierName; ECMAScript, 12.7). It takes no memory.
pub fn is_valid_prop_ident(text: &str) -> bool
    ensures { IsTrue result ↔ key_end text.now 0 ≡ Some (length text.now) }
{
    let mut is_first = true;
    for c in text.chars() {
        if !belongs(is_first, c) {
            return false;
        }
        is_first = false;
    }
    !is_first
}

fn is_name(text: &str) -> bool
    ensures { IsTrue result ↔ IsName text.now }
{
    is_valid_prop_ident(text) && !is_reserved(text)
}

/// Whether the whole text is a name that is not reserved (Identifier; ECMAScript, 12.7). It takes no memory.
pub fn is_valid_ident(symbol: &JsWord) -> bool
    ensures { IsTrue result ↔ IsName symbol.now }
{
    is_name(symbol.as_str())
}

fn is_arguments(node: &Node) -> bool
    ensures { result ≡ is_arguments node.now }
{
    match &node.kind {
        Kind::Ident { sym, .. } => is_same(sym.as_str(), "arguments"),
        _ => false,
    }
}

/// Whether an argument is `...arguments`. It takes no memory.
pub fn is_rest_arguments(argument: &Node) -> bool
    ensures { result ≡ is_rest_arguments argument.now }
{
    match &argument.kind {
        Kind::SpreadElement => match argument.children.get(0) {
            Some(spread) => is_arguments(spread),
            None => false,
        },
        _ => false,
    }
}
