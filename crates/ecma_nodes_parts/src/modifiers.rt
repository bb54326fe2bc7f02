//! The words among modifiers.
ghost use Rattle.std.specs.Prelude.{◌≡◌};
ghost use Rattle.ecma_grammar.specs.trees.Parts.{kind_of};
ghost use Rattle.ecma_grammar.specs.trees.Functions.{accessibility_of, has_word, is_word_kind};

use ecma_tree::{Accessibility, Kind, Node};

/// Whether a node is a name with this text.
fn is_word(node: &Node, word: &str) -> bool
    ensures { result ≡ is_word_kind word.now (kind_of node.now) }
{
    match &node.kind {
        Kind::IdentName { sym } => sym.as_str() == word,
        _ => false,
    }
}

/// Whether a modifier is among these.
pub fn has_word(modifiers: &Node, word: &str) -> bool
    ensures { result ≡ has_word word.now modifiers.now }
{
    modifiers
        .children
        .as_slice()
        .iter()
        .any(|modifier| is_word(modifier, word))
}

/// The accessibility that is among these modifiers.
pub fn accessibility_of(modifiers: &Node) -> Option<Accessibility>
    ensures { result ≡ accessibility_of modifiers.now }
{
    if has_word(modifiers, "public") {
        Some(Accessibility::Public)
    } else if has_word(modifiers, "protected") {
        Some(Accessibility::Protected)
    } else if has_word(modifiers, "private") {
        Some(Accessibility::Private)
    } else {
        None
    }
}
