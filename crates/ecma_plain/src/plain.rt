//! Which trees are plain.
ghost use Rattle.std.specs.Prelude.{◌≡◌, ◌&&◌, ◌↔◌, IsTrue};
ghost use Rattle.std.specs.Str.{IsUtf8};
ghost use Rattle.ecma_text_leaves.specs.Everywhere.{Everywhere};
ghost use Rattle.ecma_plain.specs.Plain.{HasUtf8Texts, IsPlain, IsPlainKind, IsUtf8OrNone};

use crate::forms::{is_of_forms, is_questioned};
use crate::functions::has_unusual;
use crate::items::has_plain_items;
use crate::literals::is_writable;
use ecma_tree::{JsWord, Kind, Module, Node};

/// The text of a word is UTF-8, as that of every `str`.
fn words_are_utf8(word: &JsWord)
    ensures { IsUtf8 word.now }
{
    word.as_str().as_bytes();
}

fn words_that_are_there_are_utf8(word: &Option<JsWord>)
    ensures { IsUtf8OrNone word.now }
{
    if let Some(word) = word {
        words_are_utf8(word);
    }
}

/// The texts of each node are UTF-8.
fn texts_are_utf8(kind: &Kind)
    ensures { HasUtf8Texts kind.now }
{
    match kind {
        Kind::Module { shebang } => words_that_are_there_are_utf8(shebang),
        Kind::Ident { sym, .. } => words_are_utf8(sym),
        Kind::IdentName { sym } => words_are_utf8(sym),
        Kind::PrivateName { name } => words_are_utf8(name),
        Kind::Str { raw, .. } => words_that_are_there_are_utf8(raw),
        Kind::Number { raw, .. } => words_that_are_there_are_utf8(raw),
        Kind::BigInt { raw, .. } => words_that_are_there_are_utf8(raw),
        Kind::Regex { exp, flags } => {
            words_are_utf8(exp);
            words_are_utf8(flags);
        }
        Kind::TplElement { raw, .. } => words_are_utf8(raw),
        _ => {}
    }
}

/// Whether a kind is one that plain modules have.
fn is_plain_kind(kind: &Kind) -> bool
    ensures { IsTrue result ↔ IsPlainKind kind.now }
{
    texts_are_utf8(kind);
    if is_questioned(kind) {
        return false;
    }
    if is_of_forms(kind) {
        return is_writable(kind);
    }
    false
}

fn both(a: bool, b: bool) -> bool
    ensures { result ≡ a && b }
{
    a && b
}

/// Whether each node of a tree has such a kind.
fn are_plain_kinds(node: &Node) -> bool
    ensures { IsTrue result ↔ Everywhere IsPlainKind node.now }
{
    let mut all = is_plain_kind(&node.kind);
    for i in 0..node.children.len() {
        let below = are_plain_kinds(node.children.at(i));
        all = both(all, below);
    }
    all
}

/// Whether a tree is plain: nothing in it is TypeScript, but for `import a = require("m")` and `export = e` where `keep_assign` says
/// that these stay. What fits and is plain is printed as a text that is read as a plain module again: docs/FITS.md.
pub fn is_plain(tree: &Module, keep_assign: bool) -> bool
    ensures { IsTrue result ↔ IsPlain keep_assign tree.now }
{
    if has_unusual(tree) {
        return false;
    }
    if has_plain_items(tree, keep_assign) {
        return are_plain_kinds(tree);
    }
    false
}
