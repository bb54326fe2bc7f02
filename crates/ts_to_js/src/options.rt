//! What is asked of a conversion, and by which words behind the program's name.
ghost use Rattle.std.specs.Prelude.{◌≡◌};
ghost use Rattle.std.specs.List.{list_any};
ghost use Rattle.std.specs.Option.{option_copied};
ghost use Rattle.ts_to_js.specs.Words.{assign_by, bad_word, config_of, is_among, is_assignment, is_bad, is_known, is_repeated, texts_of, unused_by};

use ecma_config::{Config, ImportsNotUsedAsValues, TsImportExportAssignConfig};
use std::rc::RcStr;

/// What is asked of a conversion beside the module.
#[derive(Clone, Copy, Debug, PartialEq, Eq)]
pub struct Options {
    /// What the module means, and which of its imports and exports are written.
    pub config: Config,
}

fn is_known(word: &str) -> bool
    ensures { result ≡ is_known word.now }
{
    word == "--verbatim"
        || word == "--preserve-unused"
        || word == "--no-empty-export"
        || is_assignment(word)
}

/// Whether a word says how import and export assignments are written.
fn is_assignment(word: &str) -> bool
    ensures { result ≡ is_assignment word.now }
{
    word == "--assign=classic"
        || word == "--assign=preserve"
        || word == "--assign=nodenext"
        || word == "--assign=esnext"
}

/// Whether one of these words does.
fn has_assignment(words: &[RcStr]) -> bool
    ensures { result ≡ list_any is_assignment (texts_of words.now) }
{
    for word in words {
        if is_assignment(word.as_str()) {
            return true;
        }
    }
    false
}

fn is_among(words: &[RcStr], word: &str) -> bool
    ensures { result ≡ is_among (texts_of words.now) word.now }
{
    for other in words {
        if other.as_str() == word {
            return true;
        }
    }
    false
}

/// Whether a word stands among those before it, or says again how assignments are written.
fn is_repeated(before: &[RcStr], word: &str) -> bool
    ensures { result ≡ is_repeated (texts_of before.now) word.now }
{
    is_among(before, word) || (is_assignment(word) && has_assignment(before))
}

/// Whether a word is unknown, or is repeated.
fn is_bad(before: &[RcStr], word: &str) -> bool
    ensures { result ≡ is_bad (texts_of before.now) word.now }
{
    !is_known(word) || is_repeated(before, word)
}

/// The first word that is unknown or repeated.
pub(crate) fn bad_word(words: &[RcStr]) -> Option<&str>
    ensures { option_copied result ≡ bad_word words.now }
{
    for i in 0..words.len() {
        let word = words[i].as_str();
        if is_bad(&words[..i], word) {
            return Some(word);
        }
    }
    None
}

fn unused_by(preserved: bool) -> ImportsNotUsedAsValues
    ensures { result ≡ unused_by preserved }
{
    if preserved {
        ImportsNotUsedAsValues::Preserve
    } else {
        ImportsNotUsedAsValues::Remove
    }
}

/// How import and export assignments are written; as CommonJS modules have them where nothing else is said.
fn assign_by(preserve: bool, nodenext: bool, esnext: bool) -> TsImportExportAssignConfig
    ensures { result ≡ assign_by preserve nodenext esnext }
{
    if preserve {
        return TsImportExportAssignConfig::Preserve;
    }
    if nodenext {
        return TsImportExportAssignConfig::NodeNext;
    }
    if esnext {
        TsImportExportAssignConfig::EsNext
    } else {
        TsImportExportAssignConfig::Classic
    }
}

/// The options that words name, in any order.
pub(crate) fn config_of(words: &[RcStr]) -> Config
    ensures { result ≡ config_of words.now }
{
    Config {
        verbatim_module_syntax: is_among(words, "--verbatim"),
        import_not_used_as_values: unused_by(is_among(words, "--preserve-unused")),
        no_empty_export: is_among(words, "--no-empty-export"),
        import_export_assign_config: assign_by(
            is_among(words, "--assign=preserve"),
            is_among(words, "--assign=nodenext"),
            is_among(words, "--assign=esnext"),
        ),
        ts_enum_is_mutable: false,
    }
}
