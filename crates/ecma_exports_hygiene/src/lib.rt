//! Final texts and exports: where no exported name is captured, exported declarations keep their texts.
//!
//! Each function carries a law over the definitions, and does nothing. The laws are stated in `specs/Laws.antt`.
#![tactic(auto)]

ghost use Rattle.ecma_exports_hygiene.specs.Laws.{BindingsThatAreNotCapturedKeepTheirTexts, ExportsThatAreNotCapturedKeepTheirTexts};

use ecma_pipeline_spans::stripping_makes_no_names;

/// Where no exported name is captured, a binding of the scope of a module whose text is that of an exported declaration keeps its text under the final texts of
/// the tree without its types: of a tree whose scopes are told apart by their contexts, and of which no identifier was made but for free names.
pub fn bindings_that_are_not_captured_keep_their_texts()
    ensures { BindingsThatAreNotCapturedKeepTheirTexts }
{}

/// So each declaration behind `export` keeps its text: of a tree that is ready, in which each scope has contexts of its own, and of which no identifier was made
/// but for free names.
pub fn exports_that_are_not_captured_keep_their_texts()
    ensures { ExportsThatAreNotCapturedKeepTheirTexts }
{
    stripping_makes_no_names();
}
