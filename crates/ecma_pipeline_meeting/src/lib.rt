//! Names may meet under the final texts of plain modules that fit, and under their own: over the definitions of `ecma_hygiene_meeting`, `ecma_fits` and `ecma_hygiene_runs`.
//!
//! Each function carries one law over the definitions, and does nothing. The laws are stated in `specs/Laws.antt`.
#![tactic(auto)]

ghost use Rattle.ecma_pipeline_meeting.specs.Laws.{FinalTextsTellNamesFromParameters, FinalTextsTellNamesOfScopes, PlainFinalTextsMeet, PlainModulesHaveRecordsOfScopes, PlainOwnTextsMeet};

use ecma_hygiene_fits::final_texts_are_unreserved;
use ecma_hygiene_meeting::{final_texts_meet, what_is_not_captured_meets};
use ecma_hygiene_runs::bindings_are_declared;

/// In a module that fits, and has neither types nor enums, namespaces or `import a =`, each scope for which the evaluator makes a record declares the names of that record. Only `export default 1;`
/// makes a variable, `*default*`, that no scope declares.
pub fn plain_modules_have_records_of_scopes()
    ensures { PlainModulesHaveRecordsOfScopes }
{
    bindings_are_declared();
}

/// With final texts a scope writes two names as two, if it declares each text in one context, but for names that were made.
pub fn final_texts_tell_names_of_scopes()
    ensures { FinalTextsTellNamesOfScopes }
{}

/// And the body of a function writes none of its names as a parameter, in whatever contexts both are.
pub fn final_texts_tell_names_from_parameters()
    ensures { FinalTextsTellNamesFromParameters }
{}

/// So names may meet under the final texts of such a module, where its ids say which scopes declare its names, and bindings have contexts of their own, with a map of contexts that keeps the
/// empty one, and that of free names apart. Asked is that what it exports under its own name keeps its text.
pub fn plain_final_texts_meet()
    ensures { PlainFinalTextsMeet }
{
    bindings_are_declared();
    final_texts_are_unreserved();
    final_texts_meet();
}

/// And under its own texts, where nothing is captured by them, and no scope declares a text twice.
pub fn plain_own_texts_meet()
    ensures { PlainOwnTextsMeet }
{
    bindings_are_declared();
    what_is_not_captured_meets();
}
