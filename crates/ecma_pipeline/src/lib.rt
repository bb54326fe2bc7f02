//! The whole way of a module, from its text to the text that is written for it. **Begin here**: the law of the whole way is put together of the laws of its
//! steps. Each pass has a row of crates that say what it keeps: what fits (`_fits`), what scopes declare (`_scopes`), that no name is declared again
//! where it may not be (`_conflicts`), what a module does when it runs (`_runs`).
//!
//! | step | pass | its laws |
//! |---|---|---|
//! | A text is read as a module: it fits, and each form of it is asked whether it is taken. | `ecma_text` | `ecma_text_sorts`, `ecma_text_leaves`, `ecma_text_fits`, `ecma_text_plain`, `ecma_text_sources`, `ecma_text_contexts`, `ecma_text_runs`, `ecma_text_spans`; `ecma_pipeline_names`, `ecma_pipeline_spans` |
//! | What the options drop of its imports and exports goes. | `ecma_elide` | `ecma_elide_fits`, `ecma_elide_sources` |
//! | What would be read as a directive, or as `async` of an arrow function, gets parentheses. | `ecma_enclose` | `ecma_enclose_fits`, `ecma_enclose_scopes`, `ecma_enclose_runs`, `ecma_enclose_sources` |
//! | Names with types round them are bound. | `ecma_bind` | `ecma_bind_fits`, `ecma_bind_scopes`, `ecma_bind_runs`, `ecma_bind_sources` |
//! | Each identifier gets the context of what it names. | `ecma_scope` | `ecma_scope_fits`, `ecma_scope_congruence` |
//! | Assignments are lowered. | `ecma_lower` | `ecma_lower_refusals`, `ecma_lower_sources`, `ecma_lower_scopes`, `ecma_lower_interface`, `ecma_lower_names`, `ecma_lower_runs` |
//! | No exported name is captured. | `ecma_exports` | `ecma_exports_hygiene` |
//! | Types are stripped. | `ecma_strip` | `ecma_strip_fits`, `ecma_strip_scopes`, `ecma_strip_conflicts`, `ecma_strip_runs`, `ecma_strip_idempotent` |
//! | `export {}` comes where nothing else says that the text is a module. | `ecma_lower` | `ecma_marks` |
//! | Bindings get final texts. | `ecma_hygiene` | `ecma_hygiene_exists`, `ecma_hygiene_fits`, `ecma_hygiene_scopes`, `ecma_hygiene_conflicts`, `ecma_hygiene_runs` |
//! | The tree is laid out as text, and that is read again. | `ecma_print` | `ecma_print_congruence`, `ecma_print_parentheses`, `ecma_print_covers`, `ecma_print_fits`, `ecma_print_explicit`, `ecma_print_tokens`, `ecma_print_reread`, `ecma_print_heads`, `ecma_print_shapes`; `ecma_round_trip`, `ecma_round_trip_literals`, `ecma_source_texts` |
//! | All of it: what is written is plain, imports and exports what its source does, and does what that does. | | `ecma_pipeline_plain`, `ecma_pipeline_interface`, `ecma_pipeline_runs`, and here |
//!
//! The way has two halves. A source is bound, resolved and lowered, and is ready then (`bound_sources_are_ready`); what is written for a tree that is ready does what the
//! tree does (`ready_trees_are_written`). A pass that lowers stands between the two: it owes that what it makes of a tree is ready, has its interface, and runs alike.
//! `export {}` is such a pass, since it may come before types go (`ecma_marks`). What ready is stands in `ecma_ready`. Elision stands before all of this: what it leaves
//! of a module is as modules are read (`converted_modules_do_what_their_sources_do`).
//!
//! Each function carries one law over the definitions, and does nothing but to call upon the laws that it is put together of. The laws are stated in
//! `specs/Laws.antt`.
#![tactic(auto)]

ghost use Rattle.ecma_pipeline.specs.Laws.{BoundSourcesAreReady, BoundSourcesRunAlike, ConvertedModulesDoWhatTheirSourcesDo, FinalTreesFit, ReadyTreesAreWritten, WrittenModulesAreNotRedeclared, WrittenModulesDoWhatTheirSourcesDo};

use ecma_bind_fits::bound_names_are_plain;
use ecma_bind_scopes::bound_names_do_not_matter_to_scopes;
use ecma_bind_sources::{bound_trees_are_read, bound_trees_are_taken};
use ecma_elide_sources::{
    elided_sources_are_read, elided_sources_are_taken, elided_sources_take_as_many_contexts,
    eliding_keeps_names_short, eliding_makes_no_names,
};
use ecma_enclose_runs::enclosed_trees_run_alike;
use ecma_enclose_scopes::enclosed_trees_scope_alike;
use ecma_enclose_sources::{enclosed_trees_are_read, enclosed_trees_are_taken};
use ecma_exports_hygiene::exports_that_are_not_captured_keep_their_texts;
use ecma_hygiene_fits::final_texts_keep_what_fits;
use ecma_hygiene_scopes::resolved_modules_keep_their_scopes_apart;
use ecma_lower_interface::lowered_trees_have_their_interface;
use ecma_lower_names::scopes_declare_what_runs_declare;
use ecma_lower_refusals::{
    bound_trees_are_refused_alike, contexts_do_not_matter_to_refusals,
    enclosed_trees_are_refused_alike,
};
use ecma_lower_runs::{lowered_trees_declare_alike, lowered_trees_run_alike};
use ecma_lower_scopes::{
    lowered_trees_are_not_redeclared, lowered_trees_have_own_contexts,
    lowered_trees_say_their_scopes,
};
use ecma_lower_sources::{
    contexts_do_not_matter_to_lowering, lowered_sources_are_read, lowered_sources_need_no_lowering,
    lowering_keeps_names_short, lowering_keeps_plain_targets, lowering_makes_free_names_alone,
};
use ecma_marks::{
    marked_before_or_after, marked_trees_are_ready, marked_trees_capture_alike,
    marked_trees_have_no_other_names, marked_trees_have_own_contexts,
    marked_trees_have_their_interface, marked_trees_run_alike,
};
use ecma_pipeline_interface::{
    bound_sources_have_their_interface, written_trees_have_their_interface,
};
use ecma_pipeline_names::{
    binding_keeps_names_short, contexts_keep_names_short, enclosing_keeps_names_short,
    names_that_are_read_are_short, stripping_keeps_names_short,
};
use ecma_pipeline_plain::{
    ready_trees_are_plain, resolved_trees_are_taken, trees_without_contexts_say_what_is_ready,
};
use ecma_pipeline_runs::passes_keep_runs;
use ecma_pipeline_spans::{
    binding_makes_no_names, contexts_make_no_names, enclosing_makes_no_names,
};
use ecma_round_trip_literals::what_fits_and_is_plain_is_read_again;
use ecma_scope_congruence::{
    parentheses_do_not_matter_to_conflicts, spans_do_not_matter_to_conflicts,
    spans_do_not_matter_to_contexts,
};
use ecma_scope_fits::contexts_do_not_matter_to_fits;
use ecma_source_texts::{
    source_texts_do_not_matter_to_conflicts, source_texts_do_not_matter_to_contexts,
    source_texts_do_not_matter_to_parentheses, source_texts_do_not_matter_to_runs,
};
use ecma_strip_fits::stripping_keeps_fits;
use ecma_text_sources::trees_that_are_read_are_read;
use ecma_text_spans::names_that_are_read_stand_in_the_source;

/// What is written for a module, each form of which is taken, and which without what the options drop has no assignment that is refused, declares no name again where it
/// may not, and has no exported name that is captured, is read again as a plain module, of the tree that was written, declares none again either, has the imports and exports that the options
/// leave of its source, and is observed to do what that does.
pub fn converted_modules_do_what_their_sources_do()
    ensures { ConvertedModulesDoWhatTheirSourcesDo }
{
    trees_that_are_read_are_read();
    names_that_are_read_are_short();
    names_that_are_read_stand_in_the_source();
    elided_sources_are_read();
    elided_sources_are_taken();
    eliding_keeps_names_short();
    eliding_makes_no_names();
    elided_sources_take_as_many_contexts();
    written_modules_do_what_their_sources_do();
}

/// What is written for a tree as modules are read: the same, of any whose identifiers are not too long and stand in a source.
pub fn written_modules_do_what_their_sources_do()
    ensures { WrittenModulesDoWhatTheirSourcesDo }
{
    enclosed_trees_are_read();
    enclosed_trees_are_taken();
    enclosed_trees_are_refused_alike();
    enclosing_keeps_names_short();
    enclosing_makes_no_names();
    enclosed_trees_scope_alike();
    enclosed_trees_run_alike();
    binding_makes_no_names();
    bound_sources_run_alike();
    bound_sources_have_their_interface();
    contexts_make_no_names();
    resolved_trees_are_taken();
    bound_sources_are_ready();
    lowering_makes_free_names_alone();
    scopes_declare_what_runs_declare();
    lowered_trees_declare_alike();
    lowered_trees_run_alike();
    lowered_trees_have_their_interface();
    marked_before_or_after();
    marked_trees_are_ready();
    marked_trees_have_own_contexts();
    marked_trees_have_no_other_names();
    marked_trees_capture_alike();
    marked_trees_run_alike();
    marked_trees_have_their_interface();
    exports_that_are_not_captured_keep_their_texts();
    ready_trees_are_written();
    written_trees_have_their_interface();
}

/// What is written for a tree that is ready, whose exported declarations keep their texts, and whose scopes have contexts of their own, is read again as a plain
/// module, of the tree that was written, declares no name again where it may not be, and is observed to do what the tree does: whether or not its literals
/// have source texts.
pub fn ready_trees_are_written()
    ensures { ReadyTreesAreWritten }
{
    final_trees_fit();
    ready_trees_are_plain();
    what_fits_and_is_plain_is_read_again();
    written_modules_are_not_redeclared();
    passes_keep_runs();
    spans_do_not_matter_to_contexts();
    spans_do_not_matter_to_conflicts();
    source_texts_do_not_matter_to_parentheses();
    source_texts_do_not_matter_to_contexts();
    source_texts_do_not_matter_to_conflicts();
    source_texts_do_not_matter_to_runs();
}

/// Ready: a module as it is read, each form of which is taken, and in which no assignment is refused, is ready to be stripped of its types, given its final texts and
/// written, once its names are bound, it is resolved and its assignments are lowered: if no identifier of it has a text of 2^32 - 64 bytes or more, no name is declared again where it may not be, and there were contexts enough.
pub fn bound_sources_are_ready()
    ensures { BoundSourcesAreReady }
{
    bound_trees_are_read();
    bound_trees_are_taken();
    bound_trees_are_refused_alike();
    bound_names_do_not_matter_to_scopes();
    bound_names_are_plain();
    contexts_do_not_matter_to_fits();
    resolved_trees_are_taken();
    contexts_do_not_matter_to_refusals();
    resolved_modules_keep_their_scopes_apart();
    binding_keeps_names_short();
    contexts_keep_names_short();
    lowered_sources_are_read();
    lowered_sources_need_no_lowering();
    lowering_keeps_names_short();
    lowering_keeps_plain_targets();
    contexts_do_not_matter_to_lowering();
    lowered_trees_say_their_scopes();
    lowered_trees_have_own_contexts();
    lowered_trees_are_not_redeclared();
    trees_without_contexts_say_what_is_ready();
}

/// Fits: a tree that is ready fits once it is stripped of its types and given its final texts.
pub fn final_trees_fit()
    ensures { FinalTreesFit }
{
    stripping_keeps_fits();
    stripping_keeps_names_short();
    final_texts_keep_what_fits();
}

/// Conflicts: what is read of a tree that is ready, and whose scopes have contexts of their own, once it is stripped of its types, given its final texts and
/// written, declares no name again where it may not be.
pub fn written_modules_are_not_redeclared()
    ensures { WrittenModulesAreNotRedeclared }
{
    parentheses_do_not_matter_to_conflicts();
    spans_do_not_matter_to_conflicts();
}

/// Runs: a module each form of which is taken, its names bound, resolved, is observed to do what the resolved module does.
pub fn bound_sources_run_alike()
    ensures { BoundSourcesRunAlike }
{}
