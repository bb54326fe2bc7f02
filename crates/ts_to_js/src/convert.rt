//! The conversion: the bytes of a TypeScript module to those of a JavaScript module, pass by pass.
ghost use Rattle.std.specs.Prelude.{◌≡◌, ◌<◌, ◌≤◌, ◌↔◌, ◌+◌, ◌-◌, ◌⊎◌, length, true, false, None, Ok, MatchOption, Option, IfErr, IfOk, IsOk, IsTrue, OnErr, OnOk};
ghost use Rattle.std.specs.Str.{is_utf8};
ghost use Rattle.ecma_hygiene.specs.Hygienic.{IsHygienic};
ghost use Rattle.ecma_lower.specs.Marking.{marked};
ghost use Rattle.ecma_scope.specs.Needs.{needed};
ghost use Rattle.ecma_scope.specs.Resolved.{contexts, resolved};
ghost use Rattle.ecma_strip.specs.Stripping.{stripped};
ghost use Rattle.ecma_modules.specs.Modules.{deepest, reads_as, typescript};
ghost use Rattle.ecma_plain.specs.Read.{IsRead};
ghost use Rattle.ts_to_js.specs.Answer.{AnswersBy};
ghost use Rattle.ts_to_js.specs.Conversion.{ComesOf, ComesOfReading, HasDrawnFor, IsConverted, Leaves};
ghost use Rattle.ts_to_js.specs.Headline.{IsConversion, IsValid};
ghost use Rattle.ts_to_js.specs.Refusals.{ReadingNeedsAtMost, refused, refused_early, refused_late};
ghost use Rattle.ts_to_js.specs.Stages.{ready_of};

use crate::drawing::draw_to;
use crate::error::TsError;
use crate::options::Options;
use ecma_bind::bind_names;
use ecma_config::Config;
use ecma_elide_sources::{elide_source, elided_sources_take_as_many_contexts};
use ecma_enclose::enclose;
use ecma_exports::check_exports;
use ecma_forms::first_untaken;
use ecma_hygiene::hygiene;
use ecma_lower::{check_lowering, has_module_declaration, lower_assignments, mark_module};
use ecma_pipeline::converted_modules_do_what_their_sources_do;
use ecma_print::print_module;
use ecma_scope::{check_scopes, needs, resolve};
use ecma_strip::strip_type;
use ecma_text::read_module;
use ecma_text_contexts::needed_is_bounded_by_the_text;
use ecma_text_sources::trees_that_are_read_are_read;
use ecma_tree::{Mark, Module, NoMemory, PassError, Session, SyntaxContext};
use std::alloc::Global;
use std::mem::ManuallyDrop;

/// How many bytes a module may have.
pub const LIMIT: usize = 4_194_304;

/// Converts the bytes of a TypeScript module to those of a JavaScript module.
pub fn ts_to_js(
    alloc: Global,
    session: &mut Session,
    src: &[u8],
    options: &Options,
) -> Result<Vec<u8>, TsError>
    // The text is the layout of the tree that is written for the module; else the first refusal that holds is answered.
    // Want of memory alone may come instead, but for `TooLong` and `NotUtf8`, which take none.
    ensures text { AnswersBy result (IsConverted options.now.config session.old.left src.now) }
    // It is a plain module that does what the source does.
    ensures conversion { IfOk result (λ text. IsConversion options.now.config session.old.left src.now text.items) }
    ensures valid { IsValid options.now.config session.old.left src.now → (IsOk result) ⊎ (result ≡ Err TsError.NoMemory) }
    // With the text, two contexts are drawn, and one for each scope; else none. Nothing else of the session changes.
    ensures session { Leaves result src.now session.old session.new }
{
    converted(alloc, session, src, options, Behind::Goes)
}

/// Whether the program goes on behind a conversion, or ends: then the memory of the tree is left to the system, which takes all of it at once. Else the tree
/// is let go of, node by node. It changes nothing in what is answered.
#[derive(Clone, Copy)]
pub(crate) enum Behind {
    Goes,
    Ends,
}

/// Converts the bytes of a module as [`ts_to_js`] does.
pub(crate) fn converted(
    alloc: Global,
    session: &mut Session,
    src: &[u8],
    options: &Options,
    behind: Behind,
) -> Result<Vec<u8>, TsError>
    ensures text { AnswersBy result (IsConverted options.now.config session.old.left src.now) }
    ensures conversion { IfOk result (λ text. IsConversion options.now.config session.old.left src.now text.items) }
    ensures valid { IsValid options.now.config session.old.left src.now → (IsOk result) ⊎ (result ≡ Err TsError.NoMemory) }
    ensures session { Leaves result src.now session.old session.new }
{
    converted_modules_do_what_their_sources_do();
    convert_bytes(alloc, session, src, options, behind)
}

fn convert_bytes(
    alloc: Global,
    session: &mut Session,
    src: &[u8],
    options: &Options,
    behind: Behind,
) -> Result<Vec<u8>, TsError>
    ensures text { AnswersBy result (IsConverted options.now.config session.old.left src.now) }
    ensures session { Leaves result src.now session.old session.new }
{
    if src.len() > LIMIT {
        return Err(TsError::TooLong);
    }
    match decoded(src) {
        None => Err(TsError::NotUtf8),
        Some(text) => convert_text(alloc, session, text, options, behind),
    }
}

/// The bytes as a text, if they are UTF-8.
#[tactic(auto, using(crate::proofs::Utf8::tests))]
pub fn decoded(src: &[u8]) -> Option<&str>
    ensures { MatchOption result (is_utf8 src.now ≡ false) (λ text. (is_utf8 src.now ≡ true) × (text.now ≡ src.now)) }
{
    match str::from_utf8(src) {
        Ok(text) => Some(text),
        Err(_) => None,
    }
}

fn convert_text(
    alloc: Global,
    session: &mut Session,
    text: &str,
    options: &Options,
    behind: Behind,
) -> Result<Vec<u8>, TsError>
    requires { length text.now ≤ LIMIT }
    ensures text { AnswersBy result (ComesOfReading options.now.config session.old.left (reads_as text.now typescript deepest)) }
    ensures session { Leaves result text.now session.old session.new }
{
    trees_that_are_read_are_read();
    let tree = read_module(alloc, text)?;
    convert_tree(alloc, session, tree, text, options, behind)
}

/// Converts the tree that was read of a text, if nothing refuses it.
fn convert_tree(
    alloc: Global,
    session: &mut Session,
    tree: Module,
    text: &str,
    options: &Options,
    behind: Behind,
) -> Result<Vec<u8>, TsError>
    requires short { length text.now ≤ LIMIT }
    requires read { reads_as text.now typescript deepest ≡ Ok tree }
    requires source { IsRead tree }
    ensures text { AnswersBy result (ComesOf options.now.config session.old.left (refused options.now.config session.old.left tree) tree) }
    ensures session { Leaves result text.now session.old session.new }
{
    accept(session, &tree, text, &options.config)?;
    convert_accepted(alloc, session, tree, options, behind)
}

/// Whether each form of the tree of a text is taken, and contexts enough are left; else the first of these that fails.
fn accept(session: &Session, tree: &Module, text: &str, config: &Config) -> Result<(), TsError>
    requires short { length text.now ≤ LIMIT }
    requires read { reads_as text.now typescript deepest ≡ Ok tree.now }
    ensures accepted { OnOk result (refused_early config.now session.now.left tree.now ≡ None) }
    ensures refusal { IfErr result (λ refusal. refused_early config.now session.now.left tree.now ≡ Some refusal) }
{
    if let Some(at) = first_untaken(config.import_export_assign_config, tree) {
        return Err(TsError::Syntax { at });
    }
    if is_spent(session, tree, text) {
        return Err(TsError::Spent);
    }
    Ok(())
}

/// Whether fewer contexts are left than the tree of a text needs. What it needs is counted by a walk over the whole tree, and is bounded by the bytes
/// of the text: where as many are left as that bound, nothing is counted. A run has always as many, since it begins with all contexts.
fn is_spent(session: &Session, tree: &Module, text: &str) -> bool
    requires short { length text.now ≤ LIMIT }
    requires read { reads_as text.now typescript deepest ≡ Ok tree.now }
    ensures { IsTrue result ↔ (session.now.left < needed tree.now) }
{
    let left = u64::from(session.left());
    left < most_needed(text) && left < needs(tree)
}

/// How many contexts what is read of a text needs at most: a hundred for each of its bytes, and twenty more.
fn most_needed(text: &str) -> u64
    requires { length text.now ≤ LIMIT }
    ensures { ReadingNeedsAtMost text.now result }
{
    needed_is_bounded_by_the_text();
    100 * text.len() as u64 + 20
}

/// Converts a tree each form of which is taken, and for which contexts enough are left, if nothing else refuses it.
fn convert_accepted(
    alloc: Global,
    session: &mut Session,
    tree: Module,
    options: &Options,
    behind: Behind,
) -> Result<Vec<u8>, TsError>
    requires source { IsRead tree }
    requires enough { needed tree ≤ session.old.left }
    ensures text { AnswersBy result (ComesOf options.now.config session.old.left (refused_late options.now.config session.old.left tree) tree) }
    ensures drawn { OnOk result (HasDrawnFor tree session.old session.new) }
    ensures kept { OnErr result (session.new ≡ session.old) }
{
    match behind {
        Behind::Ends => {
            let mut left = ManuallyDrop::new(tree);
            written(alloc, session, &mut left, &options.config)
        }
        Behind::Goes => {
            let mut tree = tree;
            written(alloc, session, &mut tree, &options.config)
        }
    }
}

/// The text of what a tree becomes, if no name of it refuses it.
fn written(
    alloc: Global,
    session: &mut Session,
    tree: &mut Module,
    config: &Config,
) -> Result<Vec<u8>, TsError>
    requires source { IsRead tree.old }
    requires enough { needed tree.old ≤ session.old.left }
    ensures text { AnswersBy result (ComesOf config.now session.old.left (refused_late config.now session.old.left tree.old) tree.old) }
    ensures drawn { OnOk result (HasDrawnFor tree.old session.old session.new) }
    ensures kept { OnErr result (session.new ≡ session.old) }
{
    let was_module = has_module_declaration(tree);
    let left = make_ready(alloc, session, tree, config)?;
    finish(alloc, tree, config, was_module)?;
    let text = print_module(alloc, tree)?;
    draw_to(session, left);
    Ok(text)
}

/// Takes out of a tree what the options drop of its imports and exports, encloses what would be read as something else, binds names with types round them, gives
/// the tree its bindings, and lowers its assignments: if none of these is refused, no name is declared again, and none is exported that is not declared or would be
/// captured. Says how many contexts of the session would be left then.
fn make_ready(
    alloc: Global,
    session: &Session,
    tree: &mut Module,
    config: &Config,
) -> Result<u32, TsError>
    requires source { IsRead tree.old }
    requires enough { needed tree.old ≤ session.now.left }
    ensures tree { OnOk result (tree.new ≡ ready_of config.now session.now.left tree.old) }
    ensures left { IfOk result (λ now. now + (contexts tree.old + 2) ≡ session.now.left) }
    ensures accepted { OnOk result (refused_late config.now session.now.left tree.old ≡ None) }
    ensures refusal { IfErr result (λ refusal. (refusal ≡ TsError.NoMemory) ⊎ (refused_late config.now session.now.left tree.old ≡ Some refusal)) }
{
    elided_sources_take_as_many_contexts();
    elide_source(alloc, session, tree, config)?;
    check_lowering(alloc, tree, config)?;
    check_scopes(alloc, tree)?;
    enclose(alloc, tree)?;
    bind_names(alloc, tree)?;
    let given = resolve_names(alloc, session.left(), tree)?;
    lower_assignments(
        alloc,
        config.import_export_assign_config,
        given.unresolved,
        tree,
    )?;
    check_exports(alloc, given.free, tree)?;
    Ok(given.left)
}

/// What was given to a tree: the mark and the context of its free names, and how many contexts are left.
#[derive(Clone, Copy)]
struct Given {
    unresolved: Mark,
    free: SyntaxContext,
    left: u32,
}

/// Gives a tree its bindings, where so many contexts are left.
fn resolve_names(alloc: Global, left: u32, tree: &mut Module) -> Result<Given, NoMemory>
    requires { contexts tree.old + 2 ≤ left }
    ensures tree { OnOk result (tree.new ≡ resolved left (left - 1) (left - 2) tree.old) }
    ensures unresolved { IfOk result (λ given. given.unresolved ≡ left) }
    ensures free { IfOk result (λ given. given.free ≡ left) }
    ensures left { IfOk result (λ given. given.left + (contexts tree.old + 2) ≡ left) }
{
    let mut session = Session::new(left);
    let (Ok(unresolved), Ok(top)) = (session.fresh_mark(), session.fresh_mark()) else {
        unreachable!()
    };
    match resolve(alloc, &mut session, tree, unresolved, top) {
        Ok(()) => Ok(Given {
            unresolved,
            free: SyntaxContext::empty().apply_mark(unresolved),
            left: session.left(),
        }),
        Err(PassError::NoMemory) => Err(NoMemory),
        Err(PassError::Spent) => unreachable!(),
    }
}

/// Takes the types out of a tree, adds `export {}` where nothing else says that it is a module, and gives the bindings their final texts.
fn finish(
    alloc: Global,
    tree: &mut Module,
    config: &Config,
    was_module: bool,
) -> Result<(), NoMemory>
    ensures { OnOk result (IsHygienic (marked config.now.no_empty_export was_module (stripped tree.old)) tree.new) }
{
    strip_type().visit_mut_module(alloc, tree)?;
    mark_module(alloc, config, was_module, tree)?;
    hygiene(alloc, tree)
}
