//! What the options drop of a module as it is read.
ghost use Rattle.std.specs.Prelude.{◌≡◌, ◌≤◌, ◌+◌, ◌-◌, OnOk};
ghost use Rattle.ecma_scope.specs.Laws.{without_contexts};
ghost use Rattle.ecma_scope.specs.Resolved.{contexts, resolved};
ghost use Rattle.ecma_elide_sources.specs.Sources.{elided_source, is_kept};

use crate::asking::holds_any;
use crate::clearing::drop_contexts;
use ecma_config::Config;
use ecma_elide::elide;
use ecma_scope::resolve;
use ecma_tree::{Module, NoMemory, PassError, Session};
use std::alloc::Global;

/// Gives a tree its bindings: free names the first context, the module the next one, and each scope one of those after these.
fn resolve_names(alloc: Global, session: &mut Session, tree: &mut Module) -> Result<(), NoMemory>
    requires { contexts tree.old + 2 ≤ session.old.left }
    ensures { OnOk result (tree.new ≡ resolved session.old.left (session.old.left - 1) (session.old.left - 2) tree.old) }
{
    let (Ok(unresolved), Ok(top)) = (session.fresh_mark(), session.fresh_mark()) else {
        unreachable!()
    };
    match resolve(alloc, session, tree, unresolved, top) {
        Ok(()) => Ok(()),
        Err(PassError::NoMemory) => Err(NoMemory),
        Err(PassError::Spent) => unreachable!(),
    }
}

/// Drops what the options drop, of a tree in which something may go.
fn drop_items(alloc: Global, left: u32, tree: &mut Module, config: &Config) -> Result<(), NoMemory>
    requires { contexts tree.old + 2 ≤ left }
    ensures { OnOk result (tree.new ≡ elided_source config.now left (left - 1) (left - 2) tree.old) }
{
    let mut own = Session::new(left);
    resolve_names(alloc, &mut own, tree)?;
    elide(alloc, config, tree)?;
    drop_contexts(tree);
    Ok(())
}

/// Whether nothing is dropped, whatever the names of the tree are.
fn is_kept(tree: &Module, config: &Config) -> bool
    ensures { result ≡ is_kept config.now tree.now }
{
    config.verbatim_module_syntax || !holds_any(tree)
}

/// Takes out of a module as it is read what the options drop of its imports and exports: nothing under `verbatim_module_syntax`, where what is written `type`
/// goes with the types. The session is as it was; what is dropped is asked with the contexts that it would give next. Its only refusal is want of memory, which
/// leaves the tree half done.
pub fn elide_source(
    alloc: Global,
    session: &Session,
    tree: &mut Module,
    config: &Config,
) -> Result<(), NoMemory>
    requires bare { without_contexts tree.old ≡ tree.old }
    requires enough { contexts tree.old + 2 ≤ session.now.left }
    ensures { OnOk result (tree.new ≡ elided_source config.now session.now.left (session.now.left - 1) (session.now.left - 2) tree.old) }
{
    if is_kept(tree, config) {
        return Ok(());
    }
    drop_items(alloc, session.left(), tree, config)
}
