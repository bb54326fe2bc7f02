//! The pass that takes imports and exports out that stand for types alone, or that nothing uses.
ghost use Rattle.std.specs.Prelude.{◌≡◌, filter, not, OnErr, OnOk};
ghost use Rattle.ecma_rewriting.specs.Rewriting.{become};
ghost use Rattle.ecma_tree.specs.Nodes.{node_of};
ghost use Rattle.ecma_tree.specs.declared.node.Node.{out-Node};
ghost use Rattle.ecma_elide.specs.Elision.{elided, eliding, keeps_imports, remaining, without_unused};
ghost use Rattle.ecma_elide.specs.Rules.{goes};
ghost use Rattle.ecma_elide.specs.Sets.{known_by};

use crate::going::goes;
use crate::known::{Names, names_of};
use crate::seat::{Seat, seat_in};
use ecma_config::{Config, ImportsNotUsedAsValues};
use ecma_scope::is_there;
use ecma_tree::{Kind, Module, NoMemory, Node};
use std::alloc::Global;

/// Drops what goes from a list that stands in a seat.
fn drop_items(names: &Names, seat: Seat, list: &mut Node)
    ensures { list.new ≡ node_of (out-Node list.old).span (out-Node list.old).kind
        (filter (λ n. not (goes (known_by names.now) seat (out-Node n).kind (out-Node n).children)) (out-Node list.old).children) }
{
    list.children.retain(|item| !goes(names, seat, item));
}

/// Drops what goes from a node that is a list.
fn drop_from_list(names: &Names, seat: Seat, node: &mut Node)
    ensures { node.new ≡ node_of (out-Node node.old).span (out-Node node.old).kind
        (remaining (known_by names.now) seat (out-Node node.old).kind (out-Node node.old).children) }
{
    match &node.kind {
        Kind::List => drop_items(names, seat, node),
        _ => {}
    }
}

/// Takes what goes out of a node that stands in a seat, with all below it.
fn elide_at(alloc: Global, names: &Names, seat: Seat, node: &mut Node)
    ensures { node.new ≡ become (eliding (known_by names.now)) seat node.old }
{
    if goes(names, seat, node) {
        *node = Node::absent(alloc);
        return;
    }
    let sourced = is_there(node, 1);
    drop_from_list(names, seat, node);
    let count = node.children.len();
    for i in 0..count {
        let inside = seat_in(seat, &node.kind, sourced, i);
        elide_at(alloc, names, inside, node.children.get_mut(i));
    }
}

fn keeps_imports(not_used: ImportsNotUsedAsValues) -> bool
    ensures { result ≡ keeps_imports not_used }
{
    matches!(not_used, ImportsNotUsedAsValues::Preserve)
}

/// The pass that takes imports and exports out of a resolved module that stand for types alone, or that nothing uses.
#[derive(Clone, Copy, Debug)]
pub struct StripImportExport {
    /// What becomes of an import none of whose names is used as a value.
    pub import_not_used_as_values: ImportsNotUsedAsValues,
}

impl StripImportExport {
    /// Takes them out (docs/ELISION.md has the rules). Its only refusal is want of memory, which leaves the module as it was.
    pub fn visit_mut_module(&mut self, alloc: Global, module: &mut Module) -> Result<(), NoMemory>
        ensures done { OnOk result («module».new ≡ without_unused self.old.import_not_used_as_values «module».old) }
        ensures kept { OnErr result («module».new ≡ «module».old) }
    {
        let keeps = keeps_imports(self.import_not_used_as_values);
        let names = names_of(alloc, keeps, module)?;
        elide_at(alloc, &names, Seat::Elsewhere, module);
        Ok(())
    }
}

/// Takes out of a resolved module what the options drop of its imports and exports: nothing under `verbatim_module_syntax`, where what is written `type` goes
/// with the types. Its only refusal is want of memory, which leaves the module as it was.
pub fn elide(alloc: Global, config: &Config, tree: &mut Module) -> Result<(), NoMemory>
    ensures done { OnOk result (tree.new ≡ elided config.now tree.old) }
    ensures kept { OnErr result (tree.new ≡ tree.old) }
{
    if config.verbatim_module_syntax {
        return Ok(());
    }
    let mut pass = StripImportExport {
        import_not_used_as_values: config.import_not_used_as_values,
    };
    pass.visit_mut_module(alloc, tree)
}
