//! The least place of a node of a form that is not taken.
ghost use Rattle.std.specs.Prelude.{◌≡◌, Bool, ◌||◌, false};
ghost use Rattle.ecma_rules.specs.Failing.{first_failing};
ghost use Rattle.ecma_forms.specs.Forms.{first_untaken, gone_inside, goes_from_list, leaves, untaken_here};

use crate::forms::is_untaken;
use ecma_config::TsImportExportAssignConfig;
use ecma_rules::{failing_here, least};
use ecma_strip::stays;
use ecma_tree::{Kind, Module, Node};

/// Whether an item goes from a list when the types of the list are taken out.
fn leaves(item: &Node) -> bool
    ensures { result ≡ leaves item.now }
{
    !stays(item)
}

fn goes_from_list(node: &Node, i: usize) -> bool
    ensures { result ≡ goes_from_list node.now i }
{
    if !matches!(node.kind, Kind::List) {
        return false;
    }
    match node.children.get(i) {
        Some(item) => leaves(item),
        None => false,
    }
}

/// Where a node begins that is not gone and not taken.
fn untaken_here(assign: TsImportExportAssignConfig, gone: bool, node: &Node) -> Option<u32>
    ensures { result ≡ untaken_here assign gone node.now }
{
    failing_here(!gone && is_untaken(assign, node), node)
}

/// Whether the child at an index is gone.
fn gone_inside(gone: bool, node: &Node, i: usize) -> bool
    ensures { result ≡ gone_inside gone node.now i }
{
    gone || goes_from_list(node, i)
}

/// The least place in a tree that is gone, or is not.
fn first_in(assign: TsImportExportAssignConfig, tree: &Node, gone: bool) -> Option<u32>
    ensures { result ≡ first_failing Bool (untaken_here assign) gone_inside tree.now gone }
{
    let mut found = untaken_here(assign, gone, tree);
    for i in 0..tree.children.len() {
        let around = gone_inside(gone, tree, i);
        let below = first_in(assign, tree.children.at(i), around);
        found = least(found, below);
    }
    found
}

/// The least place at which a node begins whose form the program does not take, but for what goes with the types; none exactly where it takes the form of each
/// other node of the module. Assignments are taken but where the option keeps them, or makes a `require` for them.
pub fn first_untaken(assign: TsImportExportAssignConfig, tree: &Module) -> Option<u32>
    ensures { result ≡ first_untaken assign tree.now }
{
    first_in(assign, tree, false)
}
