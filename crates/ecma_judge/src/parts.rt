//! What tells nodes apart by their kinds and their children.
ghost use Rattle.std.specs.Prelude.{◌≡◌, length};
ghost use Rattle.ecma_tree.specs.declared.node.Node.{out-Node};
ghost use Rattle.ecma_judge.specs.Parts.{has_no_items, is_array, is_block, is_declared_name, is_empty_block, is_number_literal, is_optional_call, is_spread, is_text_literal, is_there};
ghost use Rattle.ecma_judge.specs.Values.{last_index};

use ecma_tree::{Kind, Node};

pub(crate) fn is_there(node: &Node) -> bool
    ensures { result ≡ is_there node.now }
{
    !matches!(node.kind, Kind::Absent)
}

pub(crate) fn is_text_literal(kind: &Kind) -> bool
    ensures { result ≡ is_text_literal kind.now }
{
    matches!(kind, Kind::Str { .. })
}

pub(crate) fn is_number_literal(kind: &Kind) -> bool
    ensures { result ≡ is_number_literal kind.now }
{
    matches!(kind, Kind::Number { .. })
}

pub(crate) fn is_array(kind: &Kind) -> bool
    ensures { result ≡ is_array kind.now }
{
    matches!(kind, Kind::ArrayLit)
}

pub(crate) fn is_spread(kind: &Kind) -> bool
    ensures { result ≡ is_spread kind.now }
{
    matches!(kind, Kind::SpreadElement)
}

pub(crate) fn is_declared_name(kind: &Kind) -> bool
    ensures { result ≡ is_declared_name kind.now }
{
    matches!(kind, Kind::BindingIdent)
}

pub(crate) fn is_optional_call(kind: &Kind) -> bool
    ensures { result ≡ is_optional_call kind.now }
{
    matches!(kind, Kind::OptCall)
}

fn is_block(kind: &Kind) -> bool
    ensures { result ≡ is_block kind.now }
{
    matches!(kind, Kind::BlockStmt)
}

pub(crate) fn has_no_items(list: &Node) -> bool
    ensures { result ≡ has_no_items list.now }
{
    list.children.is_empty()
}

/// Whether a node is a block with nothing in it.
pub(crate) fn is_empty_block(node: &Node) -> bool
    ensures { result ≡ is_empty_block node.now }
{
    if !is_block(&node.kind) {
        return false;
    }
    match node.children.get(0) {
        Some(list) => has_no_items(list),
        None => false,
    }
}

/// The index of the last child.
pub(crate) fn last_index(node: &Node) -> usize
    ensures { result ≡ last_index (length (out-Node node.now).children) }
{
    let count = node.children.len();
    if count == 0 {
        return 0;
    }
    count - 1
}
