//! What the items of a list declare that may merge with others of its name.
ghost use Rattle.std.specs.Prelude.{◌≡◌, ◌++◌, IfOk, OnOk};
ghost use Rattle.std.specs.Option.{option_copied};
ghost use Rattle.ecma_tree.specs.declared.node.Node.{out-Node};
ghost use Rattle.ecma_merging.specs.Items.{adds, declaration_of, declared_at, declared_by, declared_in, is_export, name_in};

use ecma_tree::{Ident, JsWord, Kind, NoMemory, Node, is_value_where};
use item_list::ItemList;
use std::alloc::Global;

/// A declaration that may merge with others of its name.
#[derive(Drop)]
pub(crate) struct Declared {
    pub(crate) name: JsWord,
    /// The byte offset of the name, from 0 on.
    pub(crate) at: u32,
    /// Whether it adds to those before it, as an enum and a namespace do.
    pub(crate) adds: bool,
    /// Whether `export` stands before it.
    pub(crate) is_exported: bool,
}

#[tactic(auto, unfolding(crate::specs::Items::is_export))]
fn is_export(kind: &Kind) -> bool
    ensures { result ≡ is_export kind.now }
{
    matches!(kind, Kind::ExportDecl | Kind::ExportDefaultDecl)
}

/// The declaration that an item is, or that stands behind its `export`.
pub(crate) fn declaration_of(item: &Node) -> Option<&Node>
    ensures { option_copied result ≡ declaration_of item.now }
{
    if is_export(&item.kind) {
        item.children.get(0)
    } else {
        Some(item)
    }
}

/// Whether a declaration adds to those of its name before it, if it may merge.
#[tactic(auto, unfolding(crate::specs::Items::adds))]
fn adds(kind: &Kind) -> Option<bool>
    ensures { result ≡ adds kind.now }
{
    match kind {
        Kind::FnDecl { .. } => Some(false),
        Kind::FnExpr => Some(false),
        Kind::ClassDecl { .. } => Some(false),
        Kind::ClassExpr => Some(false),
        Kind::TsEnumDecl { .. } => Some(true),
        Kind::TsModuleDecl { global: false, .. } => Some(true),
        _ => None,
    }
}

/// The name of a declaration.
pub(crate) fn name_in(node: &Node) -> Result<Option<Ident>, NoMemory>
    ensures { IfOk result (λ name. name ≡ name_in node.now) }
{
    match node.children.get(0) {
        Some(child) => child.to_ident(),
        None => Ok(None),
    }
}

fn push_declared_by(
    ambient: bool,
    is_exported: bool,
    node: &Node,
    declared: &mut ItemList<Declared>,
) -> Result<(), NoMemory>
    ensures { OnOk result (declared.new ≡ declared.old ++ declared_by ambient is_exported node.now) }
{
    if !is_value_where(!ambient, node) {
        return Ok(());
    }
    let Some(adds) = adds(&node.kind) else {
        return Ok(());
    };
    if let Some(
        Ident {
            sym: name,
            span,
            ..
        },
    ) = name_in(node)?
    {
        let at = span.lo;
        declared.push(Declared {
            name,
            at,
            adds,
            is_exported,
        })?;
    }
    Ok(())
}

fn push_declared_at(
    ambient: bool,
    item: &Node,
    declared: &mut ItemList<Declared>,
) -> Result<(), NoMemory>
    ensures { OnOk result (declared.new ≡ declared.old ++ declared_at ambient item.now) }
{
    match declaration_of(item) {
        Some(node) => push_declared_by(ambient, is_export(&item.kind), node, declared),
        None => Ok(()),
    }
}

/// The value declarations of a list that may merge, in the order of the text.
#[tactic(auto, using(crate::proofs::Among::giving))]
pub(crate) fn declared_in(
    alloc: Global,
    ambient: bool,
    items: &[Node],
) -> Result<ItemList<Declared>, NoMemory>
    ensures { IfOk result (λ declared. declared ≡ declared_in ambient items.now) }
{
    let mut declared = ItemList::new(alloc);
    for item in items {
        push_declared_at(ambient, item, &mut declared)?;
    }
    Ok(declared)
}
