//! The name that an expression is.
ghost use Rattle.std.specs.Prelude.{◌≡◌, IfOk};
ghost use Rattle.ecma_enums.specs.Names as table;

use ecma_tree::{Id, Kind, NoMemory, Node};

/// The same of the child at an index.
#[cycle(names)]
#[tactic(auto, using(crate::proofs::Naming::naming))]
pub(crate) fn name_at(node: &Node, index: usize) -> Result<Option<Id>, NoMemory>
    ensures { IfOk result (λ name. name ≡ table.name_at node.now index) }
{
    match node.children.get(index) {
        Some(child) => name_under(child),
        None => Ok(None),
    }
}

/// The id of the name that an expression is, also with types round it.
#[cycle(names)]
#[tactic(auto, using(crate::proofs::Naming::naming), unfolding(crate::specs::Names::name_by))]
fn name_under(node: &Node) -> Result<Option<Id>, NoMemory>
    ensures { IfOk result (λ name. name ≡ table.name_under node.now) }
{
    match &node.kind {
        Kind::Ident { sym, ctxt, .. } => Ok(Some((sym.clone()?, *ctxt))),
        Kind::TsTypeAssertion => name_at(node, 0),
        Kind::TsConstAssertion => name_at(node, 0),
        Kind::TsNonNullExpr => name_at(node, 0),
        Kind::TsAsExpr => name_at(node, 0),
        Kind::TsInstantiation => name_at(node, 0),
        Kind::TsSatisfiesExpr => name_at(node, 0),
        _ => Ok(None),
    }
}
