//! Names as what `var` declares.
ghost use Rattle.std.specs.Prelude.{◌≡◌, ◌++◌, IfOk, OnOk, map};
ghost use Rattle.ecma_kind.specs.declared.ident.Ident.{Ident};
ghost use Rattle.ecma_find.specs.declared.finder.Finder.TheVariants as which;
ghost use Rattle.ecma_find.specs.Found.{found_as};
ghost use Rattle.ecma_idents.specs.Identities.{plain_ident};
ghost use Rattle.ecma_find.specs.Names.{name_as};
ghost use Rattle.ecma_find.specs.Vars.{declarator, var_of};

use crate::names::extract_var_ids;
use ecma_tree::{DUMMY_SP, Ident, NoMemory, Node, NodeRef, Nodes, VarDeclKind};
use item_list::ItemList;
use std::alloc::Global;

/// The declarator of a name, without a value.
fn declarator(alloc: Global, ident: Ident) -> Result<Node, NoMemory>
    ensures { IfOk result (λ node. node ≡ declarator ident) }
{
    let span = ident.span;
    let name = Node::binding_ident(alloc, span, Node::of_ident(alloc, ident), None)?;
    Node::var_declarator(alloc, span, false, name, None)
}

/// The declarators of these names, in order.
fn declarators(alloc: Global, idents: ItemList<Ident>) -> Result<Nodes, NoMemory>
    ensures { IfOk result (λ nodes. nodes ≡ map declarator idents) }
{
    let mut nodes = Nodes::new(alloc);
    for ident in idents.into_vec() {
        nodes.push(declarator(alloc, ident)?)?;
    }
    Ok(nodes)
}

/// The names of [`extract_var_ids`] as what one `var` declares, without values; `None` exactly where there are none.
/// The only refusal is want of memory.
pub(crate) fn vars_of(alloc: Global, part: NodeRef<'_>) -> Result<Option<Node>, NoMemory>
    ensures { IfOk result (λ var. var
        ≡ var_of (found_as Ident (name_as Ident plain_ident) which.Vars part.entry)) }
{
    let idents = extract_var_ids(alloc, part)?;
    if idents.is_empty() {
        return Ok(None);
    }
    let decls = declarators(alloc, idents)?;
    let var = Node::var_decl(alloc, DUMMY_SP, VarDeclKind::Var, false, decls)?;
    Ok(Some(var))
}
