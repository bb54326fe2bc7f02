//! What is looked for in a node.
ghost use Rattle.std.specs.Prelude.{◌≡◌, ◌++◌, OnOk, IfOk};
ghost use Rattle.std.specs.List.{list_any};
ghost use Rattle.ecma_hygiene.specs.Ids.{declares, found, is_name_part, scope_soughts, soughts_in, var_sought};

use ecma_scope::{Part, Role, Sought, holds_vars, is_ambient, own_part, sought_in};
use ecma_tree::{Kind, NoMemory, Node};
use item_list::ItemList;
use std::alloc::Global;

fn is_name_part(part: Part) -> bool
    ensures { result ≡ is_name_part part }
{
    matches!(part, Part::Name(_))
}

fn declares(sought: Sought) -> bool
    ensures { result ≡ declares sought }
{
    is_name_part(sought.part) && sought.stays
}

/// Whether an identifier is declared where this is looked for.
pub(crate) fn is_declared(soughts: &ItemList<Sought>) -> bool
    ensures { result ≡ list_any declares soughts.now }
{
    for sought in soughts.as_slice() {
        if declares(*sought) {
            return true;
        }
    }
    false
}

fn push_found(sought: Option<Sought>, soughts: &mut ItemList<Sought>) -> Result<(), NoMemory>
    ensures { OnOk result (soughts.new ≡ soughts.old ++ found sought) }
{
    if let Some(sought) = sought {
        soughts.push(sought)?;
    }
    Ok(())
}

/// Puts what is looked for in the child at an index after what is there.
pub(crate) fn push_soughts_in(
    soughts: &ItemList<Sought>,
    node: &Node,
    index: usize,
    inner: &mut ItemList<Sought>,
) -> Result<(), NoMemory>
    ensures { OnOk result (inner.new ≡ inner.old ++ soughts_in soughts.now node.now index) }
{
    for sought in soughts.as_slice() {
        push_found(sought_in(*sought, node, index), inner)?;
    }
    Ok(())
}

/// What is looked for in the child at an index.
pub(crate) fn soughts_in(
    alloc: Global,
    soughts: &ItemList<Sought>,
    node: &Node,
    index: usize,
) -> Result<ItemList<Sought>, NoMemory>
    ensures { IfOk result (λ inner. inner ≡ soughts_in soughts.now node.now index) }
{
    let mut inner = ItemList::new(alloc);
    push_soughts_in(soughts, node, index, &mut inner)?;
    Ok(inner)
}

fn push_var_sought(holds: bool, stays: bool, soughts: &mut ItemList<Sought>) -> Result<(), NoMemory>
    ensures { OnOk result (soughts.new ≡ soughts.old ++ var_sought holds stays) }
{
    if holds {
        let part = Part::Var;
        soughts.push(Sought { part, stays })?;
    }
    Ok(())
}

/// Puts what is looked for in a node that opens a scope after what is there.
pub(crate) fn push_scope_soughts(
    role: Role,
    kind: &Kind,
    soughts: &mut ItemList<Sought>,
) -> Result<(), NoMemory>
    ensures { OnOk result (soughts.new ≡ soughts.old ++ scope_soughts role kind.now) }
{
    let stays = !is_ambient(role);
    let part = own_part(role);
    soughts.push(Sought { part, stays })?;
    push_var_sought(holds_vars(role, kind), stays, soughts)
}
