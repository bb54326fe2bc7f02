//! What is empty.
ghost use Rattle.std.specs.Prelude.{◌≡◌, Bool};
ghost use Rattle.ecma_utils.specs.Emptiness.{list_is_empty, option_is_empty};
ghost use Rattle.ecma_utils.specs.Statements.{has_empty_body, has_no_stmts, is_empty_node, is_nil};

use ecma_tree::{Kind, Node, Nodes};
use item_list::ItemList;

/// What may be empty. The call takes no memory.
pub trait IsEmpty {
    ghost empty: { Self → Bool };

    fn is_empty(&self) -> bool
        ensures { result ≡ empty self.now };
}

fn is_nil(nodes: &Nodes) -> bool
    ensures { result ≡ is_nil nodes.now }
{
    nodes.len() == 0
}

fn has_no_stmts(children: &Nodes) -> bool
    ensures { result ≡ has_no_stmts children.now }
{
    match children.get(0) {
        Some(list) => is_nil(&list.children),
        None => true,
    }
}

fn has_empty_body(children: &Nodes) -> bool
    ensures { result ≡ has_empty_body children.now }
{
    match children.get(1) {
        Some(body) => has_no_stmts(&body.children),
        None => true,
    }
}

/// An empty statement; a block without statements; a catch clause with such a block.
impl IsEmpty for Node {
    ghost empty = { is_empty_node };

    fn is_empty(&self) -> bool {
        match &self.kind {
            Kind::EmptyStmt => true,
            Kind::BlockStmt => has_no_stmts(&self.children),
            Kind::CatchClause => has_empty_body(&self.children),
            _ => false,
        }
    }
}

/// None is empty, and some value is as that value is.
impl<T: IsEmpty> IsEmpty for Option<T> {
    ghost empty = { option_is_empty T.empty };

    fn is_empty(&self) -> bool {
        match self {
            Some(value) => value.is_empty(),
            None => true,
        }
    }
}

impl<T> IsEmpty for Vec<T> {
    ghost empty = { λ items. list_is_empty items.items };

    fn is_empty(&self) -> bool {
        self.len() == 0
    }
}

impl<T> IsEmpty for ItemList<T> {
    ghost empty = { λ items. list_is_empty items };

    fn is_empty(&self) -> bool {
        self.len() == 0
    }
}
