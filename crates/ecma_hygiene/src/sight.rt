//! What the walk over a module notes down: the identifiers that it sees, and which names have to be told from which bindings.
use ecma_tree::Id;

/// An identifier of a tree: its id, whether it stands in the source, and whether it is declared here.
#[derive(Debug, Drop)]
pub struct Sight {
    pub id: Id,
    pub in_source: bool,
    pub declares: bool,
}

/// A name and a binding of its text that has to be told from it.
#[derive(Debug, Drop)]
pub struct Meeting {
    pub name: Id,
    pub binding: Id,
}
