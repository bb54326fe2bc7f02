//! A node of the tree, and the names that signatures give to nodes of certain sorts.
ghost use Rattle.std.specs.Prelude.{◌≡◌, IfOk, []};

use ecma_kind::{DUMMY_SP, Kind, NoMemory, Span};
use item_list::ItemList;
use std::alloc::Global;

/// A node of the tree.
#[derive(Debug, Drop)]
pub struct Node {
    /// Where it stands, from its first token to its last.
    pub span: Span,
    pub kind: Kind,
    pub children: Nodes,
}

/// Nodes, which contracts see as a list.
pub type Nodes = ItemList<Node>;

/// A node of the sort [`Sort::Program`](crate::Sort): a module or a script.
pub type Program = Node;

/// A node of the kind [`Kind::Module`].
pub type Module = Node;

/// A node of the kind [`Kind::Script`].
pub type Script = Node;

/// A node that stands in the body of a module: a statement or a module declaration.
pub type ModuleItem = Node;

/// A node that is a module declaration: an import or an export.
pub type ModuleDecl = Node;

/// A node that is a statement or a declaration.
pub type Stmt = Node;

/// A node that is an expression.
pub type Expr = Node;

/// A node that is a literal.
pub type Lit = Node;

/// A node that is a property of an object. A shorthand is a node of the kind [`Kind::Ident`].
pub type Prop = Node;

/// A node that may be assigned to and is no pattern.
pub type SimpleAssignTarget = Node;

/// A node that is a pattern that may be assigned to.
pub type AssignTargetPat = Node;

/// A node that is a binding pattern.
pub type Pat = Node;

/// A node of the kind [`Kind::Function`]: what functions and methods have in common.
pub type Function = Node;

/// A node of the kind [`Kind::Class`]: what class declarations and expressions have in common.
pub type Class = Node;

impl Node {
    ghost use Rattle.ecma_tree.specs.Nodes.{absent, list_node, list_or_absent, node_of, or_absent};

    /// A node of these parts.
    pub fn new(span: Span, kind: Kind, children: Nodes) -> Node
        ensures { result ≡ node_of span kind children }
    {
        Node {
            span,
            kind,
            children,
        }
    }

    /// The missing child.
    pub fn absent(alloc: Global) -> Node
        ensures { result ≡ absent }
    {
        Node::new(DUMMY_SP, Kind::Absent, Nodes::new(alloc))
    }

    /// A list of nodes, as one child.
    pub fn list(items: Nodes) -> Node
        ensures { result ≡ list_node items }
    {
        Node::new(DUMMY_SP, Kind::List, items)
    }

    /// A node of these parts, with so many children.
    pub fn of<const N: usize>(
        alloc: Global,
        span: Span,
        kind: Kind,
        children: [Node; N],
    ) -> Result<Node, NoMemory>
        ensures { IfOk result (λ node. node ≡ node_of span kind children.entry) }
    {
        Ok(Node::new(span, kind, Nodes::from_array(alloc, children)?))
    }

    /// A node with no children.
    pub fn leaf(alloc: Global, span: Span, kind: Kind) -> Node
        ensures { result ≡ node_of span kind [] }
    {
        Node::new(span, kind, Nodes::new(alloc))
    }

    /// A child that may be missing.
    pub(crate) fn or_absent(alloc: Global, child: Option<Node>) -> Node
        ensures { result ≡ or_absent child }
    {
        match child {
            Some(node) => node,
            None => Node::absent(alloc),
        }
    }

    /// A list of nodes, as one child that may be missing.
    pub(crate) fn list_or_absent(alloc: Global, items: Option<Nodes>) -> Node
        ensures { result ≡ list_or_absent items }
    {
        match items {
            Some(items) => Node::list(items),
            None => Node::absent(alloc),
        }
    }
}
