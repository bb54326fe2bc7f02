//! Parts of trees that are compared but for spans.
ghost use Rattle.std.specs.Prelude.{◌≡◌, ◌↔◌, IsTrue};
ghost use Rattle.ecma_tree.specs.NodeRefs.{EqualButForSpans};

use crate::equal::all_same_but_for_spans;
use crate::node::Node;
use std::slice;

/// A part of a tree that is compared: one node, or nodes that stand one behind the other. The variant says
/// what the caller takes them for; it is not held against their kinds.
#[derive(Clone, Copy, Debug)]
pub enum NodeRef<'a> {
    /// A module.
    Module(&'a Node),
    /// A statement or a module declaration.
    Item(&'a Node),
    /// The body of a module.
    Items(&'a [Node]),
    /// A statement or a declaration.
    Stmt(&'a Node),
    /// The statements of a block or of a function's body.
    Stmts(&'a [Node]),
    /// An expression.
    Expr(&'a Node),
    /// A binding pattern.
    Pat(&'a Node),
    /// A function that is no arrow function.
    Function(&'a Node),
    /// An arrow function.
    Arrow(&'a Node),
    /// A class.
    Class(&'a Node),
    /// `var`, `let` or `const` with what it declares.
    VarDecl(&'a Node),
}

/// Which variant a [`NodeRef`] is.
#[derive(Clone, Copy, Debug, PartialEq, Eq)]
enum Family {
    Module,
    Item,
    Items,
    Stmt,
    Stmts,
    Expr,
    Pat,
    Function,
    Arrow,
    Class,
    VarDecl,
}

impl<'a> NodeRef<'a> {
    ghost use Rattle.ecma_tree.specs.NodeRefs.{family_of, nodes_of};

    fn family(self) -> Family
        ensures { result ≡ family_of self.entry }
    {
        match self {
            NodeRef::Module(_) => Family::Module,
            NodeRef::Item(_) => Family::Item,
            NodeRef::Items(_) => Family::Items,
            NodeRef::Stmt(_) => Family::Stmt,
            NodeRef::Stmts(_) => Family::Stmts,
            NodeRef::Expr(_) => Family::Expr,
            NodeRef::Pat(_) => Family::Pat,
            NodeRef::Function(_) => Family::Function,
            NodeRef::Arrow(_) => Family::Arrow,
            NodeRef::Class(_) => Family::Class,
            NodeRef::VarDecl(_) => Family::VarDecl,
        }
    }

    fn nodes(self) -> &'a [Node]
        ensures { result.now ≡ nodes_of self.entry }
    {
        match self {
            NodeRef::Items(nodes) | NodeRef::Stmts(nodes) => nodes,
            NodeRef::Module(node)
            | NodeRef::Item(node)
            | NodeRef::Stmt(node)
            | NodeRef::Expr(node)
            | NodeRef::Pat(node)
            | NodeRef::Function(node)
            | NodeRef::Arrow(node)
            | NodeRef::Class(node)
            | NodeRef::VarDecl(node) => slice::from_ref(node),
        }
    }
}

/// Whether both are the same variant, and what they refer to is equal but for the spans of the nodes: as many
/// nodes of the same kinds, with all their data (the contexts of identifiers too), in the same order.
pub fn eq_ignore_span(node: NodeRef<'_>, other: NodeRef<'_>) -> bool
    ensures { IsTrue result ↔ EqualButForSpans node.entry other.entry }
{
    node.family() == other.family() && all_same_but_for_spans(node.nodes(), other.nodes())
}
