//! Patterns.
ghost use Rattle.std.specs.Prelude.{◌≡◌, ◌∷◌, IfOk, []};
ghost use Rattle.ecma_tree.specs.Nodes.{list_node, node_of, or_absent};

use crate::node::{Expr, Node, Nodes, Pat};
use ecma_kind::{Kind, NoMemory, Span};
use std::alloc::Global;

impl Node {
    /// A declared name with its type.
    pub fn binding_ident(
        alloc: Global,
        span: Span,
        id: Node,
        type_ann: Option<Node>,
    ) -> Result<Node, NoMemory>
        ensures { IfOk result (λ node. node ≡ node_of span Kind.BindingIdent (id ∷ or_absent type_ann ∷ [])) }
    {
        Node::of(
            alloc,
            span,
            Kind::BindingIdent,
            [id, Node::or_absent(alloc, type_ann)],
        )
    }

    /// An array pattern (ECMAScript, 14.3.3). A hole is `Absent`.
    pub fn array_pat(
        alloc: Global,
        span: Span,
        optional: bool,
        elems: Nodes,
        type_ann: Option<Node>,
    ) -> Result<Node, NoMemory>
        ensures { IfOk result (λ node. node ≡ node_of span (Kind.ArrayPat optional) (list_node elems ∷ or_absent type_ann ∷ [])) }
    {
        Node::of(
            alloc,
            span,
            Kind::ArrayPat { optional },
            [Node::list(elems), Node::or_absent(alloc, type_ann)],
        )
    }

    /// An object pattern.
    pub fn object_pat(
        alloc: Global,
        span: Span,
        optional: bool,
        props: Nodes,
        type_ann: Option<Node>,
    ) -> Result<Node, NoMemory>
        ensures { IfOk result (λ node. node ≡ node_of span (Kind.ObjectPat optional) (list_node props ∷ or_absent type_ann ∷ [])) }
    {
        Node::of(
            alloc,
            span,
            Kind::ObjectPat { optional },
            [Node::list(props), Node::or_absent(alloc, type_ann)],
        )
    }

    /// `...` and the pattern that takes the rest.
    pub fn rest_pat(
        alloc: Global,
        span: Span,
        arg: Pat,
        type_ann: Option<Node>,
    ) -> Result<Node, NoMemory>
        ensures { IfOk result (λ node. node ≡ node_of span Kind.RestPat (arg ∷ or_absent type_ann ∷ [])) }
    {
        Node::of(
            alloc,
            span,
            Kind::RestPat,
            [arg, Node::or_absent(alloc, type_ann)],
        )
    }

    /// A pattern with a default.
    pub fn assign_pat(alloc: Global, span: Span, left: Pat, right: Expr) -> Result<Node, NoMemory>
        ensures { IfOk result (λ node. node ≡ node_of span Kind.AssignPat (left ∷ right ∷ [])) }
    {
        Node::of(alloc, span, Kind::AssignPat, [left, right])
    }

    /// A property of an object pattern with its pattern.
    pub fn key_value_pat_prop(
        alloc: Global,
        span: Span,
        key: Node,
        value: Pat,
    ) -> Result<Node, NoMemory>
        ensures { IfOk result (λ node. node ≡ node_of span Kind.KeyValuePatProp (key ∷ value ∷ [])) }
    {
        Node::of(alloc, span, Kind::KeyValuePatProp, [key, value])
    }

    /// A name in an object pattern, with its default.
    pub fn assign_pat_prop(
        alloc: Global,
        span: Span,
        key: Node,
        value: Option<Expr>,
    ) -> Result<Node, NoMemory>
        ensures { IfOk result (λ node. node ≡ node_of span Kind.AssignPatProp (key ∷ or_absent value ∷ [])) }
    {
        Node::of(
            alloc,
            span,
            Kind::AssignPatProp,
            [key, Node::or_absent(alloc, value)],
        )
    }
}
