//! Properties, functions and classes.
ghost use Rattle.std.specs.Prelude.{◌≡◌, ◌∷◌, IfOk, []};
ghost use Rattle.ecma_tree.specs.Nodes.{list_node, node_of, or_absent};

use crate::node::{Expr, Node, Nodes, Pat};
use ecma_kind::{Accessibility, Kind, MemberModifiers, MethodKind, NoMemory, Span};
use std::alloc::Global;

impl Node {
    /// A property with its value.
    pub fn key_value_prop(
        alloc: Global,
        span: Span,
        key: Node,
        value: Expr,
    ) -> Result<Node, NoMemory>
        ensures { IfOk result (λ node. node ≡ node_of span Kind.KeyValueProp (key ∷ value ∷ [])) }
    {
        Node::of(alloc, span, Kind::KeyValueProp, [key, value])
    }

    /// `{ a = e }`, which is read where a pattern may still come of the object.
    pub fn assign_prop(alloc: Global, span: Span, key: Node, value: Expr) -> Result<Node, NoMemory>
        ensures { IfOk result (λ node. node ≡ node_of span Kind.AssignProp (key ∷ value ∷ [])) }
    {
        Node::of(alloc, span, Kind::AssignProp, [key, value])
    }

    /// A getter of an object.
    pub fn getter_prop(
        alloc: Global,
        span: Span,
        key: Node,
        type_ann: Option<Node>,
        body: Option<Node>,
    ) -> Result<Node, NoMemory>
        ensures { IfOk result (λ node. node ≡ node_of span Kind.GetterProp (key ∷ or_absent type_ann ∷ or_absent body ∷ [])) }
    {
        Node::of(
            alloc,
            span,
            Kind::GetterProp,
            [
                key,
                Node::or_absent(alloc, type_ann),
                Node::or_absent(alloc, body),
            ],
        )
    }

    /// A setter of an object.
    pub fn setter_prop(
        alloc: Global,
        span: Span,
        key: Node,
        this_param: Option<Pat>,
        param: Pat,
        body: Option<Node>,
    ) -> Result<Node, NoMemory>
        ensures { IfOk result (λ node. node ≡ node_of span Kind.SetterProp (key ∷ or_absent this_param ∷ param ∷ or_absent body ∷ [])) }
    {
        Node::of(
            alloc,
            span,
            Kind::SetterProp,
            [
                key,
                Node::or_absent(alloc, this_param),
                param,
                Node::or_absent(alloc, body),
            ],
        )
    }

    /// A method of an object.
    pub fn method_prop(
        alloc: Global,
        span: Span,
        key: Node,
        function: Node,
    ) -> Result<Node, NoMemory>
        ensures { IfOk result (λ node. node ≡ node_of span Kind.MethodProp (key ∷ function ∷ [])) }
    {
        Node::of(alloc, span, Kind::MethodProp, [key, function])
    }

    /// A key in brackets.
    pub fn computed_prop_name(alloc: Global, span: Span, expr: Expr) -> Result<Node, NoMemory>
        ensures { IfOk result (λ node. node ≡ node_of span Kind.ComputedPropName (expr ∷ [])) }
    {
        Node::of(alloc, span, Kind::ComputedPropName, [expr])
    }

    /// What functions and methods have in common; without a body it is an overload or ambient.
    pub fn function(
        alloc: Global,
        span: Span,
        is_generator: bool,
        is_async: bool,
        params: Nodes,
        body: Option<Node>,
        type_params: Option<Node>,
        return_type: Option<Node>,
    ) -> Result<Node, NoMemory>
        ensures { IfOk result (λ node. node ≡ node_of span (Kind.Function is_generator is_async) (list_node params ∷ or_absent body ∷ or_absent type_params ∷ or_absent return_type ∷ [])) }
    {
        Node::of(
            alloc,
            span,
            Kind::Function {
                is_generator,
                is_async,
            },
            [
                Node::list(params),
                Node::or_absent(alloc, body),
                Node::or_absent(alloc, type_params),
                Node::or_absent(alloc, return_type),
            ],
        )
    }

    /// A parameter.
    pub fn param(alloc: Global, span: Span, pat: Pat) -> Result<Node, NoMemory>
        ensures { IfOk result (λ node. node ≡ node_of span Kind.Param (pat ∷ [])) }
    {
        Node::of(alloc, span, Kind::Param, [pat])
    }

    /// What class declarations and expressions have in common.
    pub fn class(
        alloc: Global,
        span: Span,
        is_abstract: bool,
        super_class: Option<Expr>,
        body: Nodes,
        type_params: Option<Node>,
        super_type_params: Option<Node>,
        implements: Nodes,
    ) -> Result<Node, NoMemory>
        ensures { IfOk result (λ node. node ≡ node_of span (Kind.Class is_abstract) (or_absent super_class ∷ list_node body ∷ or_absent type_params ∷ or_absent super_type_params ∷ list_node implements ∷ [])) }
    {
        Node::of(
            alloc,
            span,
            Kind::Class { is_abstract },
            [
                Node::or_absent(alloc, super_class),
                Node::list(body),
                Node::or_absent(alloc, type_params),
                Node::or_absent(alloc, super_type_params),
                Node::list(implements),
            ],
        )
    }

    /// A constructor; without a body it is an overload or ambient.
    pub fn constructor(
        alloc: Global,
        span: Span,
        accessibility: Option<Accessibility>,
        is_optional: bool,
        key: Node,
        params: Nodes,
        body: Option<Node>,
    ) -> Result<Node, NoMemory>
        ensures { IfOk result (λ node. node ≡ node_of span (Kind.Constructor accessibility is_optional) (key ∷ list_node params ∷ or_absent body ∷ [])) }
    {
        Node::of(
            alloc,
            span,
            Kind::Constructor {
                accessibility,
                is_optional,
            },
            [key, Node::list(params), Node::or_absent(alloc, body)],
        )
    }

    /// A method, a getter or a setter of a class.
    pub fn class_method(
        alloc: Global,
        span: Span,
        kind: MethodKind,
        modifiers: MemberModifiers,
        key: Node,
        function: Node,
    ) -> Result<Node, NoMemory>
        ensures { IfOk result (λ node. node ≡ node_of span (Kind.ClassMethod kind modifiers) (key ∷ function ∷ [])) }
    {
        Node::of(
            alloc,
            span,
            Kind::ClassMethod { kind, modifiers },
            [key, function],
        )
    }

    /// The same with a private name.
    pub fn private_method(
        alloc: Global,
        span: Span,
        kind: MethodKind,
        modifiers: MemberModifiers,
        key: Node,
        function: Node,
    ) -> Result<Node, NoMemory>
        ensures { IfOk result (λ node. node ≡ node_of span (Kind.PrivateMethod kind modifiers) (key ∷ function ∷ [])) }
    {
        Node::of(
            alloc,
            span,
            Kind::PrivateMethod { kind, modifiers },
            [key, function],
        )
    }

    /// A field of a class; `definite` with a `!` behind its key.
    pub fn class_prop(
        alloc: Global,
        span: Span,
        modifiers: MemberModifiers,
        readonly: bool,
        declare: bool,
        definite: bool,
        key: Node,
        value: Option<Expr>,
        type_ann: Option<Node>,
    ) -> Result<Node, NoMemory>
        ensures { IfOk result (λ node. node ≡ node_of span (Kind.ClassProp modifiers readonly declare definite) (key ∷ or_absent value ∷ or_absent type_ann ∷ [])) }
    {
        Node::of(
            alloc,
            span,
            Kind::ClassProp {
                modifiers,
                readonly,
                declare,
                definite,
            },
            [
                key,
                Node::or_absent(alloc, value),
                Node::or_absent(alloc, type_ann),
            ],
        )
    }

    /// The same with a private name.
    pub fn private_prop(
        alloc: Global,
        span: Span,
        modifiers: MemberModifiers,
        readonly: bool,
        declare: bool,
        definite: bool,
        key: Node,
        value: Option<Expr>,
        type_ann: Option<Node>,
    ) -> Result<Node, NoMemory>
        ensures { IfOk result (λ node. node ≡ node_of span (Kind.PrivateProp modifiers readonly declare definite) (key ∷ or_absent value ∷ or_absent type_ann ∷ [])) }
    {
        Node::of(
            alloc,
            span,
            Kind::PrivateProp {
                modifiers,
                readonly,
                declare,
                definite,
            },
            [
                key,
                Node::or_absent(alloc, value),
                Node::or_absent(alloc, type_ann),
            ],
        )
    }

    /// A block that runs when the class is made (ECMAScript, 15.7).
    pub fn static_block(alloc: Global, span: Span, body: Node) -> Result<Node, NoMemory>
        ensures { IfOk result (λ node. node ≡ node_of span Kind.StaticBlock (body ∷ [])) }
    {
        Node::of(alloc, span, Kind::StaticBlock, [body])
    }
}
