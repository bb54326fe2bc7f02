//! Expressions with a type round them, annotations, and what declares types.
ghost use Rattle.std.specs.Prelude.{◌≡◌, ◌∷◌, IfOk, []};
ghost use Rattle.ecma_tree.specs.Nodes.{list_node, node_of, or_absent};

use crate::node::{Expr, Node, Nodes};
use ecma_kind::{Accessibility, Kind, NoMemory, Span};
use std::alloc::Global;

impl Node {
    /// `<T>e`.
    pub fn ts_type_assertion(
        alloc: Global,
        span: Span,
        expr: Expr,
        type_ann: Node,
    ) -> Result<Node, NoMemory>
        ensures { IfOk result (λ node. node ≡ node_of span Kind.TsTypeAssertion (expr ∷ type_ann ∷ [])) }
    {
        Node::of(alloc, span, Kind::TsTypeAssertion, [expr, type_ann])
    }

    /// `e as const` or `<const>e`.
    pub fn ts_const_assertion(alloc: Global, span: Span, expr: Expr) -> Result<Node, NoMemory>
        ensures { IfOk result (λ node. node ≡ node_of span Kind.TsConstAssertion (expr ∷ [])) }
    {
        Node::of(alloc, span, Kind::TsConstAssertion, [expr])
    }

    /// `e!`.
    pub fn ts_non_null_expr(alloc: Global, span: Span, expr: Expr) -> Result<Node, NoMemory>
        ensures { IfOk result (λ node. node ≡ node_of span Kind.TsNonNullExpr (expr ∷ [])) }
    {
        Node::of(alloc, span, Kind::TsNonNullExpr, [expr])
    }

    /// `e as T`.
    pub fn ts_as_expr(
        alloc: Global,
        span: Span,
        expr: Expr,
        type_ann: Node,
    ) -> Result<Node, NoMemory>
        ensures { IfOk result (λ node. node ≡ node_of span Kind.TsAsExpr (expr ∷ type_ann ∷ [])) }
    {
        Node::of(alloc, span, Kind::TsAsExpr, [expr, type_ann])
    }

    /// `e<T>`.
    pub fn ts_instantiation(
        alloc: Global,
        span: Span,
        expr: Expr,
        type_args: Node,
    ) -> Result<Node, NoMemory>
        ensures { IfOk result (λ node. node ≡ node_of span Kind.TsInstantiation (expr ∷ type_args ∷ [])) }
    {
        Node::of(alloc, span, Kind::TsInstantiation, [expr, type_args])
    }

    /// `e satisfies T`.
    pub fn ts_satisfies_expr(
        alloc: Global,
        span: Span,
        expr: Expr,
        type_ann: Node,
    ) -> Result<Node, NoMemory>
        ensures { IfOk result (λ node. node ≡ node_of span Kind.TsSatisfiesExpr (expr ∷ type_ann ∷ [])) }
    {
        Node::of(alloc, span, Kind::TsSatisfiesExpr, [expr, type_ann])
    }

    /// A type annotation.
    pub fn ts_type_ann(alloc: Global, span: Span, type_ann: Node) -> Result<Node, NoMemory>
        ensures { IfOk result (λ node. node ≡ node_of span Kind.TsTypeAnn (type_ann ∷ [])) }
    {
        Node::of(alloc, span, Kind::TsTypeAnn, [type_ann])
    }

    /// An interface; what it says is not kept.
    pub fn ts_interface_decl(
        alloc: Global,
        span: Span,
        declare: bool,
        id: Node,
    ) -> Result<Node, NoMemory>
        ensures { IfOk result (λ node. node ≡ node_of span (Kind.TsInterfaceDecl declare) (id ∷ [])) }
    {
        Node::of(alloc, span, Kind::TsInterfaceDecl { declare }, [id])
    }

    /// A type alias; what it stands for is not kept.
    pub fn ts_type_alias_decl(
        alloc: Global,
        span: Span,
        declare: bool,
        id: Node,
    ) -> Result<Node, NoMemory>
        ensures { IfOk result (λ node. node ≡ node_of span (Kind.TsTypeAliasDecl declare) (id ∷ [])) }
    {
        Node::of(alloc, span, Kind::TsTypeAliasDecl { declare }, [id])
    }

    /// An enum (TypeScript handbook, "Enums").
    pub fn ts_enum_decl(
        alloc: Global,
        span: Span,
        declare: bool,
        is_const: bool,
        id: Node,
        members: Nodes,
    ) -> Result<Node, NoMemory>
        ensures { IfOk result (λ node. node ≡ node_of span (Kind.TsEnumDecl declare is_const) (id ∷ list_node members ∷ [])) }
    {
        Node::of(
            alloc,
            span,
            Kind::TsEnumDecl { declare, is_const },
            [id, Node::list(members)],
        )
    }

    /// A member of an enum.
    pub fn ts_enum_member(
        alloc: Global,
        span: Span,
        id: Node,
        init: Option<Expr>,
    ) -> Result<Node, NoMemory>
        ensures { IfOk result (λ node. node ≡ node_of span Kind.TsEnumMember (id ∷ or_absent init ∷ [])) }
    {
        Node::of(
            alloc,
            span,
            Kind::TsEnumMember,
            [id, Node::or_absent(alloc, init)],
        )
    }

    /// A namespace, an ambient module, or `global` (TypeScript handbook, "Namespaces").
    pub fn ts_module_decl(
        alloc: Global,
        span: Span,
        declare: bool,
        global: bool,
        id: Node,
        body: Option<Node>,
    ) -> Result<Node, NoMemory>
        ensures { IfOk result (λ node. node ≡ node_of span (Kind.TsModuleDecl declare global) (id ∷ or_absent body ∷ [])) }
    {
        Node::of(
            alloc,
            span,
            Kind::TsModuleDecl { declare, global },
            [id, Node::or_absent(alloc, body)],
        )
    }

    /// The body of a namespace.
    pub fn ts_module_block(alloc: Global, span: Span, body: Nodes) -> Result<Node, NoMemory>
        ensures { IfOk result (λ node. node ≡ node_of span Kind.TsModuleBlock (list_node body ∷ [])) }
    {
        Node::of(alloc, span, Kind::TsModuleBlock, [Node::list(body)])
    }

    /// A namespace inside another by its dotted name.
    pub fn ts_namespace_decl(
        alloc: Global,
        span: Span,
        declare: bool,
        global: bool,
        id: Node,
        body: Node,
    ) -> Result<Node, NoMemory>
        ensures { IfOk result (λ node. node ≡ node_of span (Kind.TsNamespaceDecl declare global) (id ∷ body ∷ [])) }
    {
        Node::of(
            alloc,
            span,
            Kind::TsNamespaceDecl { declare, global },
            [id, body],
        )
    }

    /// `import a = ..`.
    pub fn ts_import_equals_decl(
        alloc: Global,
        span: Span,
        is_export: bool,
        is_type_only: bool,
        id: Node,
        module_ref: Node,
    ) -> Result<Node, NoMemory>
        ensures { IfOk result (λ node. node ≡ node_of span (Kind.TsImportEqualsDecl is_export is_type_only) (id ∷ module_ref ∷ [])) }
    {
        Node::of(
            alloc,
            span,
            Kind::TsImportEqualsDecl {
                is_export,
                is_type_only,
            },
            [id, module_ref],
        )
    }

    /// `require("m")` behind `import a =`.
    pub fn ts_external_module_ref(alloc: Global, span: Span, expr: Node) -> Result<Node, NoMemory>
        ensures { IfOk result (λ node. node ≡ node_of span Kind.TsExternalModuleRef (expr ∷ [])) }
    {
        Node::of(alloc, span, Kind::TsExternalModuleRef, [expr])
    }

    /// A dotted name behind `import a =`.
    pub fn ts_qualified_name(
        alloc: Global,
        span: Span,
        left: Node,
        right: Node,
    ) -> Result<Node, NoMemory>
        ensures { IfOk result (λ node. node ≡ node_of span Kind.TsQualifiedName (left ∷ right ∷ [])) }
    {
        Node::of(alloc, span, Kind::TsQualifiedName, [left, right])
    }

    /// `export = e`.
    pub fn ts_export_assignment(alloc: Global, span: Span, expr: Expr) -> Result<Node, NoMemory>
        ensures { IfOk result (λ node. node ≡ node_of span Kind.TsExportAssignment (expr ∷ [])) }
    {
        Node::of(alloc, span, Kind::TsExportAssignment, [expr])
    }

    /// `export as namespace a`.
    pub fn ts_namespace_export_decl(alloc: Global, span: Span, id: Node) -> Result<Node, NoMemory>
        ensures { IfOk result (λ node. node ≡ node_of span Kind.TsNamespaceExportDecl (id ∷ [])) }
    {
        Node::of(alloc, span, Kind::TsNamespaceExportDecl, [id])
    }

    /// A parameter that declares a property (TypeScript handbook, "Parameter Properties").
    pub fn ts_param_prop(
        alloc: Global,
        span: Span,
        accessibility: Option<Accessibility>,
        is_override: bool,
        readonly: bool,
        param: Node,
    ) -> Result<Node, NoMemory>
        ensures { IfOk result (λ node. node ≡ node_of span (Kind.TsParamProp accessibility is_override readonly) (param ∷ [])) }
    {
        Node::of(
            alloc,
            span,
            Kind::TsParamProp {
                accessibility,
                is_override,
                readonly,
            },
            [param],
        )
    }
}
