//! Modules, imports and exports.
ghost use Rattle.std.specs.Prelude.{◌≡◌, ◌∷◌, IfOk, []};
ghost use Rattle.ecma_tree.specs.Nodes.{list_node, node_of, or_absent};

use crate::node::{Expr, Node, Nodes};
use ecma_kind::{JsWord, Kind, NoMemory, Span};
use std::alloc::Global;

impl Node {
    /// A module (ECMAScript, 16.2), with the text behind `#!` if it begins so.
    pub fn module(
        alloc: Global,
        span: Span,
        shebang: Option<JsWord>,
        body: Nodes,
    ) -> Result<Node, NoMemory>
        ensures { IfOk result (λ node. node ≡ node_of span (Kind.Module shebang) (list_node body ∷ [])) }
    {
        Node::of(alloc, span, Kind::Module { shebang }, [Node::list(body)])
    }

    /// A script (ECMAScript, 16.1), with the text behind `#!` if it begins so.
    pub fn script(
        alloc: Global,
        span: Span,
        shebang: Option<JsWord>,
        body: Nodes,
    ) -> Result<Node, NoMemory>
        ensures { IfOk result (λ node. node ≡ node_of span (Kind.Script shebang) (list_node body ∷ [])) }
    {
        Node::of(alloc, span, Kind::Script { shebang }, [Node::list(body)])
    }

    /// An import (ECMAScript, 16.2.2).
    pub fn import_decl(
        alloc: Global,
        span: Span,
        type_only: bool,
        specifiers: Nodes,
        src: Node,
        with: Option<Node>,
    ) -> Result<Node, NoMemory>
        ensures { IfOk result (λ node. node ≡ node_of span (Kind.ImportDecl type_only) (list_node specifiers ∷ src ∷ or_absent with ∷ [])) }
    {
        Node::of(
            alloc,
            span,
            Kind::ImportDecl { type_only },
            [Node::list(specifiers), src, Node::or_absent(alloc, with)],
        )
    }

    /// `a` or `a as b` in an import; without `imported` the two names are one.
    pub fn import_named_specifier(
        alloc: Global,
        span: Span,
        is_type_only: bool,
        local: Node,
        imported: Option<Node>,
    ) -> Result<Node, NoMemory>
        ensures { IfOk result (λ node. node ≡ node_of span (Kind.ImportNamedSpecifier is_type_only) (local ∷ or_absent imported ∷ [])) }
    {
        Node::of(
            alloc,
            span,
            Kind::ImportNamedSpecifier { is_type_only },
            [local, Node::or_absent(alloc, imported)],
        )
    }

    /// The default import.
    pub fn import_default_specifier(
        alloc: Global,
        span: Span,
        local: Node,
    ) -> Result<Node, NoMemory>
        ensures { IfOk result (λ node. node ≡ node_of span Kind.ImportDefaultSpecifier (local ∷ [])) }
    {
        Node::of(alloc, span, Kind::ImportDefaultSpecifier, [local])
    }

    /// `* as a` in an import.
    pub fn import_star_as_specifier(
        alloc: Global,
        span: Span,
        local: Node,
    ) -> Result<Node, NoMemory>
        ensures { IfOk result (λ node. node ≡ node_of span Kind.ImportStarAsSpecifier (local ∷ [])) }
    {
        Node::of(alloc, span, Kind::ImportStarAsSpecifier, [local])
    }

    /// An exported declaration (ECMAScript, 16.2.3).
    pub fn export_decl(alloc: Global, span: Span, decl: Node) -> Result<Node, NoMemory>
        ensures { IfOk result (λ node. node ≡ node_of span Kind.ExportDecl (decl ∷ [])) }
    {
        Node::of(alloc, span, Kind::ExportDecl, [decl])
    }

    /// A list of exports, with its source if it has one.
    pub fn named_export(
        alloc: Global,
        span: Span,
        type_only: bool,
        specifiers: Nodes,
        src: Option<Node>,
        with: Option<Node>,
    ) -> Result<Node, NoMemory>
        ensures { IfOk result (λ node. node ≡ node_of span (Kind.NamedExport type_only) (list_node specifiers ∷ or_absent src ∷ or_absent with ∷ [])) }
    {
        Node::of(
            alloc,
            span,
            Kind::NamedExport { type_only },
            [
                Node::list(specifiers),
                Node::or_absent(alloc, src),
                Node::or_absent(alloc, with),
            ],
        )
    }

    /// `a` or `a as b` in an export; without `exported` the two names are one.
    pub fn export_named_specifier(
        alloc: Global,
        span: Span,
        is_type_only: bool,
        orig: Node,
        exported: Option<Node>,
    ) -> Result<Node, NoMemory>
        ensures { IfOk result (λ node. node ≡ node_of span (Kind.ExportNamedSpecifier is_type_only) (orig ∷ or_absent exported ∷ [])) }
    {
        Node::of(
            alloc,
            span,
            Kind::ExportNamedSpecifier { is_type_only },
            [orig, Node::or_absent(alloc, exported)],
        )
    }

    /// A default export of another module by its name. No production of the grammar gives it.
    pub fn export_default_specifier(
        alloc: Global,
        span: Span,
        exported: Node,
    ) -> Result<Node, NoMemory>
        ensures { IfOk result (λ node. node ≡ node_of span Kind.ExportDefaultSpecifier (exported ∷ [])) }
    {
        Node::of(alloc, span, Kind::ExportDefaultSpecifier, [exported])
    }

    /// `* as a` in an export.
    pub fn export_namespace_specifier(
        alloc: Global,
        span: Span,
        name: Node,
    ) -> Result<Node, NoMemory>
        ensures { IfOk result (λ node. node ≡ node_of span Kind.ExportNamespaceSpecifier (name ∷ [])) }
    {
        Node::of(alloc, span, Kind::ExportNamespaceSpecifier, [name])
    }

    /// A function, a class or an interface as the default export.
    pub fn export_default_decl(alloc: Global, span: Span, decl: Node) -> Result<Node, NoMemory>
        ensures { IfOk result (λ node. node ≡ node_of span Kind.ExportDefaultDecl (decl ∷ [])) }
    {
        Node::of(alloc, span, Kind::ExportDefaultDecl, [decl])
    }

    /// An expression as the default export.
    pub fn export_default_expr(alloc: Global, span: Span, expr: Expr) -> Result<Node, NoMemory>
        ensures { IfOk result (λ node. node ≡ node_of span Kind.ExportDefaultExpr (expr ∷ [])) }
    {
        Node::of(alloc, span, Kind::ExportDefaultExpr, [expr])
    }

    /// `export *`.
    pub fn export_all(
        alloc: Global,
        span: Span,
        type_only: bool,
        src: Node,
        with: Option<Node>,
    ) -> Result<Node, NoMemory>
        ensures { IfOk result (λ node. node ≡ node_of span (Kind.ExportAll type_only) (src ∷ or_absent with ∷ [])) }
    {
        Node::of(
            alloc,
            span,
            Kind::ExportAll { type_only },
            [src, Node::or_absent(alloc, with)],
        )
    }
}
