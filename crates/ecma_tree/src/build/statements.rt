//! Statements and declarations.
ghost use Rattle.std.specs.Prelude.{◌≡◌, ◌∷◌, IfOk, []};
ghost use Rattle.ecma_tree.specs.Nodes.{list_node, node_of, or_absent};

use crate::node::{Expr, Node, Nodes, Pat, Stmt};
use ecma_kind::{Kind, NoMemory, Span, VarDeclKind};
use std::alloc::Global;

impl Node {
    /// A block (ECMAScript, 14.2).
    pub fn block_stmt(alloc: Global, span: Span, stmts: Nodes) -> Result<Node, NoMemory>
        ensures { IfOk result (λ node. node ≡ node_of span Kind.BlockStmt (list_node stmts ∷ [])) }
    {
        Node::of(alloc, span, Kind::BlockStmt, [Node::list(stmts)])
    }

    /// An expression as a statement (ECMAScript, 14.5).
    pub fn expr_stmt(alloc: Global, span: Span, expr: Expr) -> Result<Node, NoMemory>
        ensures { IfOk result (λ node. node ≡ node_of span Kind.ExprStmt (expr ∷ [])) }
    {
        Node::of(alloc, span, Kind::ExprStmt, [expr])
    }

    /// `return`.
    pub fn return_stmt(alloc: Global, span: Span, arg: Option<Expr>) -> Result<Node, NoMemory>
        ensures { IfOk result (λ node. node ≡ node_of span Kind.ReturnStmt (or_absent arg ∷ [])) }
    {
        Node::of(alloc, span, Kind::ReturnStmt, [Node::or_absent(alloc, arg)])
    }

    /// `throw`.
    pub fn throw_stmt(alloc: Global, span: Span, arg: Expr) -> Result<Node, NoMemory>
        ensures { IfOk result (λ node. node ≡ node_of span Kind.ThrowStmt (arg ∷ [])) }
    {
        Node::of(alloc, span, Kind::ThrowStmt, [arg])
    }

    /// A statement with a label (ECMAScript, 14.13).
    pub fn labeled_stmt(
        alloc: Global,
        span: Span,
        label: Node,
        body: Stmt,
    ) -> Result<Node, NoMemory>
        ensures { IfOk result (λ node. node ≡ node_of span Kind.LabeledStmt (label ∷ body ∷ [])) }
    {
        Node::of(alloc, span, Kind::LabeledStmt, [label, body])
    }

    /// `break`.
    pub fn break_stmt(alloc: Global, span: Span, label: Option<Node>) -> Result<Node, NoMemory>
        ensures { IfOk result (λ node. node ≡ node_of span Kind.BreakStmt (or_absent label ∷ [])) }
    {
        Node::of(
            alloc,
            span,
            Kind::BreakStmt,
            [Node::or_absent(alloc, label)],
        )
    }

    /// `continue`.
    pub fn continue_stmt(alloc: Global, span: Span, label: Option<Node>) -> Result<Node, NoMemory>
        ensures { IfOk result (λ node. node ≡ node_of span Kind.ContinueStmt (or_absent label ∷ [])) }
    {
        Node::of(
            alloc,
            span,
            Kind::ContinueStmt,
            [Node::or_absent(alloc, label)],
        )
    }

    /// `if` (ECMAScript, 14.6).
    pub fn if_stmt(
        alloc: Global,
        span: Span,
        test: Expr,
        cons: Stmt,
        alt: Option<Stmt>,
    ) -> Result<Node, NoMemory>
        ensures { IfOk result (λ node. node ≡ node_of span Kind.IfStmt (test ∷ cons ∷ or_absent alt ∷ [])) }
    {
        Node::of(
            alloc,
            span,
            Kind::IfStmt,
            [test, cons, Node::or_absent(alloc, alt)],
        )
    }

    /// `switch` (ECMAScript, 14.12).
    pub fn switch_stmt(
        alloc: Global,
        span: Span,
        discriminant: Expr,
        cases: Nodes,
    ) -> Result<Node, NoMemory>
        ensures { IfOk result (λ node. node ≡ node_of span Kind.SwitchStmt (discriminant ∷ list_node cases ∷ [])) }
    {
        Node::of(
            alloc,
            span,
            Kind::SwitchStmt,
            [discriminant, Node::list(cases)],
        )
    }

    /// A `case`; `default` without its test.
    pub fn switch_case(
        alloc: Global,
        span: Span,
        test: Option<Expr>,
        cons: Nodes,
    ) -> Result<Node, NoMemory>
        ensures { IfOk result (λ node. node ≡ node_of span Kind.SwitchCase (or_absent test ∷ list_node cons ∷ [])) }
    {
        Node::of(
            alloc,
            span,
            Kind::SwitchCase,
            [Node::or_absent(alloc, test), Node::list(cons)],
        )
    }

    /// `try` (ECMAScript, 14.15).
    pub fn try_stmt(
        alloc: Global,
        span: Span,
        block: Node,
        handler: Option<Node>,
        finalizer: Option<Node>,
    ) -> Result<Node, NoMemory>
        ensures { IfOk result (λ node. node ≡ node_of span Kind.TryStmt (block ∷ or_absent handler ∷ or_absent finalizer ∷ [])) }
    {
        Node::of(
            alloc,
            span,
            Kind::TryStmt,
            [
                block,
                Node::or_absent(alloc, handler),
                Node::or_absent(alloc, finalizer),
            ],
        )
    }

    /// `catch`.
    pub fn catch_clause(
        alloc: Global,
        span: Span,
        param: Option<Pat>,
        body: Node,
    ) -> Result<Node, NoMemory>
        ensures { IfOk result (λ node. node ≡ node_of span Kind.CatchClause (or_absent param ∷ body ∷ [])) }
    {
        Node::of(
            alloc,
            span,
            Kind::CatchClause,
            [Node::or_absent(alloc, param), body],
        )
    }

    /// `while` (ECMAScript, 14.7.3).
    pub fn while_stmt(alloc: Global, span: Span, test: Expr, body: Stmt) -> Result<Node, NoMemory>
        ensures { IfOk result (λ node. node ≡ node_of span Kind.WhileStmt (test ∷ body ∷ [])) }
    {
        Node::of(alloc, span, Kind::WhileStmt, [test, body])
    }

    /// `do` .. `while` (ECMAScript, 14.7.2).
    pub fn do_while_stmt(
        alloc: Global,
        span: Span,
        test: Expr,
        body: Stmt,
    ) -> Result<Node, NoMemory>
        ensures { IfOk result (λ node. node ≡ node_of span Kind.DoWhileStmt (test ∷ body ∷ [])) }
    {
        Node::of(alloc, span, Kind::DoWhileStmt, [test, body])
    }

    /// `for` with three parts (ECMAScript, 14.7.4).
    pub fn for_stmt(
        alloc: Global,
        span: Span,
        init: Option<Node>,
        test: Option<Expr>,
        update: Option<Expr>,
        body: Stmt,
    ) -> Result<Node, NoMemory>
        ensures { IfOk result (λ node. node ≡ node_of span Kind.ForStmt (or_absent init ∷ or_absent test ∷ or_absent update ∷ body ∷ [])) }
    {
        Node::of(
            alloc,
            span,
            Kind::ForStmt,
            [
                Node::or_absent(alloc, init),
                Node::or_absent(alloc, test),
                Node::or_absent(alloc, update),
                body,
            ],
        )
    }

    /// `for` over keys (ECMAScript, 14.7.5).
    pub fn for_in_stmt(
        alloc: Global,
        span: Span,
        left: Node,
        right: Expr,
        body: Stmt,
    ) -> Result<Node, NoMemory>
        ensures { IfOk result (λ node. node ≡ node_of span Kind.ForInStmt (left ∷ right ∷ body ∷ [])) }
    {
        Node::of(alloc, span, Kind::ForInStmt, [left, right, body])
    }

    /// `for` over an iterator, `for await` with `is_await`.
    pub fn for_of_stmt(
        alloc: Global,
        span: Span,
        is_await: bool,
        left: Node,
        right: Expr,
        body: Stmt,
    ) -> Result<Node, NoMemory>
        ensures { IfOk result (λ node. node ≡ node_of span (Kind.ForOfStmt is_await) (left ∷ right ∷ body ∷ [])) }
    {
        Node::of(
            alloc,
            span,
            Kind::ForOfStmt { is_await },
            [left, right, body],
        )
    }

    /// A function declaration.
    pub fn fn_decl(
        alloc: Global,
        span: Span,
        declare: bool,
        ident: Node,
        function: Node,
    ) -> Result<Node, NoMemory>
        ensures { IfOk result (λ node. node ≡ node_of span (Kind.FnDecl declare) (ident ∷ function ∷ [])) }
    {
        Node::of(alloc, span, Kind::FnDecl { declare }, [ident, function])
    }

    /// A class declaration.
    pub fn class_decl(
        alloc: Global,
        span: Span,
        declare: bool,
        ident: Node,
        class: Node,
    ) -> Result<Node, NoMemory>
        ensures { IfOk result (λ node. node ≡ node_of span (Kind.ClassDecl declare) (ident ∷ class ∷ [])) }
    {
        Node::of(alloc, span, Kind::ClassDecl { declare }, [ident, class])
    }

    /// `var`, `let` or `const` (ECMAScript, 14.3).
    pub fn var_decl(
        alloc: Global,
        span: Span,
        kind: VarDeclKind,
        declare: bool,
        decls: Nodes,
    ) -> Result<Node, NoMemory>
        ensures { IfOk result (λ node. node ≡ node_of span (Kind.VarDecl kind declare) (list_node decls ∷ [])) }
    {
        Node::of(
            alloc,
            span,
            Kind::VarDecl { kind, declare },
            [Node::list(decls)],
        )
    }

    /// A declared pattern with its value; `definite` with a `!` behind its name.
    pub fn var_declarator(
        alloc: Global,
        span: Span,
        definite: bool,
        name: Pat,
        init: Option<Expr>,
    ) -> Result<Node, NoMemory>
        ensures { IfOk result (λ node. node ≡ node_of span (Kind.VarDeclarator definite) (name ∷ or_absent init ∷ [])) }
    {
        Node::of(
            alloc,
            span,
            Kind::VarDeclarator { definite },
            [name, Node::or_absent(alloc, init)],
        )
    }
}
