//! Expressions.
ghost use Rattle.std.specs.Prelude.{◌≡◌, ◌∷◌, ◌<◌, IfOk, [], length};
ghost use Rattle.ecma_tree.specs.Nodes.{list_node, list_or_absent, node_of, or_absent};

use crate::node::{Expr, Node, Nodes};
use ecma_kind::{AssignOp, BinaryOp, Kind, NoMemory, Span, UnaryOp, UpdateOp};
use std::alloc::Global;

impl Node {
    /// An array (ECMAScript, 13.2.4). A hole is `Absent`.
    pub fn array_lit(alloc: Global, span: Span, elems: Nodes) -> Result<Node, NoMemory>
        ensures { IfOk result (λ node. node ≡ node_of span Kind.ArrayLit (list_node elems ∷ [])) }
    {
        Node::of(alloc, span, Kind::ArrayLit, [Node::list(elems)])
    }

    /// An object (ECMAScript, 13.2.5). An `Ident` among its properties is a shorthand.
    pub fn object_lit(alloc: Global, span: Span, props: Nodes) -> Result<Node, NoMemory>
        ensures { IfOk result (λ node. node ≡ node_of span Kind.ObjectLit (list_node props ∷ [])) }
    {
        Node::of(alloc, span, Kind::ObjectLit, [Node::list(props)])
    }

    /// `...` and what is spread, in an array, in arguments or in an object.
    pub fn spread_element(alloc: Global, span: Span, expr: Expr) -> Result<Node, NoMemory>
        ensures { IfOk result (λ node. node ≡ node_of span Kind.SpreadElement (expr ∷ [])) }
    {
        Node::of(alloc, span, Kind::SpreadElement, [expr])
    }

    /// A function as an expression (ECMAScript, 15.2).
    pub fn fn_expr(
        alloc: Global,
        span: Span,
        ident: Option<Node>,
        function: Node,
    ) -> Result<Node, NoMemory>
        ensures { IfOk result (λ node. node ≡ node_of span Kind.FnExpr (or_absent ident ∷ function ∷ [])) }
    {
        Node::of(
            alloc,
            span,
            Kind::FnExpr,
            [Node::or_absent(alloc, ident), function],
        )
    }

    /// A class as an expression (ECMAScript, 15.7).
    pub fn class_expr(
        alloc: Global,
        span: Span,
        ident: Option<Node>,
        class: Node,
    ) -> Result<Node, NoMemory>
        ensures { IfOk result (λ node. node ≡ node_of span Kind.ClassExpr (or_absent ident ∷ class ∷ [])) }
    {
        Node::of(
            alloc,
            span,
            Kind::ClassExpr,
            [Node::or_absent(alloc, ident), class],
        )
    }

    /// An arrow function (ECMAScript, 15.3).
    pub fn arrow_expr(
        alloc: Global,
        span: Span,
        is_async: bool,
        is_generator: bool,
        params: Nodes,
        body: Node,
        type_params: Option<Node>,
        return_type: Option<Node>,
    ) -> Result<Node, NoMemory>
        ensures { IfOk result (λ node. node ≡ node_of span (Kind.ArrowExpr is_async is_generator) (list_node params ∷ body ∷ or_absent type_params ∷ or_absent return_type ∷ [])) }
    {
        Node::of(
            alloc,
            span,
            Kind::ArrowExpr {
                is_async,
                is_generator,
            },
            [
                Node::list(params),
                body,
                Node::or_absent(alloc, type_params),
                Node::or_absent(alloc, return_type),
            ],
        )
    }

    /// A unary operator (ECMAScript, 13.5).
    pub fn unary_expr(alloc: Global, span: Span, op: UnaryOp, arg: Expr) -> Result<Node, NoMemory>
        ensures { IfOk result (λ node. node ≡ node_of span (Kind.UnaryExpr op) (arg ∷ [])) }
    {
        Node::of(alloc, span, Kind::UnaryExpr { op }, [arg])
    }

    /// `++` or `--`; `prefix` before its operand (ECMAScript, 13.4).
    pub fn update_expr(
        alloc: Global,
        span: Span,
        op: UpdateOp,
        prefix: bool,
        arg: Expr,
    ) -> Result<Node, NoMemory>
        ensures { IfOk result (λ node. node ≡ node_of span (Kind.UpdateExpr op prefix) (arg ∷ [])) }
    {
        Node::of(alloc, span, Kind::UpdateExpr { op, prefix }, [arg])
    }

    /// A binary operator (ECMAScript, 13.6 to 13.13). On the left of `in` may stand a private name.
    pub fn bin_expr(
        alloc: Global,
        span: Span,
        op: BinaryOp,
        left: Expr,
        right: Expr,
    ) -> Result<Node, NoMemory>
        ensures { IfOk result (λ node. node ≡ node_of span (Kind.BinExpr op) (left ∷ right ∷ [])) }
    {
        Node::of(alloc, span, Kind::BinExpr { op }, [left, right])
    }

    /// An assignment (ECMAScript, 13.15).
    pub fn assign_expr(
        alloc: Global,
        span: Span,
        op: AssignOp,
        left: Node,
        right: Expr,
    ) -> Result<Node, NoMemory>
        ensures { IfOk result (λ node. node ≡ node_of span (Kind.AssignExpr op) (left ∷ right ∷ [])) }
    {
        Node::of(alloc, span, Kind::AssignExpr { op }, [left, right])
    }

    /// A conditional expression (ECMAScript, 13.14).
    pub fn cond_expr(
        alloc: Global,
        span: Span,
        test: Expr,
        cons: Expr,
        alt: Expr,
    ) -> Result<Node, NoMemory>
        ensures { IfOk result (λ node. node ≡ node_of span Kind.CondExpr (test ∷ cons ∷ alt ∷ [])) }
    {
        Node::of(alloc, span, Kind::CondExpr, [test, cons, alt])
    }

    /// A member of an object (ECMAScript, 13.3.2).
    pub fn member_expr(alloc: Global, span: Span, obj: Expr, prop: Node) -> Result<Node, NoMemory>
        ensures { IfOk result (λ node. node ≡ node_of span Kind.MemberExpr (obj ∷ prop ∷ [])) }
    {
        Node::of(alloc, span, Kind::MemberExpr, [obj, prop])
    }

    /// A member of `super` (ECMAScript, 13.3.7).
    pub fn super_prop_expr(
        alloc: Global,
        span: Span,
        obj: Node,
        prop: Node,
    ) -> Result<Node, NoMemory>
        ensures { IfOk result (λ node. node ≡ node_of span Kind.SuperPropExpr (obj ∷ prop ∷ [])) }
    {
        Node::of(alloc, span, Kind::SuperPropExpr, [obj, prop])
    }

    /// A call (ECMAScript, 13.3.6).
    pub fn call_expr(
        alloc: Global,
        span: Span,
        callee: Node,
        args: Nodes,
        type_args: Option<Node>,
    ) -> Result<Node, NoMemory>
        ensures { IfOk result (λ node. node ≡ node_of span Kind.CallExpr (callee ∷ list_node args ∷ or_absent type_args ∷ [])) }
    {
        Node::of(
            alloc,
            span,
            Kind::CallExpr,
            [callee, Node::list(args), Node::or_absent(alloc, type_args)],
        )
    }

    /// A construction; without parentheses its arguments are missing (ECMAScript, 13.3.5).
    pub fn new_expr(
        alloc: Global,
        span: Span,
        callee: Expr,
        args: Option<Nodes>,
        type_args: Option<Node>,
    ) -> Result<Node, NoMemory>
        ensures { IfOk result (λ node. node ≡ node_of span Kind.NewExpr (callee ∷ list_or_absent args ∷ or_absent type_args ∷ [])) }
    {
        Node::of(
            alloc,
            span,
            Kind::NewExpr,
            [
                callee,
                Node::list_or_absent(alloc, args),
                Node::or_absent(alloc, type_args),
            ],
        )
    }

    /// A link of an optional chain (ECMAScript, 13.3.9): `optional` with its own `?.`, else behind one that is.
    pub fn opt_chain_expr(
        alloc: Global,
        span: Span,
        optional: bool,
        base: Node,
    ) -> Result<Node, NoMemory>
        ensures { IfOk result (λ node. node ≡ node_of span (Kind.OptChainExpr optional) (base ∷ [])) }
    {
        Node::of(alloc, span, Kind::OptChainExpr { optional }, [base])
    }

    /// A call in an optional chain.
    pub fn opt_call(
        alloc: Global,
        span: Span,
        callee: Expr,
        args: Nodes,
        type_args: Option<Node>,
    ) -> Result<Node, NoMemory>
        ensures { IfOk result (λ node. node ≡ node_of span Kind.OptCall (callee ∷ list_node args ∷ or_absent type_args ∷ [])) }
    {
        Node::of(
            alloc,
            span,
            Kind::OptCall,
            [callee, Node::list(args), Node::or_absent(alloc, type_args)],
        )
    }

    /// Expressions with commas between them (ECMAScript, 13.16), which are its children: at least one, `last` the last, `before` those before it. It takes no memory.
    pub fn seq_expr(span: Span, exprs: Nodes) -> Node
        requires { 0 < length exprs }
        ensures { result ≡ node_of span Kind.SeqExpr exprs }
    {
        Node::new(span, Kind::SeqExpr, exprs)
    }

    /// A template (ECMAScript, 13.2.8).
    pub fn tpl(alloc: Global, span: Span, exprs: Nodes, quasis: Nodes) -> Result<Node, NoMemory>
        ensures { IfOk result (λ node. node ≡ node_of span Kind.Tpl (list_node exprs ∷ list_node quasis ∷ [])) }
    {
        Node::of(
            alloc,
            span,
            Kind::Tpl,
            [Node::list(exprs), Node::list(quasis)],
        )
    }

    /// A template behind a tag (ECMAScript, 13.3.11).
    pub fn tagged_tpl(
        alloc: Global,
        span: Span,
        tag: Expr,
        type_params: Option<Node>,
        tpl: Node,
    ) -> Result<Node, NoMemory>
        ensures { IfOk result (λ node. node ≡ node_of span Kind.TaggedTpl (tag ∷ or_absent type_params ∷ tpl ∷ [])) }
    {
        Node::of(
            alloc,
            span,
            Kind::TaggedTpl,
            [tag, Node::or_absent(alloc, type_params), tpl],
        )
    }

    /// `yield`, or `yield*` with `delegate` (ECMAScript, 15.5).
    pub fn yield_expr(
        alloc: Global,
        span: Span,
        delegate: bool,
        arg: Option<Expr>,
    ) -> Result<Node, NoMemory>
        ensures { IfOk result (λ node. node ≡ node_of span (Kind.YieldExpr delegate) (or_absent arg ∷ [])) }
    {
        Node::of(
            alloc,
            span,
            Kind::YieldExpr { delegate },
            [Node::or_absent(alloc, arg)],
        )
    }

    /// `await` (ECMAScript, 15.8).
    pub fn await_expr(alloc: Global, span: Span, arg: Expr) -> Result<Node, NoMemory>
        ensures { IfOk result (λ node. node ≡ node_of span Kind.AwaitExpr (arg ∷ [])) }
    {
        Node::of(alloc, span, Kind::AwaitExpr, [arg])
    }

    /// An expression in parentheses.
    pub fn paren_expr(alloc: Global, span: Span, expr: Expr) -> Result<Node, NoMemory>
        ensures { IfOk result (λ node. node ≡ node_of span Kind.ParenExpr (expr ∷ [])) }
    {
        Node::of(alloc, span, Kind::ParenExpr, [expr])
    }
}
