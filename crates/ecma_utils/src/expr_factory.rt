//! What is written of an expression.
ghost use Rattle.std.specs.Prelude.{◌≡◌, ◌∷◌, [], IfOk, map};
ghost use Rattle.ecma_kind.specs.declared.operators.BinaryOp.TheVariants as op;
ghost use Rattle.ecma_tree.specs.declared.node.Node.{Node, out-Node};
ghost use Rattle.ecma_tree.specs.Nodes.{dummy_span};
ghost use Rattle.ecma_utils.specs.Expressions.{apply_of, assign_of, bin_of, block_of, call_method_of, call_of, class_decl_of, computed_member_of, expr_stmt_of, first_is_there, fn_decl_of, is_there, key_of, lazy_arrow_of, lazy_function_of, lazy_of, member_of, new_of, param_of, paren_of, return_stmt_of, var_decl_of};

use crate::function_factory::FunctionFactory;
use crate::indirect::Callee;
use ecma_tree::{
    AssignOp, BinaryOp, DUMMY_SP, Expr, Function, JsWord, Kind, NoMemory, Node, Nodes, Pat, Span,
    Stmt, VarDeclKind,
};
use std::alloc::Global;

fn is_there(node: &Node) -> bool
    ensures { result ≡ is_there node.now }
{
    !matches!(node.kind, Kind::Absent)
}

/// Whether the first child is there: the name of a function or class expression.
pub(crate) fn first_is_there(node: &Node) -> bool
    ensures { result ≡ first_is_there (out-Node node.now).children }
{
    match node.children.get(0) {
        Some(name) => is_there(name),
        None => false,
    }
}

pub(crate) fn key_of(alloc: Global, span: Span, text: &str) -> Result<Node, NoMemory>
    ensures { IfOk result (λ node. node ≡ key_of span text.now) }
{
    let sym = JsWord::new(alloc, text)?;
    Ok(Node::leaf(alloc, span, Kind::IdentName { sym }))
}

fn block_of(alloc: Global, stmt: Stmt) -> Result<Node, NoMemory>
    ensures { IfOk result (λ node. node ≡ block_of (stmt ∷ [])) }
{
    let stmts = Nodes::from_array(alloc, [stmt])?;
    Node::block_stmt(alloc, DUMMY_SP, stmts)
}

/// Parameters of these patterns.
#[tactic(auto, using(crate::proofs::Mapping::mapping))]
fn params_of(alloc: Global, patterns: Nodes) -> Result<Nodes, NoMemory>
    ensures { IfOk result (λ params. params ≡ map param_of patterns) }
{
    let mut params = Nodes::new(alloc);
    for pattern in patterns.into_vec() {
        params.push(Node::param(alloc, DUMMY_SP, pattern)?)?;
    }
    Ok(params)
}

fn lazy_arrow_of(alloc: Global, params: Nodes, e: Expr) -> Result<Expr, NoMemory>
    ensures { IfOk result (λ node. node ≡ lazy_arrow_of params e) }
{
    Node::arrow_expr(alloc, DUMMY_SP, false, false, params, e, None, None)
}

fn lazy_function_of(alloc: Global, params: Nodes, e: Expr) -> Result<Function, NoMemory>
    ensures { IfOk result (λ node. node ≡ lazy_function_of params e) }
{
    let stmt = Node::return_stmt(alloc, DUMMY_SP, Some(e))?;
    let body = Some(block_of(alloc, stmt)?);
    Node::function(alloc, DUMMY_SP, false, false, params, body, None, None)
}

fn lazy_of(alloc: Global, arrows: bool, params: Nodes, e: Expr) -> Result<Expr, NoMemory>
    ensures { IfOk result (λ node. node ≡ lazy_of arrows params e) }
{
    if arrows {
        return lazy_arrow_of(alloc, params, e);
    }
    let params = params_of(alloc, params)?;
    let function = lazy_function_of(alloc, params, e)?;
    function.into_fn_expr(alloc, None)
}

/// What is written of an expression `e`. What a call writes has the span of what stands in no text, where it says nothing else.
/// The only refusal of each call is want of memory.
pub trait ExprFactory: Sized {
    /// The expression that a value is.
    ghost expr: { Self → Node };

    /// The expression itself.
    fn into_expr(self) -> Expr
        ensures { result ≡ expr self };

    /// `e` as an argument.
    final fn as_arg(self, _alloc: Global) -> Result<Node, NoMemory>
        ensures { IfOk result (λ node. node ≡ expr self) }
    {
        Ok(self.into_expr())
    }

    /// `e;`
    final fn into_stmt(self, alloc: Global) -> Result<Stmt, NoMemory>
        ensures { IfOk result (λ node. node ≡ expr_stmt_of (expr self)) }
    {
        Node::expr_stmt(alloc, DUMMY_SP, self.into_expr())
    }

    /// `return e;`
    final fn into_return_stmt(self, alloc: Global) -> Result<Stmt, NoMemory>
        ensures { IfOk result (λ node. node ≡ return_stmt_of (expr self)) }
    {
        Node::return_stmt(alloc, DUMMY_SP, Some(self.into_expr()))
    }

    /// `e` as a callee.
    final fn as_callee(self, _alloc: Global) -> Result<Callee, NoMemory>
        ensures { IfOk result (λ callee. callee.node ≡ expr self) }
    {
        Ok(Callee {
            node: self.into_expr(),
        })
    }

    /// `e()`
    final fn as_iife(self, alloc: Global) -> Result<Expr, NoMemory>
        ensures { IfOk result (λ node. node ≡ call_of dummy_span (expr self) []) }
    {
        Node::call_expr(alloc, DUMMY_SP, self.into_expr(), Nodes::new(alloc), None)
    }

    /// `e(args)`, at a place of the text.
    final fn as_call(self, alloc: Global, span: Span, args: Nodes) -> Result<Expr, NoMemory>
        ensures { IfOk result (λ node. node ≡ call_of span (expr self) args) }
    {
        Node::call_expr(alloc, span, self.into_expr(), args, None)
    }

    /// `(params) => e`
    final fn into_lazy_arrow(self, alloc: Global, params: Nodes) -> Result<Expr, NoMemory>
        ensures { IfOk result (λ node. node ≡ lazy_arrow_of params (expr self)) }
    {
        lazy_arrow_of(alloc, params, self.into_expr())
    }

    /// `function(params) { return e; }`, as a function without a name that is no expression yet.
    final fn into_lazy_fn(self, alloc: Global, params: Nodes) -> Result<Function, NoMemory>
        ensures { IfOk result (λ node. node ≡ lazy_function_of params (expr self)) }
    {
        lazy_function_of(alloc, params, self.into_expr())
    }

    /// `(params) => e` where arrows are supported, else `function(params) { return e; }`.
    final fn into_lazy_auto(
        self,
        alloc: Global,
        params: Nodes,
        support_arrow: bool,
    ) -> Result<Expr, NoMemory>
        ensures { IfOk result (λ node. node ≡ lazy_of support_arrow params (expr self)) }
    {
        let e = self.into_expr();
        lazy_of(alloc, support_arrow, params, e)
    }

    /// `var p = e`, with that word and pattern.
    final fn into_var_decl(
        self,
        alloc: Global,
        kind: VarDeclKind,
        name: Pat,
    ) -> Result<Node, NoMemory>
        ensures { IfOk result (λ node. node ≡ var_decl_of kind name (expr self)) }
    {
        let e = Some(self.into_expr());
        let declarator = Node::var_declarator(alloc, DUMMY_SP, false, name, e)?;
        let decls = Nodes::from_array(alloc, [declarator])?;
        Node::var_decl(alloc, DUMMY_SP, kind, false, decls)
    }

    /// `new e(args)`, at a place of the text; with `None` it has no parentheses.
    final fn into_new_expr(
        self,
        alloc: Global,
        span: Span,
        args: Option<Nodes>,
    ) -> Result<Expr, NoMemory>
        ensures { IfOk result (λ node. node ≡ new_of span (expr self) args) }
    {
        Node::new_expr(alloc, span, self.into_expr(), args, None)
    }

    /// `e.apply(this, args)`. The call and the name have the span.
    final fn apply(
        self,
        alloc: Global,
        span: Span,
        this: Expr,
        args: Nodes,
    ) -> Result<Expr, NoMemory>
        ensures { IfOk result (λ node. node ≡ apply_of span (expr self) this args) }
    {
        let e = self.into_expr();
        let key = key_of(alloc, span, "apply")?;
        let callee = Node::member_expr(alloc, DUMMY_SP, e, key)?;
        let mut all = Nodes::from_array(alloc, [this])?;
        all.append(args)?;
        Node::call_expr(alloc, span, callee, all, None)
    }

    /// `e.call(args)`. The call and the name have the span.
    final fn call_fn(self, alloc: Global, span: Span, args: Nodes) -> Result<Expr, NoMemory>
        ensures { IfOk result (λ node. node ≡ call_method_of span (expr self) args) }
    {
        let e = self.into_expr();
        let key = key_of(alloc, span, "call")?;
        let callee = Node::member_expr(alloc, DUMMY_SP, e, key)?;
        Node::call_expr(alloc, span, callee, args, None)
    }

    /// The declaration of the same name: `Some` exactly for a function expression with a name.
    final fn as_fn_decl(self, _alloc: Global) -> Result<Option<Stmt>, NoMemory>
        ensures { IfOk result (λ decl. decl ≡ fn_decl_of (expr self)) }
    {
        let e = self.into_expr();
        if !matches!(e.kind, Kind::FnExpr) || !first_is_there(&e) {
            return Ok(None);
        }
        let kind = Kind::FnDecl { declare: false };
        Ok(Some(Node::new(e.span, kind, e.children)))
    }

    /// The declaration of the same name: `Some` exactly for a class expression with a name.
    final fn as_class_decl(self, _alloc: Global) -> Result<Option<Stmt>, NoMemory>
        ensures { IfOk result (λ decl. decl ≡ class_decl_of (expr self)) }
    {
        let e = self.into_expr();
        if !matches!(e.kind, Kind::ClassExpr) || !first_is_there(&e) {
            return Ok(None);
        }
        let kind = Kind::ClassDecl { declare: false };
        Ok(Some(Node::new(e.span, kind, e.children)))
    }

    /// `(e)`, where `e` stands.
    final fn wrap_with_paren(self, alloc: Global) -> Result<Expr, NoMemory>
        ensures { IfOk result (λ node. node ≡ paren_of (expr self)) }
    {
        let e = self.into_expr();
        Node::paren_expr(alloc, e.span, e)
    }

    /// `e === right`
    final fn make_eq(self, alloc: Global, right: Expr) -> Result<Expr, NoMemory>
        ensures { IfOk result (λ node. node ≡ bin_of op.EqEqEq (expr self) right) }
    {
        Node::bin_expr(alloc, DUMMY_SP, BinaryOp::EqEqEq, self.into_expr(), right)
    }

    /// `e + right`, with that operator.
    final fn make_bin(self, alloc: Global, op: BinaryOp, right: Expr) -> Result<Expr, NoMemory>
        ensures { IfOk result (λ node. node ≡ bin_of op (expr self) right) }
    {
        Node::bin_expr(alloc, DUMMY_SP, op, self.into_expr(), right)
    }

    /// `target = e`, with that operator.
    final fn make_assign_to(self, alloc: Global, op: AssignOp, left: Node) -> Result<Expr, NoMemory>
        ensures { IfOk result (λ node. node ≡ assign_of op left (expr self)) }
    {
        Node::assign_expr(alloc, DUMMY_SP, op, left, self.into_expr())
    }

    /// `e.key`
    final fn make_member(self, alloc: Global, key: Node) -> Result<Expr, NoMemory>
        ensures { IfOk result (λ node. node ≡ member_of (expr self) key) }
    {
        Node::member_expr(alloc, DUMMY_SP, self.into_expr(), key)
    }

    /// `e[p]`
    final fn computed_member(self, alloc: Global, p: Expr) -> Result<Expr, NoMemory>
        ensures { IfOk result (λ node. node ≡ computed_member_of (expr self) p) }
    {
        let e = self.into_expr();
        let key = Node::computed_prop_name(alloc, DUMMY_SP, p)?;
        Node::member_expr(alloc, DUMMY_SP, e, key)
    }
}

impl ExprFactory for Node {
    ghost expr = { λ node. node };

    fn into_expr(self) -> Expr {
        self
    }
}
