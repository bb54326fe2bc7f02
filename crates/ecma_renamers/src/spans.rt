//! Trees without spans.
ghost use Rattle.std.specs.Prelude.{◌≡◌};
ghost use Rattle.ecma_tree.specs.Spans.{without_spans};

use ecma_tree::{Expr, Module, Pat, Stmt, drop_spans};

/// Gives each node the span of what stands in no text. No call takes memory.
#[derive(Clone, Copy, Debug)]
pub struct DropSpan;

impl DropSpan {
    pub fn visit_mut_module(&mut self, tree: &mut Module)
        ensures { tree.new ≡ without_spans tree.old }
    {
        drop_spans(tree);
    }

    pub fn visit_mut_stmt(&mut self, stmt: &mut Stmt)
        ensures { stmt.new ≡ without_spans stmt.old }
    {
        drop_spans(stmt);
    }

    pub fn visit_mut_expr(&mut self, expr: &mut Expr)
        ensures { expr.new ≡ without_spans expr.old }
    {
        drop_spans(expr);
    }

    pub fn visit_mut_pat(&mut self, pat: &mut Pat)
        ensures { pat.new ≡ without_spans pat.old }
    {
        drop_spans(pat);
    }
}

/// The expression with the span of what stands in no text at each node. It takes no memory.
pub fn drop_span(expr: Expr) -> Expr
    ensures { result ≡ without_spans expr }
{
    let mut expr = expr;
    drop_spans(&mut expr);
    expr
}
