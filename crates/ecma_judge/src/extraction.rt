//! The effects of an expression without its value.
ghost use Rattle.std.specs.Prelude.{◌≡◌, ◌++◌, IfOk, OnErr, OnOk};
ghost use Rattle.ecma_judge.specs.Extraction as table;
ghost use Rattle.ecma_judge.specs.Extraction.{IsFront};

use crate::ctx::ExprCtx;
use crate::effects::has_effects;
use crate::ways::{Way, way_of};
use ecma_tree::{Expr, NoMemory, Node, Nodes, Span};
use std::alloc::Global;

/// Of properties those that have effects.
#[tactic(auto, using(crate::proofs::Extracting::keeping))]
fn kept_items(alloc: Global, ctx: &ExprCtx, items: Nodes) -> Result<Nodes, NoMemory>
    ensures { IfOk result (λ kept. kept ≡ table.kept_items ctx.now items) }
{
    let mut kept = Nodes::new(alloc);
    for item in items.into_vec() {
        if has_effects(ctx, &item) {
            kept.push(item)?;
        }
    }
    Ok(kept)
}

fn kept_list(alloc: Global, ctx: &ExprCtx, list: Node) -> Result<Node, NoMemory>
    ensures { IfOk result (λ node. node ≡ table.kept_list ctx.now list) }
{
    let Node {
        span,
        kind,
        children,
    } = list;
    let kept = kept_items(alloc, ctx, children)?;
    Ok(Node::new(span, kind, kept))
}

#[tactic(auto, using(crate::proofs::Extracting::listing))]
fn kept_lists(alloc: Global, ctx: &ExprCtx, lists: Nodes) -> Result<Nodes, NoMemory>
    ensures { IfOk result (λ kept. kept ≡ table.kept_lists ctx.now lists) }
{
    let mut kept = Nodes::new(alloc);
    for list in lists.into_vec() {
        kept.push(kept_list(alloc, ctx, list)?)?;
    }
    Ok(kept)
}

/// An object with those of its properties that have effects.
fn kept(alloc: Global, ctx: &ExprCtx, object: Node) -> Result<Node, NoMemory>
    ensures { IfOk result (λ node. node ≡ table.kept ctx.now object) }
{
    let Node {
        span,
        kind,
        children,
    } = object;
    let lists = kept_lists(alloc, ctx, children)?;
    Ok(Node::new(span, kind, lists))
}

/// Puts the effects of the first child of a node behind the others.
#[cycle(extracting)]
#[tactic(auto, using(crate::proofs::Extracting::extracting))]
fn extract_first(alloc: Global, ctx: &ExprCtx, to: &mut Nodes, node: Node) -> Result<(), NoMemory>
    ensures done { OnOk result (to.new ≡ to.old ++ table.extracted_first ctx.now node) }
    ensures refused { OnErr result (IsFront to.old to.new) }
{
    let mut parts = node.children;
    if parts.is_empty() {
        return Ok(());
    }
    let part = parts.replace(0, Node::absent(alloc));
    extract(alloc, ctx, to, part)
}

/// Puts the effects of the children of a node behind the others, in order.
#[cycle(extracting)]
#[tactic(auto, using(crate::proofs::Extracting::extracting))]
fn extract_parts(alloc: Global, ctx: &ExprCtx, to: &mut Nodes, node: Node) -> Result<(), NoMemory>
    ensures done { OnOk result (to.new ≡ to.old ++ table.extracted_parts ctx.now node) }
    ensures refused { OnErr result (IsFront to.old to.new) }
{
    let mut parts = node.children;
    for i in 0..parts.len() {
        let part = parts.replace(i, Node::absent(alloc));
        extract(alloc, ctx, to, part)?;
    }
    Ok(())
}

/// Puts the effects of an expression behind the others.
#[cycle(extracting)]
#[tactic(auto, using(crate::proofs::Extracting::extracting))]
fn extract(alloc: Global, ctx: &ExprCtx, to: &mut Nodes, expr: Node) -> Result<(), NoMemory>
    ensures done { OnOk result (to.new ≡ to.old ++ table.extracted ctx.now expr) }
    ensures refused { OnErr result (IsFront to.old to.new) }
{
    match way_of(ctx, &expr) {
        Way::Nothing => Ok(()),
        Way::Whole => {
            to.push(expr)?;
            Ok(())
        }
        Way::Parts => extract_parts(alloc, ctx, to, expr),
        Way::First => extract_first(alloc, ctx, to, expr),
        Way::Kept => {
            to.push(kept(alloc, ctx, expr)?)?;
            Ok(())
        }
    }
}

impl ExprCtx {
    /// Puts what is left of an expression behind the others, in the order of evaluation, where its value is not wanted: the parts that may have
    /// effects. Without memory the others stay, and some of what is left may stand behind them.
    pub fn extract_side_effects_to(
        &self,
        alloc: Global,
        to: &mut Nodes,
        expr: Expr,
    ) -> Result<(), NoMemory>
        ensures done { OnOk result (to.new ≡ to.old ++ table.extracted self.now expr) }
        ensures refused { OnErr result (IsFront to.old to.new) }
    {
        extract(alloc, self, to, expr)
    }

    /// An expression with the value of `val` behind the effects of these: `val` itself where they have none, else a sequence that stands
    /// there.
    #[tactic(auto, using(crate::proofs::Extracting::preserving))]
    pub fn preserve_effects(
        &self,
        alloc: Global,
        span: Span,
        val: Expr,
        exprs: Nodes,
    ) -> Result<Expr, NoMemory>
        ensures { IfOk result (λ node. node ≡ table.preserved self.now span val exprs) }
    {
        let mut effects = Nodes::new(alloc);
        for expr in exprs.into_vec() {
            extract(alloc, self, &mut effects, expr)?;
        }
        if effects.is_empty() {
            return Ok(val);
        }
        effects.push(val)?;
        Ok(Node::seq_expr(span, effects))
    }
}
