//! What is asked of an expression.
ghost use Rattle.std.specs.Prelude.{◌≡◌, IfOk, map};
ghost use Rattle.ecma_tree.specs.declared.node.Node.{Node, out-Node};
ghost use Rattle.ecma_judge.specs.Contexts.{is_global, is_one_of_globals};
ghost use Rattle.ecma_judge.specs.Judged.{judged};
ghost use Rattle.ecma_judge.specs.Parts.{is_array, is_number_literal};
ghost use Rattle.ecma_judge.specs.Truths.{if_pure};
ghost use Rattle.ecma_judge.specs.Values.{is_immutable, is_text, is_void_expr};
ghost use Rattle.std.specs.Prelude.{codes};

use crate::ctx::ExprCtx;
use crate::truths::{pure_number, pure_truth};
use crate::{callees, casts, effects, forms, globals, parts, types};
use ecma_number::{BoolValue, JsNumber, JsType, Purity, Value};
use ecma_tree::{Expr, JsWord, NoMemory, Node};
use std::alloc::Global;

/// What is known of an expression before a program runs. Parentheses are seen through by truth and effects, and types round an expression by
/// effects alone. The only refusal of each call is want of memory; a call that does not take `alloc` takes none.
pub trait ExprExt {
    /// The expression that a value is.
    ghost expr: { Self → Node };

    /// The expression itself.
    fn as_expr(&self) -> &Expr
        ensures { result.now ≡ expr self.now };

    /// Whether the value is the same wherever it is evaluated: of a text, a number, a truth value, `null`, the names `undefined`, `Infinity`
    /// and `NaN` in whatever context, and `!`, `~`, `void` and templates of such.
    final fn is_immutable_value(&self) -> bool
        ensures { result ≡ is_immutable (expr self.now) }
    {
        forms::is_immutable(self.as_expr())
    }

    /// Whether it is a number literal.
    final fn is_number(&self) -> bool
        ensures { result ≡ is_number_literal (out-Node (expr self.now)).kind }
    {
        parts::is_number_literal(&self.as_expr().kind)
    }

    /// Whether the value is a text: of a text literal, a template, `typeof`, `+` with a side that is one, `=` and `+=` of one, a sequence that
    /// ends in one, and a conditional expression of two.
    final fn is_str(&self) -> bool
        ensures { result ≡ is_text (expr self.now) }
    {
        forms::is_text(self.as_expr())
    }

    /// Whether it is an array literal.
    final fn is_array_lit(&self) -> bool
        ensures { result ≡ is_array (out-Node (expr self.now)).kind }
    {
        parts::is_array(&self.as_expr().kind)
    }

    /// Whether it is `void` with its operand.
    final fn is_void(&self) -> bool
        ensures { result ≡ is_void_expr (out-Node (expr self.now)).kind }
    {
        forms::is_void_expr(&self.as_expr().kind)
    }

    /// Whether it is the global `NaN`.
    final fn is_nan(&self, ctx: &ExprCtx) -> bool
        ensures { result ≡ is_global ctx.now (codes "NaN") (out-Node (expr self.now)).kind }
    {
        globals::is_global(ctx, "NaN", &self.as_expr().kind)
    }

    /// Whether it is the global `undefined`.
    final fn is_undefined(&self, ctx: &ExprCtx) -> bool
        ensures { result ≡ is_global ctx.now (codes "undefined") (out-Node (expr self.now)).kind }
    {
        globals::is_global(ctx, "undefined", &self.as_expr().kind)
    }

    /// Whether it is the name of this text that no scope declares.
    final fn is_global_ref_to(&self, ctx: &ExprCtx, text: &str) -> bool
        ensures { result ≡ is_global ctx.now text.now (out-Node (expr self.now)).kind }
    {
        globals::is_global(ctx, text, &self.as_expr().kind)
    }

    /// Whether it is the name of one of these texts that no scope declares.
    final fn is_one_of_global_ref_to(&self, ctx: &ExprCtx, texts: &[&str]) -> bool
        ensures { result ≡ is_one_of_globals ctx.now (map (λ text. text.now) texts.now) (out-Node (expr self.now)).kind }
    {
        globals::is_one_of_globals(ctx, texts, &self.as_expr().kind)
    }

    /// Whether the value counts as true, if it is known and nothing has to be done to know it.
    final fn as_pure_bool(&self, alloc: Global, ctx: &ExprCtx) -> Result<BoolValue, NoMemory>
        ensures { IfOk result (λ known. known ≡ if_pure (judged ctx.now (expr self.now)).truth) }
    {
        Ok(pure_truth(casts::truth(alloc, ctx, self.as_expr())?))
    }

    /// Whether the value counts as true, as `Boolean` gives it, and the purity of what tells it.
    final fn cast_to_bool(
        &self,
        alloc: Global,
        ctx: &ExprCtx,
    ) -> Result<(Purity, BoolValue), NoMemory>
        ensures { IfOk result (λ known. known ≡ (judged ctx.now (expr self.now)).truth) }
    {
        casts::truth(alloc, ctx, self.as_expr())
    }

    /// The value as `Number` gives it, and the purity of what tells it.
    final fn cast_to_number(
        &self,
        alloc: Global,
        ctx: &ExprCtx,
    ) -> Result<(Purity, Value<JsNumber>), NoMemory>
        ensures { IfOk result (λ known. known ≡ (judged ctx.now (expr self.now)).number) }
    {
        casts::number(alloc, ctx, self.as_expr())
    }

    /// The value as `Number` gives it, if it is known and nothing has to be done to know it.
    final fn as_pure_number(
        &self,
        alloc: Global,
        ctx: &ExprCtx,
    ) -> Result<Value<JsNumber>, NoMemory>
        ensures { IfOk result (λ known. known ≡ if_pure (judged ctx.now (expr self.now)).number) }
    {
        Ok(pure_number(casts::number(alloc, ctx, self.as_expr())?))
    }

    /// The value as `String` gives it, if it is known and nothing has to be done to know it.
    final fn as_pure_string(&self, alloc: Global, ctx: &ExprCtx) -> Result<Value<JsWord>, NoMemory>
        ensures { IfOk result (λ known. known ≡ (judged ctx.now (expr self.now)).text) }
    {
        casts::text(alloc, ctx, self.as_expr())
    }

    /// The type of the value, of every evaluation that completes.
    final fn get_type(&self, ctx: &ExprCtx) -> Value<JsType>
        ensures { result ≡ (judged ctx.now (expr self.now)).type }
    {
        types::type_of(ctx, self.as_expr())
    }

    /// Whether a call of the value has no effects of its own: of `Date`, of a member of `Math` by its name, of a method of a text literal that
    /// only reads it, and of a function expression that does nothing.
    final fn is_pure_callee(&self, ctx: &ExprCtx) -> bool
        ensures { result ≡ (judged ctx.now (expr self.now)).pure_callee }
    {
        callees::is_pure_callee_here(ctx, self.as_expr())
    }

    /// Whether to evaluate it may have effects.
    final fn may_have_side_effects(&self, ctx: &ExprCtx) -> bool
        ensures { result ≡ (judged ctx.now (expr self.now)).effects }
    {
        effects::has_effects(ctx, self.as_expr())
    }
}

impl ExprExt for Node {
    ghost expr = { λ node. node };

    fn as_expr(&self) -> &Expr {
        self
    }
}
