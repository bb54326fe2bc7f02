//! Contexts that are drawn where they are wanted.
ghost use Rattle.std.specs.Prelude.{◌≡◌, ◌+◌, ◌<◌, Err, IfOk, OnOk};
ghost use Rattle.ecma_kind.specs.declared.error.PassError.TheVariants as pass_error;
ghost use Rattle.ecma_scope.specs.Drawing.{HasGivenAtMost};
ghost use Rattle.ecma_function_parts.specs.Drawing.{context_if, count};

use ecma_tree::{PassError, Session, SyntaxContext};

/// A fresh context where one is wanted, else the empty one.
#[tactic(auto, using(crate::proofs::Given::giving))]
pub fn draw_if(session: &mut Session, wanted: bool) -> Result<SyntaxContext, PassError>
    ensures ctxt { IfOk result (λ ctxt. ctxt ≡ context_if wanted session.old.left) }
    ensures left { OnOk result (session.new.left + count wanted ≡ session.old.left) }
    ensures spent { result ≡ Err pass_error.Spent → session.old.left < count wanted }
    ensures session { HasGivenAtMost (count wanted) session.old session.new }
{
    if !wanted {
        return Ok(SyntaxContext::empty());
    }
    let mark = session.fresh_mark()?;
    Ok(SyntaxContext::empty().apply_mark(mark))
}
