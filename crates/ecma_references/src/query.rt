//! What is asked of names.
ghost use Rattle.std.specs.Prelude.{◌≡◌, IfOk, IfSome, IsTrue};
ghost use Rattle.ecma_tree.specs.declared.node.Node.{out-Node};
ghost use Rattle.ecma_references.specs.Answers.{Answers, is_member};

use ecma_tree::{Expr, Ident, NoMemory};
use std::alloc::Global;

/// What answers which expression stands for a name. The only refusal of its calls is want of memory.
pub trait QueryRef {
    /// What it answers of each name.
    ghost answers: { Self → Answers };

    /// What stands for a name where it is read, if anything does.
    fn query_ref(&self, alloc: Global, ident: &Ident) -> Result<Option<Expr>, NoMemory>
        ensures { IfOk result (λ expr. expr ≡ (answers self.now).read ident.now) };

    /// What stands for a name where it is written to, if anything does: a member.
    fn query_lhs(&self, alloc: Global, ident: &Ident) -> Result<Option<Expr>, NoMemory>
        ensures answer { IfOk result (λ expr. expr ≡ (answers self.now).target ident.now) }
        ensures member { IfOk result (λ expr. IfSome expr (λ e. IsTrue (is_member (out-Node e).kind))) };

    /// Whether a call of a member that stands for the name is to give no `this`, as a call of the name gives none. It takes
    /// no memory.
    fn should_fix_this(&self, ident: &Ident) -> bool
        ensures { result ≡ (answers self.now).fixes_this ident.now };
}
