//! Identifiers as values of their own, and the ids that tell variables apart.
ghost use Rattle.std.specs.Prelude.{◌≡◌, ◌↔◌, IsTrue};

use crate::context::SyntaxContext;
use crate::span::Span;
use crate::word::JsWord;
use std::alloc::AllocError;

/// What tells one variable from another: its text and its context.
pub type Id = (JsWord, SyntaxContext);

/// An identifier that names a variable, as a value of its own: where it stands, its context, its text, and
/// whether a `?` stands after it.
#[derive(Debug, Drop, PartialEq, Eq, Hash)]
pub struct Ident {
    pub span: Span,
    pub ctxt: SyntaxContext,
    pub sym: JsWord,
    pub optional: bool,
}

/// A clone equals what it was cloned from; its only refusal is want of memory.
impl Clone for Ident {
    ghost is_clone = { λ ident copy. copy ≡ ident };

    fn clone(&self) -> Result<Ident, AllocError> {
        Ok(Ident {
            span: self.span,
            ctxt: self.ctxt,
            sym: self.sym.clone()?,
            optional: self.optional,
        })
    }
}

/// Whether the two are equal: `==` of identifiers holds exactly there.
pub fn same_ident(ident: &Ident, other: &Ident) -> bool
    ensures { IsTrue result ↔ (ident.now ≡ other.now) }
{
    ident == other
}

/// Whether the two are equal: `==` of such pairs holds exactly there.
pub fn same_id(id: &Id, other: &Id) -> bool
    ensures { IsTrue result ↔ (id.now ≡ other.now) }
{
    id == other
}
