//! Marks, and the syntax contexts that tell identifiers of one text apart.
ghost use Rattle.std.specs.Prelude.{◌≡◌, ◌↔◌, ◌^◌, ◌<◌, ℕ, IsTrue};

use std::marker::Model;

/// A mark that a [`Session`](crate::Session) gave. Contracts see it as its number, which is above 0.
#[derive(Clone, Copy, Debug, PartialEq, Eq, Hash)]
pub struct Mark {
    number: u32,
}

impl Model for Mark {
    ghost Value = { ℕ };

    ghost view = { λ mark. mark.number };

    ghost invariant = { λ mark. 0 < mark.number };

    ghost inverse = { λ number. record { number = number } };
}

impl Mark {
    /// The mark of a number above 0. Sessions alone make marks.
    pub(crate) fn new(number: u32) -> Mark
        requires { 0 < number }
        ensures { result ≡ number }
    {
        Mark { number }
    }
}

/// What tells apart identifiers of one text: the context of a mark, or the empty context.
/// Contracts see it as its number: that of its mark, and 0 for the empty context.
#[derive(Clone, Copy, Debug, PartialEq, Eq, Hash)]
pub struct SyntaxContext {
    number: u32,
}

impl Model for SyntaxContext {
    ghost Value = { ℕ };

    ghost view = { λ ctxt. ctxt.number };

    ghost inverse = { λ number. record { number = number } };
}

impl SyntaxContext {
    /// The context of no mark, which identifiers have as they are read.
    pub fn empty() -> SyntaxContext
        ensures { result ≡ 0 }
    {
        SyntaxContext { number: 0 }
    }

    /// The context of that mark alone.
    pub fn apply_mark(self, mark: Mark) -> SyntaxContext
        ensures { result ≡ mark }
    {
        SyntaxContext {
            number: mark.number,
        }
    }

    /// Whether it is the context of that mark.
    pub fn has_mark(self, mark: Mark) -> bool
        ensures { IsTrue result ↔ (self ≡ mark) }
    {
        self.number == mark.number
    }
}
