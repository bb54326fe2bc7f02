//! A session, which gives marks to the passes of one conversion and keeps which helpers they use.
ghost use Rattle.std.specs.Prelude.{◌≡◌, ◌↔◌, ◌-◌, ◌<◌, ◌≤◌, IsErr, IfOk, OnErr, IfSome, slice_get, slice_set, length, replicate, None, Some};

use crate::context::{Mark, SyntaxContext};
use crate::error::Spent;
use std::marker::Model;

const SLOTS: usize = 5;

/// Gives marks, each once, as long as some are left; and keeps for each of the five helpers
/// whether it is used, and in which context.
///
/// It was made with a number. The marks that it has given are those with a number above
/// `left()` and at most that one.
#[derive(Debug, Drop)]
pub struct Session {
    total: u32,
    left: u32,
    slots: [Option<(SyntaxContext, bool)>; SLOTS],
}

impl Model for Session {
    ghost use Rattle.ecma_kind.specs.Sessions.{SessionState, IsSession};

    ghost Value = { SessionState };

    ghost view = { λ session. record { total = session.total; left = session.left; slots = session.slots } };

    ghost invariant = { λ session. IsSession (record { total = session.total; left = session.left; slots = session.slots }) };
}

impl Session {
    ghost use Rattle.ecma_kind.specs.Sessions.{fresh_session, drawn, with_slot, HasGiven, IsSession};

    /// A session with so many marks, and nothing in its slots.
    pub fn new(left: u32) -> Session
        ensures { result ≡ fresh_session left }
    {
        Session {
            total: left,
            left,
            slots: [None; SLOTS],
        }
    }

    /// How many marks are left. Every session meets `IsSession`, which this call says of it.
    pub fn left(&self) -> u32
        ensures left { result ≡ self.now.left }
        ensures session { IsSession self.now }
    {
        self.left
    }

    /// Gives the mark whose number is how many are left, and has one less then.
    /// `Spent` comes exactly where none is left, and changes nothing.
    pub fn fresh_mark(&mut self) -> Result<Mark, Spent>
        ensures spent { IsErr result ↔ (self.old.left ≡ 0) }
        ensures mark { IfOk result (λ mark. mark ≡ self.old.left) }
        ensures session { self.new ≡ drawn self.old }
    {
        if self.left == 0 {
            return Err(Spent);
        }
        let mark = Mark::new(self.left);
        self.left -= 1;
        Ok(mark)
    }

    /// What [`Session::set_slot`] last put into the slot `n`, counted from 0; none where nothing was put there.
    /// It is a context of a mark that this session gave.
    pub fn slot(&self, n: usize) -> Option<(SyntaxContext, bool)>
        requires { n < 5 }
        ensures kept { slice_get self.now.slots n ≡ Some result }
        ensures given { IfSome result (λ kept. HasGiven self.now kept.0) }
    {
        self.slots[n]
    }

    /// Puts a context that this session gave the mark of into the slot `n`, and whether it is used.
    pub fn set_slot(&mut self, n: usize, ctxt: SyntaxContext, used: bool)
        requires slot { n < 5 }
        requires given { HasGiven self.old ctxt }
        ensures { self.new ≡ with_slot self.old n ctxt used }
    {
        self.slots[n] = Some((ctxt, used));
    }
}
