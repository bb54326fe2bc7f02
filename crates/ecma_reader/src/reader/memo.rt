//! Which attempts have failed, and where, so that none is made twice: a nested text that is read twice at each level would take twice as long for each.
ghost use Rattle.std.specs.Prelude.{◌≡◌};
ghost use Rattle.ecma_reader.specs.Memo.{refusal_of};

use super::Reader;
use super::attempts::{Attempt, attempt_of};
use ecma_grammar::Production;
use ecma_tree::{NoMemory, Node};
use std::alloc::Global;
use std::collections::HashMap;

/// An attempt at a place.
#[derive(Clone, Copy, Debug, PartialEq, Eq, Hash)]
pub(crate) struct Trial {
    pub attempt: Attempt,
    pub place: u32,
}

/// How a trial failed.
#[derive(Clone, Copy, Debug)]
pub(crate) struct Refusal {
    /// The levels that are enough for it to fail so.
    pub left: usize,
    /// The greatest place at which a terminal had failed then.
    pub at: u32,
}

/// The most trials that are remembered.
const MOST: usize = 0x20000;

/// The parts that an attempt begins at least, if it is remembered.
const LARGE: u32 = 8;

/// How the trials failed that are remembered.
#[derive(Drop)]
pub(crate) struct Memo {
    trials: HashMap<Trial, Refusal>,
}

impl Memo {
    ghost use Rattle.std.specs.Prelude.{◌≡◌, ◌⊎◌, Some, None};
    ghost use Rattle.ecma_reader.specs.declared.reader.memo.Trial.{Trial};
    ghost use Rattle.ecma_reader.specs.declared.reader.memo.Refusal.{Refusal};
    ghost use Rattle.ecma_reader.specs.Memo.{refusal_of};

    pub(super) fn new(alloc: Global) -> Memo
        ensures { (trial : Trial) → refusal_of result trial ≡ None }
    {
        Memo {
            trials: HashMap::new(alloc),
        }
    }

    fn is_empty(&self) -> bool {
        self.trials.is_empty()
    }

    fn refusal(&self, trial: &Trial) -> Option<Refusal>
        ensures { result ≡ refusal_of self.now trial.now }
    {
        self.trials.get(trial).copied()
    }

    /// Remembers one trial more; where there are too many, the others are forgotten.
    fn remember(&mut self, trial: Trial, refusal: Refusal) -> Result<(), NoMemory>
        ensures { (t : Trial) (k : Refusal) → refusal_of self.new t ≡ Some k → ((t ≡ trial) × (k ≡ refusal)) ⊎ (refusal_of self.old t ≡ Some k) }
    {
        if MOST <= self.trials.len() {
            self.trials.clear();
        }
        self.trials.insert(trial, refusal)?;
        Ok(())
    }
}

/// Where a reader stood.
#[derive(Clone, Copy, Debug)]
pub(crate) struct Mark {
    pub place: u32,
    /// How many nodes were kept.
    pub count: usize,
    /// How many parts were begun.
    begun: u32,
}

/// What a reader had kept and where it stood before it read something again.
#[derive(Drop)]
pub(crate) struct Aside {
    kept: Vec<Node>,
    place: u32,
    failed: u32,
    /// The fewest levels that were left inside a part.
    least: usize,
}

impl Reader<'_> {
    ghost use Rattle.std.specs.Prelude.{◌≡◌, ◌≤◌, [], IsTrue, length};
    ghost use Rattle.ecma_grammar.specs.Written.{written};
    ghost use Rattle.ecma_grammar.specs.Reading.{fails};
    ghost use Rattle.ecma_reader.specs.Agreement.{SameText, kept, position, reads_in};

    /// One part more is begun.
    pub(crate) fn begin_part(&mut self)
        ensures text { SameText self.old self.new }
        ensures position { position self.new ≡ position self.old }
        ensures kept { kept self.new ≡ kept self.old }
    {
        self.begun = self.begun.wrapping_add(1);
    }

    /// So many levels are left inside a part.
    pub(crate) fn go_in(&mut self, left: usize)
        ensures text { SameText self.old self.new }
        ensures position { position self.new ≡ position self.old }
        ensures kept { kept self.new ≡ kept self.old }
    {
        if left < self.least {
            self.least = left;
        }
    }

    /// Where the reader stands.
    pub(crate) fn mark(&self) -> Mark
        ensures place { result.place ≡ self.now.place }
        ensures count { result.count ≡ length (kept self.now) }
    {
        Mark {
            place: self.place,
            count: self.kept.len(),
            begun: self.begun,
        }
    }

    /// Whether a production is an attempt that failed here before, with no more levels, and with nothing to be marked again.
    #[tactic(auto, using(crate::proofs::Memories::remembering))]
    pub(crate) fn has_failed(&mut self, production: &'static Production, left: usize) -> bool
        ensures text { SameText self.old self.new }
        ensures position { position self.new ≡ position self.old }
        ensures kept { kept self.new ≡ kept self.old }
        ensures failed { IsTrue result → reads_in self.old left (written production.now) (position self.old) ≡ fails self.old.failed }
    {
        if self.memo.is_empty() {
            return false;
        }
        let Some(attempt) = attempt_of(production) else {
            return false;
        };
        let trial = Trial {
            attempt,
            place: self.place,
        };
        let Some(refusal) = self.memo.refusal(&trial) else {
            return false;
        };
        if left < refusal.left || self.failed < refusal.at {
            return false;
        }
        self.go_in(left - refusal.left);
        true
    }

    /// Whether a production is an attempt that is to be remembered, if it failed after it was begun at a mark: it began many parts.
    pub(crate) fn is_large(&self, production: &'static Production, from: Mark) -> bool {
        LARGE <= self.begun.wrapping_sub(from.begun) && attempt_of(production).is_some()
    }

    /// Goes back to a place, and sets aside what was kept, so that something is read again where so many levels are allowed.
    pub(crate) fn set_aside(&mut self, place: u32, left: usize) -> Aside
        ensures text { SameText self.old self.new }
        ensures position { position self.new ≡ record { place = place; failed = self.old.failed } }
        ensures kept { kept self.new ≡ [] }
        ensures aside_kept { result.kept.items ≡ kept self.old }
        ensures aside_place { result.place ≡ self.old.place }
        ensures aside_failed { result.failed ≡ self.old.failed }
    {
        let nothing = Vec::new(self.alloc);
        let kept = std::mem::replace(&mut self.kept, nothing);
        let aside = Aside {
            kept,
            place: self.place,
            failed: self.failed,
            least: self.least,
        };
        self.place = place;
        self.least = left;
        aside
    }

    /// How many of the levels that were allowed were taken since something was set aside.
    pub(crate) fn levels_taken(&self, left: usize) -> usize
        ensures { result ≤ left }
    {
        left.saturating_sub(self.least)
    }

    /// Stands again as before something was set aside.
    pub(crate) fn stand_again(&mut self, aside: Aside)
        ensures text { SameText self.old self.new }
        ensures position { position self.new ≡ record { place = aside.place; failed = aside.failed } }
        ensures kept { kept self.new ≡ aside.kept.items }
    {
        self.kept = aside.kept;
        self.place = aside.place;
        self.failed = aside.failed;
        self.go_in(aside.least);
    }

    /// Remembers that an attempt at a place fails where so many levels are allowed.
    #[tactic(auto, using(crate::proofs::Memories::remembering))]
    pub(crate) fn remember(
        &mut self,
        production: &'static Production,
        left: usize,
        place: u32,
        before: u32,
    ) -> Result<(), NoMemory>
        requires { reads_in self.old left (written production.now) (record { place = place; failed = before }) ≡ fails self.old.failed }
        ensures text { SameText self.old self.new }
        ensures position { position self.new ≡ position self.old }
        ensures kept { kept self.new ≡ kept self.old }
    {
        let Some(attempt) = attempt_of(production) else {
            return Ok(());
        };
        let refusal = Refusal {
            left,
            at: self.failed,
        };
        self.memo.remember(Trial { attempt, place }, refusal)
    }
}
