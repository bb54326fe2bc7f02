//! Sinks in memory: one that only want of memory stops, and one that fails at the calls that it is told of.
ghost use Rattle.std.specs.Prelude.{◌≡◌, ◌≤◌, ◌<◌, ◌↔◌, ◌-◌, ◌^◌, ℕ, Some, [], ◌++◌, IfOk, IfErr, OnErr, Contains, length, min, take};
ghost use Rattle.devices.specs.Counts.{Counted, CountedExactlyIf, next_count};
ghost use Rattle.devices.specs.Sink.{Takes};

use crate::{Sink, SinkError};
use std::alloc::Global;
use std::marker::Model;

/// A sink in memory that never fails but for want of memory.
#[derive(Drop)]
pub struct VecSink {
    taken: Vec<u8>,
    calls: u64,
}

impl Model for VecSink {
    ghost use Rattle.devices.specs.Memory.{VecSinkState};

    ghost Value = { VecSinkState };

    ghost view = { λ sink. record { taken = sink.taken.items; calls = sink.calls } };
}

impl VecSink {
    pub fn new(alloc: Global) -> Self
        ensures { result ≡ record { taken = []; calls = 0 } }
    {
        VecSink {
            taken: Vec::new(alloc),
            calls: 0,
        }
    }

    /// The bytes that it has taken.
    pub fn taken(&self) -> &[u8]
        ensures { result.now ≡ self.now.taken }
    {
        &self.taken
    }
}

impl Sink for VecSink {
    ghost taken = { λ sink. Some sink.taken };

    ghost faults = { λ _. 0 };

    ghost calls = { λ sink. sink.calls };

    /// Takes the whole piece.
    fn write(&mut self, piece: &[u8]) -> Result<usize, SinkError>
        // As at every sink.
        ensures bytes { Takes (Some self.old.taken) (Some self.new.taken) result piece.now }
        ensures faults { CountedExactlyIf (result ≡ Err SinkError.Failed) 0 0 }
        ensures call { Counted self.old.calls self.new.calls }

        ensures whole { IfOk result (λ n. n ≡ length piece.now) }
    {
        self.calls = self.calls.saturating_add(1);
        self.taken.extend_from_slice(piece)?;
        Ok(piece.len())
    }
}

/// A sink in memory that fails at the calls listed, numbered from 1, and for want of memory.
#[derive(Drop)]
pub struct MemSink {
    taken: Vec<u8>,
    at_most: usize,
    fail_at: Vec<u64>,
    faults: u64,
    calls: u64,
}

impl Model for MemSink {
    ghost use Rattle.std.specs.Prelude.{◌<◌};
    ghost use Rattle.devices.specs.Memory.{MemSinkState};

    ghost Value = { MemSinkState };

    ghost view = { λ sink. record {
      taken = sink.taken.items;
      at_most = sink.at_most;
      fail_at = sink.fail_at.items;
      faults = sink.faults;
      calls = sink.calls;
    } };

    ghost invariant = { λ sink. 0 < sink.at_most };
}

impl MemSink {
    /// A sink that takes the whole of each piece.
    pub fn new(alloc: Global, fail_at: Vec<u64>) -> Self
        ensures { result ≡ record {
          taken = [];
          at_most = usize.MAX;
          fail_at = fail_at.items;
          faults = 0;
          calls = 0;
        } }
    {
        MemSink::taking_at_most(alloc, usize::MAX, fail_at)
    }

    /// A sink that takes at most so many bytes a call.
    pub fn taking_at_most(alloc: Global, at_most: usize, fail_at: Vec<u64>) -> Self
        requires { 0 < at_most }
        ensures { result ≡ record {
          taken = [];
          at_most = at_most;
          fail_at = fail_at.items;
          faults = 0;
          calls = 0;
        } }
    {
        MemSink {
            taken: Vec::new(alloc),
            at_most,
            fail_at,
            faults: 0,
            calls: 0,
        }
    }

    /// The bytes that it has taken.
    pub fn taken(&self) -> &[u8]
        ensures { result.now ≡ self.now.taken }
    {
        &self.taken
    }
}

impl Sink for MemSink {
    ghost taken = { λ sink. Some sink.taken };

    ghost faults = { λ sink. sink.faults };

    ghost calls = { λ sink. sink.calls };

    /// Fails exactly where the call is listed, and else takes as much as it may.
    fn write(&mut self, piece: &[u8]) -> Result<usize, SinkError>
        // As at every sink.
        ensures bytes { Takes (Some self.old.taken) (Some self.new.taken) result piece.now }
        ensures faults { CountedExactlyIf (result ≡ Err SinkError.Failed) self.old.faults self.new.faults }
        ensures call { Counted self.old.calls self.new.calls }

        // As the list and the bound say.
        ensures fails { (result ≡ Err SinkError.Failed)
            ↔ Contains self.old.fail_at (next_count self.old.calls) }
        ensures count { IfOk result (λ n. n ≡ min (length piece.now) self.old.at_most) }
        ensures ok { IfOk result (λ n. self.new ≡ record self.old {
          taken = self.old.taken ++ take n piece.now;
          calls = next_count self.old.calls;
        }) }
        ensures failed { result ≡ Err SinkError.Failed → self.new ≡ record self.old {
          faults = next_count self.old.faults;
          calls = next_count self.old.calls;
        } }
        ensures no_memory { result ≡ Err SinkError.NoMemory → self.new ≡ record self.old {
          calls = next_count self.old.calls;
        } }
    {
        self.calls = self.calls.saturating_add(1);
        if self.fail_at.contains(&self.calls) {
            self.faults = self.faults.saturating_add(1);
            return Err(SinkError::Failed);
        }
        let count = piece.len().min(self.at_most);
        self.taken.extend_from_slice(&piece[..count])?;
        Ok(count)
    }
}
