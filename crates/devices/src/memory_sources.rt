//! Sources in memory: one that never fails, and one that fails at the calls that it is told of.
ghost use Rattle.std.specs.Prelude.{◌≡◌, ◌≤◌, ◌<◌, ◌↔◌, ℕ, Some, IsErr, IsOk, IfOk, OnErr, Contains, length, min, drop};
ghost use Rattle.devices.specs.Counts.{Counted, CountedExactlyIf, next_count};
ghost use Rattle.devices.specs.Source.{Reads};

use crate::unread::Unread;
use crate::{Failed, Source};
use std::marker::Model;

/// A source of bytes in memory that never fails.
#[derive(Drop)]
pub struct SliceSource {
    unread: Unread,
    calls: u64,
}

impl Model for SliceSource {
    ghost use Rattle.devices.specs.Memory.{SliceSourceState};

    ghost Value = { SliceSourceState };

    ghost view = { λ source. record { left = source.unread; calls = source.calls } };
}

impl SliceSource {
    pub fn new(bytes: Vec<u8>) -> Self
        ensures { result ≡ record { left = bytes.items; calls = 0 } }
    {
        SliceSource {
            unread: Unread::new(bytes),
            calls: 0,
        }
    }
}

impl Source for SliceSource {
    ghost left = { λ source. Some source.left };

    ghost faults = { λ _. 0 };

    ghost calls = { λ source. source.calls };

    /// Hands out as much as fits.
    fn read(&mut self, buffer: &mut [u8]) -> Result<usize, Failed>
        // As at every source.
        requires { 0 < length buffer.old }
        ensures bytes { Reads (Some self.old.left) (Some self.new.left) result buffer.new }
        ensures faults { CountedExactlyIf (IsErr result) 0 0 }
        ensures call { Counted self.old.calls self.new.calls }

        ensures count { result ≡ Ok (min (length buffer.new) (length self.old.left)) }
    {
        self.calls = self.calls.saturating_add(1);
        Ok(self.unread.fill(buffer))
    }
}

/// A source of bytes in memory that fails at the calls listed, numbered from 1.
#[derive(Drop)]
pub struct MemSource {
    unread: Unread,
    fail_at: Vec<u64>,
    faults: u64,
    calls: u64,
}

impl Model for MemSource {
    ghost use Rattle.devices.specs.Memory.{MemSourceState};

    ghost Value = { MemSourceState };

    ghost view = { λ source. record {
      left = source.unread;
      fail_at = source.fail_at.items;
      faults = source.faults;
      calls = source.calls;
    } };
}

impl MemSource {
    pub fn new(bytes: Vec<u8>, fail_at: Vec<u64>) -> Self
        ensures { result ≡ record {
          left = bytes.items;
          fail_at = fail_at.items;
          faults = 0;
          calls = 0;
        } }
    {
        MemSource {
            unread: Unread::new(bytes),
            fail_at,
            faults: 0,
            calls: 0,
        }
    }
}

impl Source for MemSource {
    ghost left = { λ source. Some source.left };

    ghost faults = { λ source. source.faults };

    ghost calls = { λ source. source.calls };

    /// Fails exactly where the call is listed, and else hands out as much as fits.
    fn read(&mut self, buffer: &mut [u8]) -> Result<usize, Failed>
        // As at every source.
        requires { 0 < length buffer.old }
        ensures bytes { Reads (Some self.old.left) (Some self.new.left) result buffer.new }
        ensures faults { CountedExactlyIf (IsErr result) self.old.faults self.new.faults }
        ensures call { Counted self.old.calls self.new.calls }

        // As the list says.
        ensures fails { IsErr result ↔ Contains self.old.fail_at (next_count self.old.calls) }
        ensures count { IfOk result (λ n. n ≡ min (length buffer.new) (length self.old.left)) }
        ensures ok { IfOk result (λ n. self.new ≡ record self.old {
          left = drop n self.old.left;
          calls = next_count self.old.calls;
        }) }
        ensures err { OnErr result (self.new ≡ record self.old {
          faults = next_count self.old.faults;
          calls = next_count self.old.calls;
        }) }
    {
        self.calls = self.calls.saturating_add(1);
        if self.fail_at.contains(&self.calls) {
            self.faults = self.faults.saturating_add(1);
            return Err(Failed);
        }
        Ok(self.unread.fill(buffer))
    }
}
