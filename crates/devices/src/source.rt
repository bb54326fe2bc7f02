//! Where bytes come from: the trait of sources, and their failure.
ghost use Rattle.std.specs.Prelude.{◌<◌, ℕ, List, Option, IsErr, length};
ghost use Rattle.devices.specs.Counts.{Counted, CountedExactlyIf};
ghost use Rattle.devices.specs.Source.{Reads};

use thiserror::Error;

/// A source failed, and counted it.
#[derive(Clone, Copy, Debug, PartialEq, Eq, Error)]
#[error("the source failed")]
pub struct Failed;

/// Where bytes come from.
pub trait Source {
    /// The bytes left, where the source tells them.
    ghost left: { Self → Option (List ℕ) };

    /// How often it has answered that it failed. The count stands still at 2^64 - 1.
    ghost faults: { Self → ℕ };

    /// How often it was called. The count stands still at 2^64 - 1.
    ghost calls: { Self → ℕ };

    /// Fills the front of a buffer that is not empty with the next bytes, and returns how many: 0 at the
    /// end of the input. After `Failed`, what is left is as before.
    fn read(&mut self, buffer: &mut [u8]) -> Result<usize, Failed>
        requires { 0 < length buffer.old }
        ensures bytes { Reads (left self.old) (left self.new) result buffer.new }
        ensures faults { CountedExactlyIf (IsErr result) (faults self.old) (faults self.new) }
        ensures call { Counted (calls self.old) (calls self.new) };
}
