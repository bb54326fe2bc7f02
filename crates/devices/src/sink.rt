//! Where bytes go: the trait of sinks, and why a sink took nothing.
ghost use Rattle.std.specs.Prelude.{◌≡◌, ℕ, List, Option};
ghost use Rattle.devices.specs.Counts.{Counted, CountedExactlyIf};
ghost use Rattle.devices.specs.Sink.{Takes};
ghost use Rattle.devices.specs.declared.sink.SinkError.TheVariants.{NoMemory};

use std::alloc::AllocError;
use thiserror::Error;

/// Why a sink took nothing.
#[derive(Clone, Copy, Debug, PartialEq, Eq, Error)]
pub enum SinkError {
    /// The sink failed, and counted it.
    #[error("the sink failed")]
    Failed,
    /// There was no memory for what the sink was to take.
    #[error("out of memory")]
    NoMemory,
}

impl From<AllocError> for SinkError {
    ghost from_gives = { λ _ error. error ≡ NoMemory };

    fn from(_: AllocError) -> Self {
        SinkError::NoMemory
    }
}

/// Where bytes go.
pub trait Sink {
    /// The bytes taken, where the sink tells them.
    ghost taken: { Self → Option (List ℕ) };

    /// How often it has answered that it failed. The count stands still at 2^64 - 1.
    ghost faults: { Self → ℕ };

    /// How often it was called. The count stands still at 2^64 - 1.
    ghost calls: { Self → ℕ };

    /// Takes the front of a piece, and returns how many bytes: at least one unless the piece is empty.
    /// After an error, what was taken is as before.
    fn write(&mut self, piece: &[u8]) -> Result<usize, SinkError>
        ensures bytes { Takes (taken self.old) (taken self.new) result piece.now }
        ensures faults { CountedExactlyIf (result ≡ Err SinkError.Failed) (faults self.old) (faults self.new) }
        ensures call { Counted (calls self.old) (calls self.new) };
}
