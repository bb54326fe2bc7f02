//! Why a part was not read, while the machine may still try something else.
ghost use Rattle.std.specs.Prelude.{◌≡◌};
ghost use Rattle.ecma_reader.specs.declared.failure.Failure.TheVariants as failure;

use ecma_tree::NoMemory;
use std::alloc::{AllocError, AllocFailed};

/// Why a production was not read.
#[derive(Clone, Copy, Debug, PartialEq, Eq)]
pub(crate) enum Failure {
    /// The text does not go on as the production asks.
    NoMatch,
    /// A use above the deepest level begins at this place.
    TooDeep(u32),
    NoMemory,
}

impl From<NoMemory> for Failure {
    ghost from_gives = { λ _ result. result ≡ failure.NoMemory };

    fn from(_: NoMemory) -> Failure {
        Failure::NoMemory
    }
}

impl From<AllocError> for Failure {
    ghost from_gives = { λ _ result. result ≡ failure.NoMemory };

    fn from(_: AllocError) -> Failure {
        Failure::NoMemory
    }
}

impl<T: Drop> From<AllocFailed<T>> for Failure {
    ghost from_gives = { λ _ result. result ≡ failure.NoMemory };

    fn from(_: AllocFailed<T>) -> Failure {
        Failure::NoMemory
    }
}
