//! Why a pass that draws contexts stopped.
ghost use Rattle.std.specs.Prelude.{◌≡◌};
ghost use Rattle.ecma_kind.specs.declared.error.PassError.TheVariants as pass_error;

use ecma_number::NoMemory;
use std::alloc::{AllocError, AllocFailed};
use thiserror::Error;

/// A session has given all its marks: it comes exactly where none is left.
#[derive(Clone, Copy, Debug, PartialEq, Eq, Error)]
#[error("no context is left in the session")]
pub struct Spent;

/// Why a pass that draws contexts stopped.
#[derive(Clone, Copy, Debug, PartialEq, Eq, Error)]
pub enum PassError {
    /// The session has given all its marks.
    #[error("no context is left in the session")]
    Spent,
    #[error("out of memory")]
    NoMemory,
}

impl From<Spent> for PassError {
    ghost from_gives = { λ _ error. error ≡ pass_error.Spent };

    fn from(_: Spent) -> PassError {
        PassError::Spent
    }
}

impl From<NoMemory> for PassError {
    ghost from_gives = { λ _ error. error ≡ pass_error.NoMemory };

    fn from(_: NoMemory) -> PassError {
        PassError::NoMemory
    }
}

impl From<AllocError> for PassError {
    ghost from_gives = { λ _ error. error ≡ pass_error.NoMemory };

    fn from(_: AllocError) -> PassError {
        PassError::NoMemory
    }
}

impl<T: Drop> From<AllocFailed<T>> for PassError {
    ghost from_gives = { λ _ error. error ≡ pass_error.NoMemory };

    fn from(_: AllocFailed<T>) -> PassError {
        PassError::NoMemory
    }
}
