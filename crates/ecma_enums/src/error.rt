//! Why the members of an enum are not known.
ghost use Rattle.std.specs.Prelude.{◌≡◌};
ghost use Rattle.ecma_enums.specs.declared.error.EnumError.TheVariants as enum_error;

use ecma_tree::NoMemory;
use std::alloc::AllocError;
use thiserror::Error;

/// Why the members of an enum are not known.
#[derive(Clone, Copy, Debug, PartialEq, Eq, Error)]
pub enum EnumError {
    /// A number is none that this project computes with: a whole number beyond 2^53 - 1, or no whole number. `at` is the offset of the numeral, or
    /// of the expression whose result it is, or of the member that takes it for lack of an initialiser.
    #[error("a number of an enum at {at} is beyond the numbers that are computed")]
    EnumNumber { at: u32 },
    #[error("out of memory")]
    NoMemory,
}

impl From<NoMemory> for EnumError {
    ghost from_gives = { λ _ error. error ≡ enum_error.NoMemory };

    fn from(_: NoMemory) -> EnumError {
        EnumError::NoMemory
    }
}

impl From<AllocError> for EnumError {
    ghost from_gives = { λ _ error. error ≡ enum_error.NoMemory };

    fn from(_: AllocError) -> EnumError {
        EnumError::NoMemory
    }
}
