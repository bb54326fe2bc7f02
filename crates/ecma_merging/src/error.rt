//! What is wrong with declarations that merge.
ghost use Rattle.std.specs.Prelude.{◌≡◌};
ghost use Rattle.ecma_merging.specs.declared.error.MergeError.TheVariants as merge_error;

use ecma_tree::JsWord;
use std::alloc::AllocError;
use thiserror::Error;

/// What is wrong with declarations that merge.
#[derive(Debug, Drop, Error)]
pub enum MergeError {
    /// Of the declarations of a name that merge in one list some have `export`, and others none (TypeScript handbook, "Declaration Merging").
    #[error("{name:?} is exported in one place and not in another")]
    MixedExport { name: JsWord },
    /// A member of this name is given twice among enums that merge.
    #[error("{name:?} is a member twice")]
    Redeclared { name: JsWord },
    #[error("out of memory")]
    NoMemory,
}

impl From<ecma_tree::NoMemory> for MergeError {
    ghost from_gives = { λ _ error. error ≡ merge_error.NoMemory };

    fn from(_: ecma_tree::NoMemory) -> MergeError {
        MergeError::NoMemory
    }
}

impl From<AllocError> for MergeError {
    ghost from_gives = { λ _ error. error ≡ merge_error.NoMemory };

    fn from(_: AllocError) -> MergeError {
        MergeError::NoMemory
    }
}
