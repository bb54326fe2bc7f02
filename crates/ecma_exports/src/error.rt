//! What is wrong with the exports of a module.
ghost use Rattle.std.specs.Prelude.{◌≡◌};
ghost use Rattle.ecma_exports.specs.declared.error.ExportError.TheVariants as export_error;

use ecma_tree::JsWord;
use std::alloc::AllocError;
use thiserror::Error;

/// What is wrong with the exports of a module.
#[derive(Debug, Drop, Error)]
pub enum ExportError {
    /// A name is exported in braces, and no scope declares it as a value that stays (ECMAScript, 16.2.3.1).
    #[error("{name:?} is exported and not declared")]
    Unbound { name: JsWord },
    /// A name is declared behind `export`, and an identifier of its text in the output names nothing that the module declares: so it would have to change its text,
    /// which other modules know.
    #[error("{name:?} is exported and would be named by what is not declared")]
    Captured { name: JsWord },
    #[error("out of memory")]
    NoMemory,
}

impl From<ecma_tree::NoMemory> for ExportError {
    ghost from_gives = { λ _ error. error ≡ export_error.NoMemory };

    fn from(_: ecma_tree::NoMemory) -> ExportError {
        ExportError::NoMemory
    }
}

impl From<AllocError> for ExportError {
    ghost from_gives = { λ _ error. error ≡ export_error.NoMemory };

    fn from(_: AllocError) -> ExportError {
        ExportError::NoMemory
    }
}
