//! What is wrong with the scopes of a module.
ghost use Rattle.std.specs.Prelude.{◌≡◌};
ghost use Rattle.ecma_scope.specs.declared.error.ScopeError.TheVariants as scope_error;

use ecma_tree::JsWord;
use std::alloc::AllocError;
use thiserror::Error;

/// What is wrong with the scopes of a module.
#[derive(Debug, Drop, Error)]
pub enum ScopeError {
    /// A name is declared again where it may not be.
    #[error("{name:?} is declared again")]
    Redeclared { name: JsWord },
    #[error("out of memory")]
    NoMemory,
}

impl From<ecma_tree::NoMemory> for ScopeError {
    ghost from_gives = { λ _ error. error ≡ scope_error.NoMemory };

    fn from(_: ecma_tree::NoMemory) -> ScopeError {
        ScopeError::NoMemory
    }
}

impl From<AllocError> for ScopeError {
    ghost from_gives = { λ _ error. error ≡ scope_error.NoMemory };

    fn from(_: AllocError) -> ScopeError {
        ScopeError::NoMemory
    }
}
