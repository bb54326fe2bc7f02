//! Why a program is not written as ECMAScript.
ghost use Rattle.std.specs.Prelude.{◌≡◌};
ghost use Rattle.ecma_lower_strip.specs.declared.error.TypeScriptError.TheVariants as error;

use ecma_lower::LowerError;
use ecma_scope::ScopeError;
use ecma_tree::{NoMemory, PassError};
use thiserror::Error;

/// Why a program is not written as ECMAScript. The first that holds is answered.
#[derive(Debug, Drop, Error)]
pub enum TypeScriptError {
    /// An assignment is not lowered.
    #[error("{0}")]
    Lower(LowerError),
    /// A name is declared again where it may not be.
    #[error("{0}")]
    Scope(ScopeError),
    /// The session has fewer contexts left than are drawn.
    #[error("no context is left in the session")]
    Spent,
    /// There was no memory. This alone has no cause in the program.
    #[error("out of memory")]
    NoMemory,
}

impl From<NoMemory> for TypeScriptError {
    ghost from_gives = { λ _ result. result ≡ error.NoMemory };

    fn from(_: NoMemory) -> TypeScriptError {
        TypeScriptError::NoMemory
    }
}

impl From<PassError> for TypeScriptError {
    ghost use Rattle.ecma_lower_strip.specs.Refusals.{refusal_of_pass};

    ghost from_gives = { λ reason result. result ≡ refusal_of_pass reason };

    fn from(reason: PassError) -> TypeScriptError {
        match reason {
            PassError::Spent => TypeScriptError::Spent,
            PassError::NoMemory => TypeScriptError::NoMemory,
        }
    }
}

impl From<LowerError> for TypeScriptError {
    ghost use Rattle.ecma_lower_strip.specs.Refusals.{refusal_of_lowering};

    ghost from_gives = { λ reason result. result ≡ refusal_of_lowering reason };

    fn from(reason: LowerError) -> TypeScriptError {
        match reason {
            LowerError::NoMemory => TypeScriptError::NoMemory,
            reason => TypeScriptError::Lower(reason),
        }
    }
}

impl From<ScopeError> for TypeScriptError {
    ghost use Rattle.ecma_lower_strip.specs.Refusals.{refusal_of_scopes};

    ghost from_gives = { λ reason result. result ≡ refusal_of_scopes reason };

    fn from(reason: ScopeError) -> TypeScriptError {
        match reason {
            ScopeError::NoMemory => TypeScriptError::NoMemory,
            reason => TypeScriptError::Scope(reason),
        }
    }
}
