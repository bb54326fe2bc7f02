//! Why a module was not converted.
ghost use Rattle.std.specs.Prelude.{◌≡◌};
ghost use Rattle.ts_to_js.specs.declared.error.TsError.TheVariants as error;

use ecma_exports::ExportError;
use ecma_lower::LowerError;
use ecma_scope::ScopeError;
use ecma_text::ReadError;
use ecma_tree::{JsWord, NoMemory};
use thiserror::Error;

/// Why a module was not converted. The first that holds is answered.
#[derive(Debug, Drop, PartialEq, Eq, Error)]
pub enum TsError {
    /// The source has more than 4,194,304 bytes.
    #[error("the source is too long")]
    TooLong,
    /// The source is no UTF-8 text.
    #[error("the source is not UTF-8")]
    NotUtf8,
    /// A use above the deepest level begins at this place.
    #[error("too deep at {at}")]
    TooDeep { at: u32 },
    /// The grammar reads no module there, and the place is the greatest one at which a terminal failed; or a node that begins there breaks a
    /// context rule, or is of a form that is not taken yet and does not go with the types, and the place is the least of such a node.
    #[error("syntax error at {at}")]
    Syntax { at: u32 },
    /// The session has fewer marks left than the module needs (`ecma_scope::needs`).
    #[error("too few contexts are left")]
    Spent,
    /// A second `export =` begins at this place (`ecma_lower::check_lowering`).
    #[error("a second `export =` at {at}")]
    ExportAssignTwice { at: u32 },
    /// `import a = require("m")` begins at this place, the first, in what is to be a module of ECMAScript (`ecma_lower::check_lowering`).
    #[error("`import a = require(..)` at {at} in a module of ECMAScript")]
    ImportAssign { at: u32 },
    /// `export =` begins at this place, the first, in what is to be a module of ECMAScript (`ecma_lower::check_lowering`).
    #[error("`export =` at {at} in a module of ECMAScript")]
    ExportAssign { at: u32 },
    /// This name is declared again where it may not be; it is the first such name in the text (`ecma_scope::check_scopes`).
    #[error("{name:?} is declared again")]
    Redeclared { name: JsWord },
    /// This name is exported in braces, and nothing that stays declares it; it is the first such name in the text (`ecma_exports::check_exports`).
    #[error("{name:?} is exported and not declared")]
    ExportUnbound { name: JsWord },
    /// This name is declared behind `export`, and would have to change its text; it is the first such name in the text (`ecma_exports::check_exports`).
    #[error("{name:?} is exported and would be captured")]
    Captured { name: JsWord },
    /// There was no memory. This alone has no cause in the source.
    #[error("out of memory")]
    NoMemory,
}

impl From<NoMemory> for TsError {
    ghost from_gives = { λ _ result. result ≡ error.NoMemory };

    fn from(_: NoMemory) -> TsError {
        TsError::NoMemory
    }
}

impl From<ReadError> for TsError {
    ghost use Rattle.ts_to_js.specs.Refusals.{refusal_of};

    ghost from_gives = { λ reason result. result ≡ refusal_of reason };

    fn from(reason: ReadError) -> TsError {
        match reason {
            ReadError::TooDeep { at } => TsError::TooDeep { at },
            ReadError::Syntax { at } => TsError::Syntax { at },
            ReadError::NoMemory => TsError::NoMemory,
        }
    }
}

impl From<LowerError> for TsError {
    ghost use Rattle.ts_to_js.specs.Refusals.{refusal_of_lowering};

    ghost from_gives = { λ reason result. result ≡ refusal_of_lowering reason };

    fn from(reason: LowerError) -> TsError {
        match reason {
            LowerError::ExportAssignTwice { at } => TsError::ExportAssignTwice { at },
            LowerError::ImportAssign { at } => TsError::ImportAssign { at },
            LowerError::ExportAssign { at } => TsError::ExportAssign { at },
            LowerError::NoMemory => TsError::NoMemory,
        }
    }
}

impl From<ScopeError> for TsError {
    ghost use Rattle.ts_to_js.specs.Refusals.{refusal_of_scopes};

    ghost from_gives = { λ reason result. result ≡ refusal_of_scopes reason };

    fn from(reason: ScopeError) -> TsError {
        match reason {
            ScopeError::Redeclared { name } => TsError::Redeclared { name },
            ScopeError::NoMemory => TsError::NoMemory,
        }
    }
}

impl From<ExportError> for TsError {
    ghost use Rattle.ts_to_js.specs.Refusals.{refusal_of_exports};

    ghost from_gives = { λ reason result. result ≡ refusal_of_exports reason };

    fn from(reason: ExportError) -> TsError {
        match reason {
            ExportError::Unbound { name } => TsError::ExportUnbound { name },
            ExportError::Captured { name } => TsError::Captured { name },
            ExportError::NoMemory => TsError::NoMemory,
        }
    }
}
