//! Why a text is not a module.

use thiserror::Error;

/// Why a text was not read as a module.
#[derive(Clone, Copy, Debug, PartialEq, Eq, Error)]
pub enum ReadError {
    /// A use above the deepest level begins at this place. It comes exactly where the reading meets one.
    #[error("too deep at {at}")]
    TooDeep { at: u32 },
    /// The grammar reads no module there, and the place is the greatest one at which a terminal failed; or a context rule is broken, and
    /// the place is the least one at which a node begins that breaks one.
    #[error("syntax error at {at}")]
    Syntax { at: u32 },
    #[error("out of memory")]
    NoMemory,
}
