//! Why a module is not lowered.
use thiserror::Error;

/// Why a module is not lowered. A place is that of the item.
#[derive(Clone, Copy, Debug, PartialEq, Eq, Error)]
pub enum LowerError {
    /// A second `export =` stands in the module.
    #[error("a second `export =` at {at}")]
    ExportAssignTwice { at: u32 },
    /// `import a = require("m")` stands in a module of ECMAScript.
    #[error("`import a = require(..)` at {at} in a module of ECMAScript")]
    ImportAssign { at: u32 },
    /// `export =` stands in a module of ECMAScript.
    #[error("`export =` at {at} in a module of ECMAScript")]
    ExportAssign { at: u32 },
    #[error("out of memory")]
    NoMemory,
}
