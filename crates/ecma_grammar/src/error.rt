//! Why a text is not a module by the grammar.

/// Why a text was not read by the grammar.
#[derive(Clone, Copy, Debug, PartialEq, Eq)]
pub enum RawError {
    /// A use above the deepest level begins at this place.
    TooDeep { at: u32 },
    /// The grammar reads no module there: the place is the greatest one at which a terminal failed.
    Syntax { at: u32 },
    NoMemory,
}
