//! What is asked of declarations that merge.

/// What is asked of declarations that merge.
#[derive(Clone, Copy, Debug)]
pub(crate) enum Asked {
    /// Whether some have `export`, and others none.
    Mixed,
    /// Whether a member is given twice.
    Twice,
}
