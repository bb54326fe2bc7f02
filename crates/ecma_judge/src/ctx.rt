//! What is judged against.
use ecma_tree::SyntaxContext;

/// What is known of names.
#[derive(Clone, Copy, Debug)]
pub struct ExprCtx {
    /// The context of the names that no scope declares: those of the global object.
    pub unresolved_ctxt: SyntaxContext,
    /// Whether such a name may be read wherever it stands, as behind `typeof`.
    pub is_unresolved_ref_safe: bool,
}
