//! Where something stands in a text.

/// Where something stands in a text: from the place of its first byte to the place after its last.
/// Places are byte offsets from 0.
#[derive(Clone, Copy, Debug, PartialEq, Eq, Hash)]
pub struct Span {
    pub lo: u32,
    pub hi: u32,
}

/// The span of what stands in no text: of a node that a pass made, of a missing child and of a list.
pub const DUMMY_SP: Span = Span { lo: 0, hi: 0 };
