//! What hygiene decides: an id and the text that it gets.
use ecma_tree::{Id, JsWord};

/// An id and the text that it gets.
#[derive(Debug, Drop)]
pub struct Named {
    pub id: Id,
    pub text: JsWord,
}
