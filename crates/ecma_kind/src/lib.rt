//! What a node of the syntax tree is: its kind with the data that is no node, and what that data is made of.
#![tactic(auto)]

mod context;
mod copies;
mod error;
mod ident;
mod kind;
mod operators;
mod sameness;
mod session;
mod shapes;
mod sorts;
mod span;
mod word;

pub use context::{Mark, SyntaxContext};
pub use copies::copy_kind;
pub use ecma_number::NoMemory;
pub use error::{PassError, Spent};
pub use ident::{Id, Ident, same_id, same_ident};
pub use kind::Kind;
pub use operators::{
    Accessibility, AssignOp, BinaryOp, MemberModifiers, MetaPropKind, MethodKind, UnaryOp,
    UpdateOp, VarDeclKind,
};
pub use sameness::same_kind;
pub use session::Session;
pub use shapes::{Count, Field, FieldShape, Shape, Sort, field_index, field_shapes};
pub use sorts::belongs;
pub use span::{DUMMY_SP, Span};
pub use word::JsWord;
