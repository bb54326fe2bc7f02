//! The syntax tree of ECMAScript and TypeScript.
//!
//! There is one recursive type, [`Node`]: a place in the text, a [`Kind`] with the node's own data,
//! and the children in the order that the kind fixes. docs/TREE.md is the table of the kinds.
#![tactic(auto)]

mod build;
mod children;
mod collect;
mod copies;
mod equal;
mod find;
mod ident;
mod laws;
mod node;
mod node_ref;
mod sorted;
mod spans;
mod symbol;
mod values;

pub use collect::symbols;
pub use copies::{
    copy_class, copy_expr, copy_function, copy_item, copy_module, copy_node, copy_pat, copy_stmt,
};
pub use ecma_kind::{
    Accessibility, AssignOp, BinaryOp, Count, DUMMY_SP, Field, FieldShape, Id, Ident, JsWord, Kind,
    Mark, MemberModifiers, MetaPropKind, MethodKind, NoMemory, PassError, Session, Shape, Sort,
    Span, Spent, SyntaxContext, UnaryOp, UpdateOp, VarDeclKind, belongs, field_index, field_shapes,
    same_id, same_ident,
};
pub use ecma_lex::{is_valid_continue, is_valid_start};
pub use equal::same_but_for_spans;
pub use find::mentions;
pub use laws::{
    changes_keep_sorts, children_have_their_shape, nodes_have_their_shape_by_their_children,
};
pub use node::{
    AssignTargetPat, Class, Expr, Function, Lit, Module, ModuleDecl, ModuleItem, Node, Nodes, Pat,
    Program, Prop, Script, SimpleAssignTarget, Stmt,
};
pub use node_ref::{NodeRef, eq_ignore_span};
pub use sorted::{has_shape, has_sort};
pub use spans::drop_spans;
pub use symbol::verify_symbol;
pub use values::{is_value, is_value_at, is_value_where};
