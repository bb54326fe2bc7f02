//! Utilities over trees: what is written of expressions and functions, names of properties, statements in lists, texts that are names, and
//! expressions as keys of maps.
#![tactic(auto)]

mod alias;
mod constructors;
mod directives;
mod empties;
mod expr_factory;
mod exprs_of;
mod function_factory;
mod grow;
mod indirect;
mod macros;
mod names;
mod node_ignoring_span;
mod prepend;
mod prop_names;
mod quotes;
mod stmt_like;

pub use alias::{alias_ident_for, alias_ident_for_simple_assign_tatget, alias_if_required};
pub use constructors::{default_constructor, opt_chain_test};
pub use directives::{IsDirective, is_maybe_branch_directive};
pub use ecma_idents::{IdentLike, id, ids_come_back};
pub use ecma_renamers::{
    DropSpan, IdentRenamer, IdentReplacer, Remapper, drop_span, replace_ident,
};
pub use ecma_tree::DUMMY_SP;
pub use empties::IsEmpty;
pub use expr_factory::ExprFactory;
pub use exprs_of::{
    expr_of_call, expr_of_class, expr_of_fn, expr_of_ident, expr_of_lit, expr_of_member,
};
pub use function_factory::FunctionFactory;
pub use grow::{maybe_grow, maybe_grow_default};
pub use indirect::{Callee, IntoIndirectCall};
pub use names::{is_rest_arguments, is_valid_ident, is_valid_prop_ident};
pub use node_ignoring_span::{
    NodeIgnoringSpan, equal_ones_are_equal_but_for_spans, equal_ones_hash_alike,
    spans_change_neither,
};
pub use prepend::{prepend_stmt, prepend_stmts};
pub use prop_names::{
    prop_name_eq, prop_name_to_expr, prop_name_to_expr_value, prop_name_to_member_prop,
};
pub use quotes::{
    fresh_ident, ident_of_text, key_of_text, literal_of_text, member_of_text, name_of_text,
    null_literal,
};
pub use stmt_like::{ModuleItemLike, Statement, StmtLike, StmtOrModuleItem};
