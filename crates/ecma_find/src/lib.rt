//! Finders: what is found in a part of a tree, by walks that say what they list and what they do not enter.
#![tactic(auto)]

mod bindings;
mod decls;
mod finder;
mod names;
mod search;
mod statements;
mod stmt_ext;
mod vars;
mod visitors;

pub use bindings::for_each_binding_ident;
pub use decls::{collect_decls, collect_decls_with_ctxt};
pub use names::{extract_var_ids, find_pat_ids};
pub use search::{
    contains_arguments, contains_ident_ref, contains_this_expr, contains_top_level_await,
    has_rest_pat,
};
pub use stmt_ext::StmtExt;
pub use visitors::{
    ArgumentsFinder, BindingCollector, BindingIdentifierVisitor, DestructuringFinder, Hoister,
    IdentRefFinder, IdentUsageFinder, RestPatVisitor, ThisVisitor, TopLevelAwait, VarCollector,
};
