//! Directives, and statements that stand in front of a list.
ghost use Rattle.std.specs.Prelude.{◌≡◌, Option, Some, false};
ghost use Rattle.std.specs.Option.{option_copied, option_map_or};
ghost use Rattle.ecma_kind.specs.declared.kind.Kind.{Kind};
ghost use Rattle.ecma_tree.specs.declared.node.Node.{Node};
ghost use Rattle.ecma_utils.specs.Directives.{begins_use, first_of, is_special_call, is_special_call_stmt, is_strict, is_strict_stmt, is_super_or_import, is_text, is_text_stmt, is_use_stmt, kind_of, raw_passes, stands_in_front, stmt_expr};
ghost use Rattle.ecma_utils.specs.Statements.{is_statement, some_if};

use crate::stmt_like::{Statement, StmtLike};
use ecma_tree::{Expr, Kind, Node, Stmt};
use short_texts::is_same;

/// The expression of an expression statement.
fn stmt_expr(stmt: &Stmt) -> Option<&Expr>
    ensures { option_copied result ≡ stmt_expr stmt.now }
{
    match &stmt.kind {
        Kind::ExprStmt => stmt.children.get(0),
        _ => None,
    }
}

fn is_text(kind: &Kind) -> bool
    ensures { result ≡ is_text kind.now }
{
    matches!(kind, Kind::Str { .. })
}

fn begins_use(raw: &str) -> bool
    ensures { result ≡ begins_use raw.now }
{
    let bytes = raw.as_bytes();
    bytes.starts_with(b"\"use ") || bytes.starts_with(b"'use ")
}

fn is_strict(raw: &str) -> bool
    ensures { result ≡ is_strict raw.now }
{
    is_same(raw, "\"use strict\"") || is_same(raw, "'use strict'")
}

fn has_use(kind: &Kind) -> bool
    ensures { result ≡ raw_passes begins_use kind.now }
{
    match kind {
        Kind::Str { raw: Some(raw), .. } => begins_use(raw.as_str()),
        _ => false,
    }
}

fn has_strict(kind: &Kind) -> bool
    ensures { result ≡ raw_passes is_strict kind.now }
{
    match kind {
        Kind::Str { raw: Some(raw), .. } => is_strict(raw.as_str()),
        _ => false,
    }
}

/// Whether a statement is a text literal, as a directive is: `"use strict";`. It takes no memory.
pub fn is_maybe_branch_directive(stmt: &Stmt) -> bool
    ensures { result ≡ is_text_stmt stmt.now }
{
    match stmt_expr(stmt) {
        Some(e) => is_text(&e.kind),
        None => false,
    }
}

/// Whether a statement is a text literal whose source text begins with `use` and a space.
fn is_use_stmt(stmt: &Stmt) -> bool
    ensures { result ≡ is_use_stmt stmt.now }
{
    match stmt_expr(stmt) {
        Some(e) => has_use(&e.kind),
        None => false,
    }
}

/// Whether a statement is a text literal whose source text is `use strict`.
fn is_strict_stmt(stmt: &Stmt) -> bool
    ensures { result ≡ is_strict_stmt stmt.now }
{
    match stmt_expr(stmt) {
        Some(e) => has_strict(&e.kind),
        None => false,
    }
}

fn is_super_or_import(kind: &Kind) -> bool
    ensures { result ≡ is_super_or_import kind.now }
{
    matches!(kind, Kind::Super | Kind::Import)
}

fn is_special_call(e: &Expr) -> bool
    ensures { result ≡ is_special_call e.now }
{
    match &e.kind {
        Kind::CallExpr => match e.children.get(0) {
            Some(callee) => is_super_or_import(&callee.kind),
            None => false,
        },
        _ => false,
    }
}

/// Whether a statement calls `super` or `import`.
fn is_special_call_stmt(stmt: &Stmt) -> bool
    ensures { result ≡ is_special_call_stmt stmt.now }
{
    match stmt_expr(stmt) {
        Some(e) => is_special_call(e),
        None => false,
    }
}

/// Whether a statement is a text literal or, where calls are passed over too, a call of `super` or `import`.
pub(crate) fn stands_in_front(calls: bool, stmt: &Stmt) -> bool
    ensures { result ≡ stands_in_front calls stmt.now }
{
    is_maybe_branch_directive(stmt) || (calls && is_special_call_stmt(stmt))
}

/// What may be a directive (ECMAScript, 11.2.1). None of the calls takes memory.
pub trait IsDirective {
    /// The statement that a value is, if it is one.
    ghost statement: { Self → Option Node };

    /// The statement that the value is, if it is one.
    fn as_ref(&self) -> Option<&Stmt>
        ensures { option_copied result ≡ statement self.now };

    /// Whether it is a text literal whose source text begins with `use` and a space behind its quote.
    final fn is_directive(&self) -> bool
        ensures { result ≡ option_map_or is_use_stmt (statement self.now) false }
    {
        match self.as_ref() {
            Some(stmt) => is_use_stmt(stmt),
            None => false,
        }
    }

    /// Whether directives may go on behind it: whether it is a text literal.
    final fn directive_continue(&self) -> bool
        ensures { result ≡ option_map_or is_text_stmt (statement self.now) false }
    {
        match self.as_ref() {
            Some(stmt) => is_maybe_branch_directive(stmt),
            None => false,
        }
    }

    /// Whether its source text is `"use strict"` or `'use strict'`.
    final fn is_use_strict(&self) -> bool
        ensures { result ≡ option_map_or is_strict_stmt (statement self.now) false }
    {
        match self.as_ref() {
            Some(stmt) => is_strict_stmt(stmt),
            None => false,
        }
    }
}

impl IsDirective for Statement {
    ghost statement = { λ statement. Some statement.node };

    fn as_ref(&self) -> Option<&Stmt> {
        Some(&self.node)
    }
}

impl IsDirective for Node {
    ghost statement = { λ node. some_if (is_statement node) node };

    fn as_ref(&self) -> Option<&Stmt> {
        self.as_stmt()
    }
}
