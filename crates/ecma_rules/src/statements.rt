//! Exported names, and bodies of statements.
ghost use Rattle.std.specs.Prelude.{◌≡◌};
ghost use Rattle.ecma_rules.specs.Statements.{is_body, is_declaration, is_declared_body, is_exported, is_lexical, is_quoted_local, is_text};

use crate::standing::Standing;
use ecma_tree::{Kind, Node, VarDeclKind};

fn is_text(kind: &Kind) -> bool
    ensures { result ≡ is_text kind.now }
{
    matches!(kind, Kind::Str { .. })
}

fn is_exported(standing: Standing) -> bool
    ensures { result ≡ is_exported standing }
{
    matches!(standing, Standing::Exported)
}

/// Whether a node is a quoted name for what an export without a source takes from its own module.
///
///     export { "a" } from "m";
///     export { "a" };   // refused
pub(crate) fn is_quoted_local(standing: Standing, node: &Node) -> bool
    ensures { result ≡ is_quoted_local standing node.now }
{
    is_exported(standing) && is_text(&node.kind)
}

fn is_lexical(kind: VarDeclKind) -> bool
    ensures { result ≡ is_lexical kind }
{
    !matches!(kind, VarDeclKind::Var)
}

/// Whether a kind is that of a declaration other than a `var` without `declare`.
#[tactic(auto, unfolding(crate::specs::Statements::is_declaration))]
fn is_declaration(kind: &Kind) -> bool
    ensures { result ≡ is_declaration kind.now }
{
    match kind {
        Kind::FnDecl { .. } => true,
        Kind::ClassDecl { .. } => true,
        Kind::VarDecl { kind, declare } => *declare || is_lexical(*kind),
        Kind::TsInterfaceDecl { .. } => true,
        Kind::TsTypeAliasDecl { .. } => true,
        Kind::TsEnumDecl { .. } => true,
        Kind::TsModuleDecl { .. } => true,
        _ => false,
    }
}

fn is_body(standing: Standing) -> bool
    ensures { result ≡ is_body standing }
{
    matches!(standing, Standing::Body)
}

/// Whether a node is such a declaration as the body of an `if`, an `else`, a loop or a label.
///
///     if (a) { let b; } while (c) var d;
///     if (a) let b;   // refused
pub(crate) fn is_declared_body(standing: Standing, node: &Node) -> bool
    ensures { result ≡ is_declared_body standing node.now }
{
    is_body(standing) && is_declaration(&node.kind)
}
