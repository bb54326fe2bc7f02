//! Names for variables that are to hold the value of an expression.
ghost use Rattle.std.specs.Prelude.{◌≡◌, ◌↔◌, Err, IfOk, IfNone, IfSome, IsNone, IsOk, None, OnOk, false, get_or, if◌then◌else◌, is_some, map, string_bytes, true};
ghost use Rattle.std.specs.Option.{option_map};
ghost use Rattle.ecma_kind.specs.Sessions.{drawn};
ghost use Rattle.ecma_kind.specs.declared.error.PassError.TheVariants as pass_error;
ghost use Rattle.ecma_tree.specs.Idents.{ident_of};
ghost use Rattle.ecma_tree.specs.declared.node.Node.{out-Node};
ghost use Rattle.ecma_utils.specs.Aliases.{alias_ident, alias_symbol, alias_text, corrected, is_aliased_target, joined, target_alias_text, underscored};
ghost use Rattle.ecma_idents.specs.Identities.{plain_ident};

use crate::quotes::ident_of_text;
use ecma_tree::{
    Expr, Ident, Kind, NoMemory, Node, PassError, Session, SimpleAssignTarget, SyntaxContext,
    verify_symbol,
};
use std::alloc::Global;

/// The text of an object, `_`, and the text of a key.
fn joined(
    alloc: Global,
    object: Option<String>,
    key: Option<String>,
) -> Result<Option<String>, NoMemory>
    ensures { IfOk result (λ text. option_map string_bytes text
        ≡ joined (option_map string_bytes object) (option_map string_bytes key)) }
{
    let Some(key) = key else {
        return Ok(None);
    };
    let mut text = match object {
        Some(object) => object,
        None => String::new(alloc),
    };
    text.push_str("_")?;
    text.push_str(key.as_str())?;
    Ok(Some(text))
}

/// The alias text of the child at an index, if it is there and has one.
#[cycle(aliases)]
#[tactic(auto, using(crate::proofs::Aliasing::aliases))]
fn alias_at(alloc: Global, node: &Node, index: usize) -> Result<Option<String>, NoMemory>
    ensures { IfOk result (λ text. option_map string_bytes text
        ≡ get_or (map alias_text (out-Node node.now).children) index None) }
{
    match node.children.get(index) {
        Some(child) => alias_text(alloc, child),
        None => Ok(None),
    }
}

/// The alias text of a node, if it has one.
#[cycle(aliases)]
#[tactic(auto, using(crate::proofs::Aliasing::aliases), unfolding(crate::specs::Aliases::alias_by))]
fn alias_text(alloc: Global, node: &Node) -> Result<Option<String>, NoMemory>
    ensures { IfOk result (λ text. option_map string_bytes text ≡ alias_text node.now) }
{
    match &node.kind {
        Kind::Ident { sym, .. } => Ok(Some(String::from_str(alloc, sym.as_str())?)),
        Kind::IdentName { sym } => Ok(Some(String::from_str(alloc, sym.as_str())?)),
        Kind::Str { value, .. } => Ok(Some(String::from_str(alloc, value.as_str())?)),
        Kind::ThisExpr => Ok(Some(String::from_str(alloc, "this")?)),
        Kind::FnExpr => alias_at(alloc, node, 0),
        Kind::ClassExpr => alias_at(alloc, node, 0),
        Kind::CallExpr => alias_at(alloc, node, 0),
        Kind::OptCall => alias_at(alloc, node, 0),
        Kind::OptChainExpr { .. } => alias_at(alloc, node, 0),
        Kind::ComputedPropName => match alias_at(alloc, node, 0)? {
            Some(text) => Ok(Some(text)),
            None => Ok(Some(String::new(alloc))),
        },
        Kind::MemberExpr => {
            let object = alias_at(alloc, node, 0)?;
            let key = alias_at(alloc, node, 1)?;
            joined(alloc, object, key)
        }
        Kind::SuperPropExpr => {
            let object = Some(String::from_str(alloc, "super")?);
            let key = alias_at(alloc, node, 1)?;
            joined(alloc, object, key)
        }
        _ => Ok(None),
    }
}

fn is_aliased_target(kind: &Kind) -> bool
    ensures { result ≡ is_aliased_target kind.now }
{
    matches!(
        kind,
        Kind::Ident { .. } | Kind::MemberExpr | Kind::SuperPropExpr
    )
}

fn target_alias_text(alloc: Global, target: &Node) -> Result<Option<String>, NoMemory>
    ensures { IfOk result (λ text. option_map string_bytes text ≡ target_alias_text target.now) }
{
    if is_aliased_target(&target.kind) {
        return alias_text(alloc, target);
    }
    Ok(None)
}

/// A text that is a name, or the name that is offered in its place.
#[tactic(auto, using(crate::proofs::Aliasing::correcting))]
fn corrected(alloc: Global, text: &str) -> Result<String, NoMemory>
    ensures { IfOk result (λ name. string_bytes name ≡ corrected text.now) }
{
    match verify_symbol(alloc, text)? {
        Ok(()) => Ok(String::from_str(alloc, text)?),
        Err(symbol) => Ok(String::from_str(alloc, symbol.as_str())?),
    }
}

/// A name with `_` in front, unless it has one.
#[tactic(auto, using(crate::proofs::Aliasing::underscoring))]
fn underscored(alloc: Global, name: String) -> Result<String, NoMemory>
    ensures { IfOk result (λ symbol. string_bytes symbol ≡ underscored (string_bytes name)) }
{
    let first = name.as_bytes().first().copied();
    if first == Some(b'_') {
        return Ok(name);
    }
    let mut symbol = String::from_str(alloc, "_")?;
    symbol.push_str(name.as_str())?;
    Ok(symbol)
}

fn alias_symbol(alloc: Global, alias: Option<String>, default: &str) -> Result<String, NoMemory>
    ensures { IfOk result (λ symbol. string_bytes symbol
        ≡ alias_symbol (option_map string_bytes alias) default.now) }
{
    let name = match alias {
        Some(text) => corrected(alloc, text.as_str())?,
        None => corrected(alloc, default)?,
    };
    underscored(alloc, name)
}

fn alias_ident(
    alloc: Global,
    session: &mut Session,
    node: &Node,
    alias: Result<Option<String>, NoMemory>,
    default: &str,
) -> Result<Ident, PassError>
    ensures ident { IfOk result (λ ident. IfOk alias (λ text.
        ident ≡ alias_ident session.old.left node.now (option_map string_bytes text) default.now)) }
    ensures alias { OnOk result (IsOk alias) }
    ensures spent { (result ≡ Err pass_error.Spent) ↔ (session.old.left ≡ 0) }
    ensures session { session.new ≡ drawn session.old }
{
    let mark = session.fresh_mark()?;
    let ctxt = SyntaxContext::empty().apply_mark(mark);
    let symbol = alias_symbol(alloc, alias?, default)?;
    Ok(ident_of_text(alloc, ctxt, node.span, symbol.as_str())?)
}

/// A name for a variable that is to hold the value of an expression: its alias text or else the default, made a name,
/// with `_` in front, in the context of a mark that the session gives. The alias text is that of a name, of a named
/// function or class, of `this`, of a text; of a call that of what is called; of a member that of the object, `_` and
/// that of the key. `Spent` comes exactly where the session has no mark left; the only other refusal is want of memory.
pub fn alias_ident_for(
    alloc: Global,
    session: &mut Session,
    expr: &Expr,
    default: &str,
) -> Result<Ident, PassError>
    ensures ident { IfOk result
        (λ ident. ident ≡ alias_ident session.old.left expr.now (alias_text expr.now) default.now) }
    ensures spent { (result ≡ Err pass_error.Spent) ↔ (session.old.left ≡ 0) }
    ensures session { session.new ≡ drawn session.old }
{
    alias_ident(alloc, session, expr, alias_text(alloc, expr), default)
}

/// The same of a target that is no pattern, which has an alias text where it is a name, a member or a member of `super`.
pub fn alias_ident_for_simple_assign_tatget(
    alloc: Global,
    session: &mut Session,
    target: &SimpleAssignTarget,
    default: &str,
) -> Result<Ident, PassError>
    ensures ident { IfOk result
        (λ ident. ident ≡ alias_ident session.old.left target.now
        (target_alias_text target.now) default.now) }
    ensures spent { (result ≡ Err pass_error.Spent) ↔ (session.old.left ≡ 0) }
    ensures session { session.new ≡ drawn session.old }
{
    alias_ident(
        alloc,
        session,
        target,
        target_alias_text(alloc, target),
        default,
    )
}

/// A name itself with `false`, without the `?` behind it; and for all else the name of a variable as
/// [`alias_ident_for`] gives it, with `true`.
pub fn alias_if_required(
    alloc: Global,
    session: &mut Session,
    expr: &Expr,
    default: &str,
) -> Result<(Ident, bool), PassError>
    ensures name { IfOk result
        (λ answer. IfSome (ident_of expr.now) (λ ident. answer ≡ (plain_ident ident, false))) }
    ensures other { IfOk result (λ answer. IfNone (ident_of expr.now)
        (answer ≡ (alias_ident session.old.left expr.now (alias_text expr.now) default.now, true))) }
    ensures spent { (result ≡ Err pass_error.Spent)
        ↔ (IsNone (ident_of expr.now) × (session.old.left ≡ 0)) }
    ensures session { session.new
        ≡ (if is_some (ident_of expr.now) then session.old else drawn session.old) }
{
    if let Kind::Ident { sym, ctxt, .. } = &expr.kind {
        let ident = Ident {
            span: expr.span,
            ctxt: *ctxt,
            sym: sym.clone()?,
            optional: false,
        };
        return Ok((ident, false));
    }
    Ok((alias_ident_for(alloc, session, expr, default)?, true))
}
