//! Keys in brackets that are kept in variables.
ghost use Rattle.std.specs.Prelude.{◌≡◌, IfOk};
ghost use Rattle.std.specs.List.{list_any};
ghost use Rattle.ecma_strip.specs.Stripping.{stripped};
ghost use Rattle.ecma_properties.specs.Keys as table;
ghost use Rattle.ecma_properties.specs.Keys.{keeps_key, kept_key, unless_literal};

use crate::classes::{has_properties, is_moved};
use ecma_judge::is_literal;
use ecma_rules::items_at;
use ecma_strip::strip_type;
use ecma_tree::{Class, Expr, Kind, NoMemory, Node, NodeRef, copy_expr};
use std::alloc::Global;

/// An expression without its types.
fn without_types(alloc: Global, e: &Expr) -> Result<Expr, NoMemory>
    ensures { IfOk result (λ plain. plain ≡ stripped e.now) }
{
    let mut plain = copy_expr(alloc, e)?;
    strip_type().visit_mut_module(alloc, &mut plain)?;
    Ok(plain)
}

fn unless_literal(e: Expr) -> Option<Expr>
    ensures { result ≡ unless_literal e }
{
    if is_literal(NodeRef::Expr(&e)) {
        None
    } else {
        Some(e)
    }
}

/// The expression, without its types, of a key in brackets that is no literal.
pub fn kept_key(alloc: Global, key: &Node) -> Result<Option<Expr>, NoMemory>
    ensures { IfOk result (λ kept. kept ≡ kept_key key.now) }
{
    match &key.kind {
        Kind::ComputedPropName => match key.children.get(0) {
            Some(e) => Ok(unless_literal(without_types(alloc, e)?)),
            None => Ok(None),
        },
        _ => Ok(None),
    }
}

/// The expression, without its types, of the key in brackets of a field with a value, where it is no literal. In a class with parameter properties such a key is
/// kept in a variable.
pub fn kept_of(alloc: Global, member: &Node) -> Result<Option<Expr>, NoMemory>
    ensures { IfOk result (λ kept. kept ≡ table.kept_of member.now) }
{
    if !is_moved(member) {
        return Ok(None);
    }
    match member.children.get(0) {
        Some(key) => kept_key(alloc, key),
        None => Ok(None),
    }
}

fn any_keeps_key(alloc: Global, members: &[Node]) -> Result<bool, NoMemory>
    ensures { IfOk result (λ any. any ≡ list_any keeps_key members.now) }
{
    for member in members {
        if kept_of(alloc, member)?.is_some() {
            return Ok(true);
        }
    }
    Ok(false)
}

/// Whether a class has parameter properties, and a field with a value whose key is kept.
pub(crate) fn keeps_keys(alloc: Global, class: &Class) -> Result<bool, NoMemory>
    ensures { IfOk result (λ keeps. keeps ≡ table.keeps_keys class.now) }
{
    if !has_properties(class) {
        return Ok(false);
    }
    any_keeps_key(alloc, items_at(class, 1))
}
