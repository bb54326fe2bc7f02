//! What a renaming does to an identifier.
ghost use Rattle.std.specs.Prelude.{◌≡◌, IfOk, Some, None, if◌then◌else◌};
ghost use Rattle.std.specs.Option.{option_map};
ghost use Rattle.std.specs.HashMap.{get};
ghost use Rattle.ecma_renamers.specs.Renamers.{have_other_ids, ident_id, in_context, is_export_specifier, renaming_of, same_id, with_id};

use ecma_tree::{Id, Ident, Kind, NoMemory, SyntaxContext};
use std::collections::HashMap;

/// What identifiers become.
#[derive(Clone, Copy)]
pub(crate) enum Rule<'a> {
    /// These contexts by ids.
    Contexts(&'a HashMap<Id, SyntaxContext>),
    /// These ids by ids.
    Ids(&'a HashMap<Id, Id>),
    /// One identifier for an id.
    One(&'a Id, &'a Ident),
}

fn id_of(ident: &Ident) -> Result<Id, NoMemory>
    ensures { IfOk result (λ id. id ≡ ident_id ident.now) }
{
    Ok((ident.sym.clone()?, ident.ctxt))
}

fn other_context(
    contexts: &HashMap<Id, SyntaxContext>,
    ident: &Ident,
) -> Result<Option<Ident>, NoMemory>
    ensures { IfOk result (λ new. new
        ≡ option_map (in_context ident.now) (get same_id contexts.now (ident_id ident.now))) }
{
    let id = id_of(ident)?;
    match contexts.get(&id) {
        Some(ctxt) => {
            let mut new = ident.clone()?;
            new.ctxt = *ctxt;
            Ok(Some(new))
        }
        None => Ok(None),
    }
}

fn other_id(ids: &HashMap<Id, Id>, ident: &Ident) -> Result<Option<Ident>, NoMemory>
    ensures { IfOk result (λ new. new
        ≡ option_map (with_id ident.now) (get same_id ids.now (ident_id ident.now))) }
{
    let id = id_of(ident)?;
    match ids.get(&id) {
        Some(new) => Ok(Some(Ident {
            span: ident.span,
            ctxt: new.1,
            sym: new.0.clone()?,
            optional: ident.optional,
        })),
        None => Ok(None),
    }
}

fn is_id_of(id: &Id, ident: &Ident) -> bool
    ensures { result ≡ same_id id.now (ident_id ident.now) }
{
    id.0 == ident.sym && id.1 == ident.ctxt
}

fn other_ident(from: &Id, to: &Ident, ident: &Ident) -> Result<Option<Ident>, NoMemory>
    ensures { IfOk result (λ new. new
        ≡ (if same_id from.now (ident_id ident.now) then Some to.now else None)) }
{
    if is_id_of(from, ident) {
        return Ok(Some(to.clone()?));
    }
    Ok(None)
}

/// The identifier that one becomes, if it does.
pub(crate) fn change(rule: &Rule<'_>, ident: &Ident) -> Result<Option<Ident>, NoMemory>
    ensures { IfOk result (λ new. new ≡ (renaming_of rule.now).change ident.now) }
{
    match rule {
        Rule::Contexts(contexts) => other_context(contexts, ident),
        Rule::Ids(ids) => other_id(ids, ident),
        Rule::One(from, to) => other_ident(from, to, ident),
    }
}

fn have_other_ids(old: &Ident, new: &Ident) -> bool
    ensures { result ≡ have_other_ids old.now new.now }
{
    old.sym != new.sym || old.ctxt != new.ctxt
}

/// Whether a name that is also a key, or a name for others, gets a second one where it becomes another.
pub(crate) fn parts(rule: &Rule<'_>, old: &Ident, new: &Ident) -> bool
    ensures { result ≡ (renaming_of rule.now).parts old.now new.now }
{
    match rule {
        Rule::Contexts(_) => false,
        Rule::Ids(_) => have_other_ids(old, new),
        Rule::One(_, _) => have_other_ids(old, new),
    }
}

fn is_export_specifier(kind: &Kind) -> bool
    ensures { result ≡ is_export_specifier kind.now }
{
    matches!(kind, Kind::ExportNamedSpecifier { .. })
}

/// Whether a specifier of this kind keeps the name that others know.
pub(crate) fn splits(rule: &Rule<'_>, kind: &Kind) -> bool
    ensures { result ≡ (renaming_of rule.now).splits kind.now }
{
    match rule {
        Rule::Ids(_) => is_export_specifier(kind),
        _ => false,
    }
}
