//! What is known of the enums of a module, and what stands around a node.
ghost use Rattle.std.specs.Prelude.{◌≡◌, ◌++◌, IfOk, OnOk};
ghost use Rattle.ecma_tree.specs.declared.node.Node.{out-Node};
ghost use Rattle.ecma_lower_enums.specs.Known.{alias_by, enum_of, has_id, id_of, is_id, is_exported, is_exported_by, name_at, nowhere, part_by, part_at, skips, unmarked};

use crate::place::Place;
use ecma_enums::TsEnumRecord;
use ecma_tree::{Id, Ident, JsWord, Kind, NoMemory, Node, SyntaxContext};
use item_list::ItemList;
use short_texts::is_same;
use std::alloc::{AllocError, Global};

/// A name that matters where enums are written.
#[derive(Debug, Drop)]
pub enum EnumName {
    /// A member whose name is an identifier of this id, and the name of its enum.
    Member { id: Id, of: Ident },
    /// What the module exports in braces or as its default.
    Exported { id: Id },
}

/// What is known of the enums of a module, and how they are to be written.
#[derive(Debug, Drop)]
pub struct KnownEnums {
    /// The members of its enums.
    pub members: TsEnumRecord,
    /// The names of members, and of what is exported.
    pub names: ItemList<EnumName>,
    /// Whether enums may change, so that only members of `const` ones stay what they are.
    pub may_change: bool,
    /// Whether members of `const` enums are written though their values are known.
    pub keeps_constants: bool,
    /// Whether enums are written: else only reads of their members are.
    pub writes: bool,
}

/// What stands around a node.
#[derive(Debug, Drop)]
pub struct Around {
    /// The name of the enum that a member is of, or of the namespace that an item stands in.
    pub name: Option<Ident>,
    /// The ids of the functions, classes, enums and namespaces that stand before an item in its list.
    pub before: ItemList<Id>,
}

/// A declaration that is written as a part of an enum.
#[derive(Debug, Drop)]
pub struct Part {
    pub name: Ident,
    pub is_const: bool,
    /// Whether it stands in the list of a module or a script.
    pub at_top: bool,
    pub exported: bool,
}

pub(crate) fn nowhere(alloc: Global) -> Around
    ensures { result ≡ nowhere }
{
    Around {
        name: None,
        before: ItemList::new(alloc),
    }
}

/// A clone equals what it was cloned from; its only refusal is want of memory.
impl Clone for Part {
    ghost is_clone = { λ part copy. copy ≡ part };

    fn clone(&self) -> Result<Part, AllocError> {
        Ok(Part {
            name: self.name.clone()?,
            is_const: self.is_const,
            at_top: self.at_top,
            exported: self.exported,
        })
    }
}

/// The id of an identifier.
pub(crate) fn id_of(ident: &Ident) -> Result<Id, NoMemory>
    ensures { IfOk result (λ id. id ≡ id_of ident.now) }
{
    Ok((ident.sym.clone()?, ident.ctxt))
}

fn is_id(id: &Id, sym: &JsWord, ctxt: SyntaxContext) -> bool
    ensures { result ≡ is_id id.now sym.now ctxt }
{
    id.1 == ctxt && is_same(id.0.as_str(), sym.as_str())
}

/// Whether one of these ids is that of an identifier.
pub(crate) fn has_id(ids: &[Id], ident: &Ident) -> bool
    ensures { result ≡ has_id ident.now ids.now }
{
    for id in ids {
        if is_id(id, &ident.sym, ident.ctxt) {
            return true;
        }
    }
    false
}

fn exports(name: &EnumName, ident: &Ident) -> bool
    ensures { result ≡ is_exported_by ident.now name.now }
{
    match name {
        EnumName::Exported { id } => is_id(id, &ident.sym, ident.ctxt),
        EnumName::Member { .. } => false,
    }
}

/// Whether the module exports this name in braces or as its default.
fn is_exported(names: &[EnumName], ident: &Ident) -> bool
    ensures { result ≡ is_exported ident.now names.now }
{
    for name in names {
        if exports(name, ident) {
            return true;
        }
    }
    false
}

fn enum_of(name: &EnumName, sym: &JsWord, ctxt: SyntaxContext) -> Result<Option<Ident>, NoMemory>
    ensures { IfOk result (λ of. of ≡ enum_of sym.now ctxt name.now) }
{
    match name {
        EnumName::Member { id, of } => {
            if is_id(id, sym, ctxt) {
                return Ok(Some(of.clone()?));
            }
            Ok(None)
        }
        EnumName::Exported { .. } => Ok(None),
    }
}

/// The name of the enum of which a name with this id is a member.
pub(crate) fn alias(
    names: &[EnumName],
    sym: &JsWord,
    ctxt: SyntaxContext,
) -> Result<Option<Ident>, NoMemory>
    ensures { IfOk result (λ of. of ≡ alias_by sym.now ctxt names.now) }
{
    for name in names {
        if let Some(of) = enum_of(name, sym, ctxt)? {
            return Ok(Some(of));
        }
    }
    Ok(None)
}

fn unmarked(ident: Ident) -> Ident
    ensures { result ≡ unmarked ident }
{
    Ident {
        span: ident.span,
        ctxt: ident.ctxt,
        sym: ident.sym,
        optional: false,
    }
}

/// The identifier that the first child of a node is.
pub(crate) fn name_at(node: &Node) -> Result<Option<Ident>, NoMemory>
    ensures { IfOk result (λ name. name ≡ name_at (out-Node node.now).children) }
{
    let Some(child) = node.children.get(0) else {
        return Ok(None);
    };
    match child.to_ident()? {
        Some(ident) => Ok(Some(unmarked(ident))),
        None => Ok(None),
    }
}

fn part_by(place: Place, is_const: bool, name: Option<Ident>) -> Option<Part>
    ensures { result ≡ part_by place is_const name }
{
    match place {
        Place::Item { at_top, exported } => match name {
            Some(name) => Some(Part {
                name,
                is_const,
                at_top,
                exported,
            }),
            None => None,
        },
        _ => None,
    }
}

/// The part of an enum that a node is written as here, if it is one.
pub(crate) fn part_at(place: Place, node: &Node) -> Result<Option<Part>, NoMemory>
    ensures { IfOk result (λ part. part
        ≡ part_at place (out-Node node.now).kind (out-Node node.now).children) }
{
    match &node.kind {
        Kind::TsEnumDecl { is_const, .. } => Ok(part_by(place, *is_const, name_at(node)?)),
        _ => Ok(None),
    }
}

/// Whether members of a part are not written where their values are known.
pub(crate) fn skips(enums: &KnownEnums, part: &Part) -> bool
    ensures { result ≡ skips enums.now part.now }
{
    part.is_const
        && !part.exported
        && !enums.keeps_constants
        && !is_exported(enums.names.as_slice(), &part.name)
}
