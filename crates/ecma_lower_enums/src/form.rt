//! How a node is written in its place.
ghost use Rattle.std.specs.Prelude.{◌≡◌, IfOk};
ghost use Rattle.ecma_tree.specs.declared.node.Node.{out-Node};
ghost use Rattle.ecma_lower_enums.specs.Steps.{told_of};
ghost use Rattle.ecma_lower_enums.specs.Writing.{export_form, form_of, is_enum_first, member_form, part_form};

use crate::answer::{Answer, answer_of};
use crate::forms::member_name;
use crate::known::{KnownEnums, Part, part_at};
use crate::place::{Place, is_item};
use ecma_tree::{JsWord, Kind, NoMemory, Node};
use std::alloc::Global;

/// How a node is written in its place.
#[derive(Debug, Drop)]
pub enum Form {
    /// A type round each node that its expression became.
    Wrapped,
    /// A part of an enum.
    Part(Part),
    /// What is exported, which is a part of an enum.
    Export,
    /// A member of an enum that is written, unless `skips` says so and its value is known.
    Member { skips: bool },
    /// One node.
    One,
}

/// What is told of a node as it stood: how it is written, with what that takes of the node.
#[derive(Debug, Drop)]
pub enum Told {
    /// A type round each node that its expression became.
    Wrapped,
    /// A part of an enum.
    Part(Part),
    /// What is exported, which is a part of an enum.
    Export,
    /// A member of this name.
    Member { skips: bool, name: JsWord },
    /// One node, or what stands for it.
    One(Option<Answer>),
}

fn part_form(part: Option<Part>) -> Form
    ensures { result ≡ part_form part }
{
    match part {
        Some(part) => Form::Part(part),
        None => Form::One,
    }
}

fn is_enum_first(node: &Node) -> bool
    ensures { result ≡ is_enum_first (out-Node node.now).children }
{
    match node.children.get(0) {
        Some(child) => matches!(child.kind, Kind::TsEnumDecl { .. }),
        None => false,
    }
}

fn export_form(place: Place, node: &Node) -> Form
    ensures { result ≡ export_form place (out-Node node.now).children }
{
    if is_item(place) && is_enum_first(node) {
        Form::Export
    } else {
        Form::One
    }
}

fn member_form(place: Place) -> Form
    ensures { result ≡ member_form place }
{
    match place {
        Place::Member { skips } => Form::Member { skips },
        _ => Form::One,
    }
}

/// How a node is written in its place.
#[tactic(auto, unfolding(crate::specs::Writing::form_of))]
fn form_of(place: Place, node: &Node) -> Result<Form, NoMemory>
    ensures { IfOk result (λ form. form
        ≡ form_of place (out-Node node.now).kind (out-Node node.now).children) }
{
    match &node.kind {
        Kind::TsTypeAssertion
        | Kind::TsConstAssertion
        | Kind::TsNonNullExpr
        | Kind::TsAsExpr
        | Kind::TsInstantiation
        | Kind::TsSatisfiesExpr => Ok(Form::Wrapped),
        Kind::TsEnumDecl { .. } => Ok(part_form(part_at(place, node)?)),
        Kind::ExportDecl => Ok(export_form(place, node)),
        Kind::TsEnumMember => Ok(member_form(place)),
        _ => Ok(Form::One),
    }
}

/// What is told of a node as it stands.
pub(crate) fn tell(
    alloc: Global,
    enums: &KnownEnums,
    place: Place,
    node: &Node,
) -> Result<Told, NoMemory>
    ensures { IfOk result (λ told. told ≡ told_of enums.now place
        (out-Node node.now).span (out-Node node.now).kind (out-Node node.now).children) }
{
    match form_of(place, node)? {
        Form::Wrapped => Ok(Told::Wrapped),
        Form::Part(part) => Ok(Told::Part(part)),
        Form::Export => Ok(Told::Export),
        Form::Member { skips } => {
            let name = member_name(alloc, node)?;
            Ok(Told::Member { skips, name })
        }
        Form::One => Ok(Told::One(answer_of(alloc, enums, place, node)?)),
    }
}
