//! Classes with parameter properties, and their fields.
ghost use Rattle.std.specs.Prelude.{◌≡◌, IfOk};
ghost use Rattle.std.specs.List.{list_any};
ghost use Rattle.std.specs.Option.{option_copied};
ghost use Rattle.ecma_rules.specs.Members.{is_full_constructor};
ghost use Rattle.ecma_properties.specs.Classes as table;
ghost use Rattle.ecma_properties.specs.Classes.{binding_name, bound_name, constructor_in, field_by, ident_at, is_property, of_instances, unmarked};

use ecma_rules::{has_child, items_at};
use ecma_tree::{Class, Ident, Kind, MemberModifiers, NoMemory, Node};
use item_list::ItemList;
use std::alloc::Global;

fn is_full_constructor(member: &Node) -> bool
    ensures { result ≡ is_full_constructor member.now }
{
    matches!(member.kind, Kind::Constructor { .. }) && has_child(member, 2)
}

fn constructor_in(members: &[Node]) -> Option<&Node>
    ensures { option_copied result ≡ constructor_in members.now }
{
    for member in members {
        if is_full_constructor(member) {
            return Some(member);
        }
    }
    None
}

/// The constructor of a class: the one that has a body.
pub fn constructor_of(class: &Class) -> Option<&Node>
    ensures { option_copied result ≡ table.constructor_of class.now }
{
    constructor_in(items_at(class, 1))
}

/// The parameters of the constructor of a class.
pub fn parameters_of(class: &Class) -> &[Node]
    ensures { result.now ≡ table.parameters_of class.now }
{
    match constructor_of(class) {
        Some(constructor) => items_at(constructor, 1),
        None => &[],
    }
}

fn is_property(parameter: &Node) -> bool
    ensures { result ≡ is_property parameter.now }
{
    matches!(parameter.kind, Kind::TsParamProp { .. })
}

fn any_is_property(parameters: &[Node]) -> bool
    ensures { result ≡ list_any is_property parameters.now }
{
    for parameter in parameters {
        if is_property(parameter) {
            return true;
        }
    }
    false
}

/// Whether a parameter of the constructor of a class declares a property.
pub fn has_properties(class: &Class) -> bool
    ensures { result ≡ table.has_properties class.now }
{
    any_is_property(parameters_of(class))
}

fn unmarked(ident: Ident) -> Ident
    ensures { result ≡ unmarked ident }
{
    Ident {
        span: ident.span,
        ctxt: ident.ctxt,
        sym: ident.sym,
        optional: false,
    }
}

/// The identifier that the first child of a node is.
fn ident_at(binding: &Node) -> Result<Option<Ident>, NoMemory>
    ensures { IfOk result (λ ident. ident ≡ ident_at binding.now) }
{
    let Some(child) = binding.children.get(0) else {
        return Ok(None);
    };
    match child.to_ident()? {
        Some(ident) => Ok(Some(unmarked(ident))),
        None => Ok(None),
    }
}

/// The name that a pattern is.
fn binding_name(binding: &Node) -> Result<Option<Ident>, NoMemory>
    ensures { IfOk result (λ ident. ident ≡ binding_name binding.now) }
{
    match &binding.kind {
        Kind::BindingIdent => ident_at(binding),
        _ => Ok(None),
    }
}

/// The name of a pattern that is a name, perhaps with a default.
fn bound_name(pattern: &Node) -> Result<Option<Ident>, NoMemory>
    ensures { IfOk result (λ ident. ident ≡ bound_name pattern.now) }
{
    match &pattern.kind {
        Kind::AssignPat => match pattern.children.get(0) {
            Some(binding) => binding_name(binding),
            None => Ok(None),
        },
        _ => binding_name(pattern),
    }
}

/// The name of the property that a parameter declares, if it declares one.
fn property_name(parameter: &Node) -> Result<Option<Ident>, NoMemory>
    ensures { IfOk result (λ ident. ident ≡ table.property_name parameter.now) }
{
    match &parameter.kind {
        Kind::TsParamProp { .. } => match parameter.children.get(0) {
            Some(pattern) => bound_name(pattern),
            None => Ok(None),
        },
        _ => Ok(None),
    }
}

/// The names of the properties of a class, in order.
pub fn property_names(alloc: Global, class: &Class) -> Result<ItemList<Ident>, NoMemory>
    ensures { IfOk result (λ names. names ≡ table.property_names class.now) }
{
    let mut names = ItemList::new(alloc);
    for parameter in parameters_of(class) {
        if let Some(name) = property_name(parameter)? {
            names.push(name)?;
        }
    }
    Ok(names)
}

fn of_instances(modifiers: &MemberModifiers) -> bool
    ensures { result ≡ of_instances modifiers.now }
{
    !modifiers.is_static && !modifiers.is_abstract
}

fn is_field_kind(kind: &Kind) -> bool
    ensures { result ≡ field_by kind.now }
{
    match kind {
        Kind::ClassProp {
            modifiers,
            declare,
            ..
        }
        | Kind::PrivateProp {
            modifiers,
            declare,
            ..
        } => of_instances(modifiers) && !declare,
        _ => false,
    }
}

/// Whether a member of a class is a field of each instance.
pub fn is_field(member: &Node) -> bool
    ensures { result ≡ table.is_field member.now }
{
    is_field_kind(&member.kind)
}

/// Whether it is such a field with a value: in a class with parameter properties the constructor assigns it.
pub fn is_moved(member: &Node) -> bool
    ensures { result ≡ table.is_moved member.now }
{
    is_field(member) && has_child(member, 1)
}
