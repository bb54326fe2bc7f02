//! What a node of a finished tree may be where it stands.
ghost use Rattle.std.specs.Prelude.{◌≡◌};
ghost use Rattle.ecma_tree.specs.Sorted.{is_absent};
ghost use Rattle.ecma_rules.specs.Targets.{is_plain};
ghost use Rattle.ecma_fits.specs.Roles.{at_child, bound_name_of, by, in_default, in_list, in_pattern, in_rest, in_template, is_assigned, is_binding, is_bound_name, is_default, is_free, is_in, is_name, is_out_of_role, is_pattern, is_rest, is_tagged, is_variables, is_wrong_name, is_wrong_text, left_of, may_be, operand_of, role_in, takes};

use ecma_lex::is_reserved;
use ecma_rules::is_simple_target;
use ecma_tree::{AssignOp, BinaryOp, Kind, Node};

/// What a node has to be, since something is declared or assigned to there.
#[derive(Clone, Copy, Debug)]
pub enum Role {
    /// What its sort says, but no private name and no `name = value` among the properties of an object.
    Free,
    /// The same, or a private name.
    Private,
    /// A name that others know, which may be a reserved word.
    Key,
    /// A name, or `this`.
    NameOrThis,
    /// The left of `=`.
    Left,
    /// The left of another assignment, or the operand of `++` or `--`.
    Simple,
    /// What stands before `in` or `of` of a loop.
    Head,
    /// Nothing.
    Nothing,
    /// A name or a pattern that is declared.
    Declared,
    /// The same, perhaps with a default.
    DeclaredValue,
    /// An element of a declared array pattern.
    DeclaredElement,
    /// Such elements.
    DeclaredElements,
    /// A property of a declared object pattern.
    DeclaredProperty,
    /// Such properties.
    DeclaredProperties,
    /// A declared name.
    DeclaredName,
    /// A parameter.
    Parameter,
    /// A parameter that has a default after it.
    DefaultedParameter,
    /// Parameters.
    Parameters,
    /// A target in a pattern that is assigned to.
    Assigned,
    /// The same, perhaps with a default.
    AssignedValue,
    /// An element of an array pattern that is assigned to.
    AssignedElement,
    /// Such elements.
    AssignedElements,
    /// A property of an object pattern that is assigned to.
    AssignedProperty,
    /// Such properties.
    AssignedProperties,
    /// A target that is no pattern, in a pattern that is assigned to.
    AssignedName,
    /// A template after a tag.
    Tagged,
    /// Its text parts.
    TaggedTexts,
    /// One of them.
    TaggedText,
}

fn is_absent(kind: &Kind) -> bool
    ensures { result ≡ is_absent kind.now }
{
    matches!(kind, Kind::Absent)
}

fn is_pattern(kind: &Kind) -> bool
    ensures { result ≡ is_pattern kind.now }
{
    matches!(kind, Kind::ArrayPat { .. } | Kind::ObjectPat { .. })
}

pub(crate) fn is_bound_name(kind: &Kind) -> bool
    ensures { result ≡ is_bound_name kind.now }
{
    matches!(kind, Kind::BindingIdent)
}

fn is_binding(kind: &Kind) -> bool
    ensures { result ≡ is_binding kind.now }
{
    matches!(
        kind,
        Kind::BindingIdent | Kind::ArrayPat { .. } | Kind::ObjectPat { .. }
    )
}

fn is_default(kind: &Kind) -> bool
    ensures { result ≡ is_default kind.now }
{
    matches!(kind, Kind::AssignPat)
}

fn is_rest(kind: &Kind) -> bool
    ensures { result ≡ is_rest kind.now }
{
    matches!(kind, Kind::RestPat)
}

fn is_name(kind: &Kind) -> bool
    ensures { result ≡ is_name kind.now }
{
    matches!(kind, Kind::Ident { .. })
}

fn is_variables(kind: &Kind) -> bool
    ensures { result ≡ is_variables kind.now }
{
    matches!(kind, Kind::VarDecl { .. })
}

fn is_free(kind: &Kind) -> bool
    ensures { result ≡ is_free kind.now }
{
    !matches!(kind, Kind::PrivateName { .. } | Kind::AssignProp)
}

/// Whether a node of this kind may stand there by itself.
#[tactic(auto, unfolding(crate::specs::Roles::may_be))]
fn may_be(role: Role, kind: &Kind) -> bool
    ensures { result ≡ may_be role kind.now }
{
    match role {
        Role::Free => is_free(kind),
        Role::Private => true,
        Role::Left => is_pattern(kind),
        Role::Simple => false,
        Role::Head => is_binding(kind) || is_variables(kind),
        Role::Nothing => is_absent(kind),
        Role::Declared => is_binding(kind) || is_absent(kind),
        Role::DeclaredValue | Role::AssignedValue => is_binding(kind) || is_default(kind),
        Role::DeclaredElement | Role::AssignedElement | Role::Parameter => {
            is_binding(kind) || is_default(kind) || is_rest(kind) || is_absent(kind)
        }
        Role::DefaultedParameter => is_binding(kind) || is_rest(kind),
        Role::DeclaredName | Role::AssignedName => is_bound_name(kind),
        Role::Assigned => is_binding(kind),
        _ => true,
    }
}

/// Whether a simple target of this kind may stand there.
#[tactic(auto, unfolding(crate::specs::Roles::takes))]
fn takes(role: Role, kind: &Kind) -> bool
    ensures { result ≡ takes role kind.now }
{
    match role {
        Role::Left | Role::Simple => true,
        Role::Head
        | Role::Assigned
        | Role::AssignedValue
        | Role::AssignedElement
        | Role::AssignedName => !is_name(kind),
        _ => false,
    }
}

/// Whether a text may not be a name there, since it is a reserved word.
fn is_wrong_text(role: Role, text: &str) -> bool
    ensures { result ≡ is_wrong_text role text.now }
{
    match role {
        Role::Key => false,
        Role::NameOrThis => is_reserved(text) && text != "this",
        _ => is_reserved(text),
    }
}

fn is_wrong_name(role: Role, kind: &Kind) -> bool
    ensures { result ≡ is_wrong_name role kind.now }
{
    match kind {
        Kind::Ident { sym, .. } => is_wrong_text(role, sym.as_str()),
        _ => false,
    }
}

/// Whether a node is not what it has to be where it stands.
pub(crate) fn is_out_of_role(role: Role, node: &Node) -> bool
    ensures { result ≡ is_out_of_role role node.now }
{
    is_wrong_name(role, &node.kind)
        || !(may_be(role, &node.kind) || (takes(role, &node.kind) && is_simple_target(node)))
}

pub(crate) fn is_assigned(role: Role) -> bool
    ensures { result ≡ is_assigned role }
{
    matches!(
        role,
        Role::Left
            | Role::Head
            | Role::Assigned
            | Role::AssignedValue
            | Role::AssignedElement
            | Role::AssignedProperty
            | Role::AssignedName
    )
}

fn at_child(wanted: usize, index: usize, role: Role) -> Role
    ensures { result ≡ at_child wanted index role }
{
    if index == wanted { role } else { Role::Free }
}

fn by(role: Role, assigned: Role, declared: Role) -> Role
    ensures { result ≡ by role assigned declared }
{
    if is_assigned(role) {
        assigned
    } else {
        declared
    }
}

fn in_list(role: Role) -> Role
    ensures { result ≡ in_list role }
{
    match role {
        Role::Parameters => Role::Parameter,
        Role::DeclaredElements => Role::DeclaredElement,
        Role::DeclaredProperties => Role::DeclaredProperty,
        Role::AssignedElements => Role::AssignedElement,
        Role::AssignedProperties => Role::AssignedProperty,
        Role::TaggedTexts => Role::TaggedText,
        _ => Role::Free,
    }
}

fn in_pattern(role: Role, parts: Role, index: usize) -> Role
    ensures { result ≡ in_pattern role parts index }
{
    if index == 0 {
        parts
    } else {
        by(role, Role::Nothing, Role::Free)
    }
}

fn in_rest(role: Role) -> Role
    ensures { result ≡ in_rest role }
{
    match role {
        Role::DeclaredProperty => Role::DeclaredName,
        Role::AssignedProperty => Role::AssignedName,
        _ => by(role, Role::Assigned, Role::Declared),
    }
}

fn bound_name_of(role: Role) -> Role
    ensures { result ≡ bound_name_of role }
{
    match role {
        Role::Parameter => Role::NameOrThis,
        _ => Role::Free,
    }
}

/// The text parts of a template.
fn in_template(role: Role) -> Role
    ensures { result ≡ in_template role }
{
    match role {
        Role::Tagged => Role::TaggedTexts,
        _ => Role::Free,
    }
}

/// Whether a text part stands after a tag.
pub(crate) fn is_tagged(role: Role) -> bool
    ensures { result ≡ is_tagged role }
{
    matches!(role, Role::TaggedText)
}

fn in_default(role: Role) -> Role
    ensures { result ≡ in_default role }
{
    match role {
        Role::Parameter => Role::DefaultedParameter,
        _ => by(role, Role::Assigned, Role::Declared),
    }
}

fn left_of(op: AssignOp) -> Role
    ensures { result ≡ left_of op }
{
    match op {
        AssignOp::Assign => Role::Left,
        _ => Role::Simple,
    }
}

fn operand_of(op: BinaryOp) -> Role
    ensures { result ≡ operand_of op }
{
    match op {
        BinaryOp::In => Role::Private,
        _ => Role::Free,
    }
}

/// What the child at an index of a node of this kind may be.
#[tactic(auto, unfolding(crate::specs::Roles::role_in))]
pub fn role_in(role: Role, kind: &Kind, index: usize) -> Role
    ensures { result ≡ role_in role kind.now index }
{
    match kind {
        Kind::List => in_list(role),
        Kind::ArrayPat { .. } => in_pattern(
            role,
            by(role, Role::AssignedElements, Role::DeclaredElements),
            index,
        ),
        Kind::ObjectPat { .. } => in_pattern(
            role,
            by(role, Role::AssignedProperties, Role::DeclaredProperties),
            index,
        ),
        Kind::BindingIdent => in_pattern(role, bound_name_of(role), index),
        Kind::RestPat => in_pattern(role, in_rest(role), index),
        Kind::AssignPat => at_child(0, index, in_default(role)),
        Kind::KeyValuePatProp => {
            at_child(1, index, by(role, Role::AssignedValue, Role::DeclaredValue))
        }
        Kind::AssignPatProp => {
            at_child(0, index, by(role, Role::AssignedName, Role::DeclaredName))
        }
        Kind::Param => Role::Parameter,
        Kind::TsParamProp { .. } => Role::Parameter,
        Kind::ArrowExpr { .. } => at_child(0, index, Role::Parameters),
        Kind::SetterProp => {
            if index == 1 {
                Role::Parameter
            } else {
                at_child(2, index, Role::Parameter)
            }
        }
        Kind::CatchClause => at_child(0, index, Role::Declared),
        Kind::VarDeclarator { .. } => at_child(0, index, Role::Declared),
        Kind::AssignExpr { op } => at_child(0, index, left_of(*op)),
        Kind::UpdateExpr { .. } => Role::Simple,
        Kind::ForInStmt => at_child(0, index, Role::Head),
        Kind::ForOfStmt { .. } => at_child(0, index, Role::Head),
        Kind::BinExpr { op } => at_child(0, index, operand_of(*op)),
        Kind::MemberExpr => at_child(1, index, Role::Private),
        Kind::PrivateMethod { .. } => at_child(0, index, Role::Private),
        Kind::PrivateProp { .. } => at_child(0, index, Role::Private),
        Kind::ImportNamedSpecifier { .. } => at_child(1, index, Role::Key),
        Kind::ExportNamedSpecifier { .. } => Role::Key,
        Kind::ExportNamespaceSpecifier => Role::Key,
        Kind::TsEnumMember => at_child(0, index, Role::Key),
        Kind::TaggedTpl => at_child(2, index, Role::Tagged),
        Kind::Tpl => at_child(1, index, in_template(role)),
        _ => Role::Free,
    }
}
