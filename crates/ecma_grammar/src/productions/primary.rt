//! Primary expressions, templates, objects and arrays (ECMAScript, 13.2).
ghost use Rattle.std.specs.Prelude.{◌≡◌, false};
ghost use Rattle.ecma_grammar.specs.Rules.{primary_rule};
ghost use Rattle.ecma_grammar.specs.Written.{is_name, written};

use super::*;

/// A production of this topic that has a name.
#[derive(Clone, Copy, Debug)]
pub enum PrimaryRule {
    Spread,
    Element,
    Array,
    Property,
    Object,
    Parenthesized,
    ClassExpression,
    Primary,
    Template { tagged: bool },
}

/// The production of a name.
#[tactic(auto, unfolding(crate::specs::productions::Primary::spread, crate::specs::productions::Primary::element, crate::specs::productions::Primary::array, crate::specs::productions::Primary::property, crate::specs::productions::Primary::object, crate::specs::productions::Primary::parenthesized, crate::specs::productions::Primary::class_expression, crate::specs::productions::Primary::primary, crate::specs::productions::Primary::template))]
pub(super) fn primary_rule(rule: PrimaryRule) -> &'static Production
    ensures says { written result.now ≡ primary_rule rule }
    ensures unnamed { is_name result.now ≡ false }
{
    match rule {
        PrimaryRule::Spread => &SPREAD_BODY,
        PrimaryRule::Element => &ELEMENT_BODY,
        PrimaryRule::Array => &ARRAY_BODY,
        PrimaryRule::Property => &PROPERTY_BODY,
        PrimaryRule::Object => &OBJECT_BODY,
        PrimaryRule::Parenthesized => &PARENTHESIZED_BODY,
        PrimaryRule::ClassExpression => &CLASS_EXPRESSION_BODY,
        PrimaryRule::Primary => &PRIMARY_BODY,
        PrimaryRule::Template { tagged: false } => &TEMPLATE_BODY,
        PrimaryRule::Template { tagged: true } => &TEMPLATE_TAGGED_BODY,
    }
}

pub(super) const SPREAD: Production = The(Rule::Primary(PrimaryRule::Spread));

pub(super) const ELEMENT: Production = The(Rule::Primary(PrimaryRule::Element));

pub(super) const ARRAY: Production = The(Rule::Primary(PrimaryRule::Array));

pub(super) const PROPERTY: Production = The(Rule::Primary(PrimaryRule::Property));

pub(super) const OBJECT: Production = The(Rule::Primary(PrimaryRule::Object));

pub(super) const PARENTHESIZED: Production = The(Rule::Primary(PrimaryRule::Parenthesized));

pub(super) const CLASS_EXPRESSION: Production = The(Rule::Primary(PrimaryRule::ClassExpression));

pub(super) const PRIMARY: Production = The(Rule::Primary(PrimaryRule::Primary));

// a backtick, text parts and `${ Expr }` by turns, a backtick
macro_rules! template {
    ($tagged:tt) => { The(Rule::Primary(PrimaryRule::Template { tagged: $tagged })) };
}

pub(super) use template;

macro_rules! template_body {
    ($tagged:tt) => { Build(Form::Template, &first_of!(Keep(Leaf::TplElement(TemplatePart { first: true, tagged: $tagged, last: true })), all!(Keep(Leaf::TplElement(TemplatePart { first: true, tagged: $tagged, last: false })), expression!(false), Many(&all!(Keep(Leaf::TplElement(TemplatePart { first: false, tagged: $tagged, last: false })), expression!(false))), Keep(Leaf::TplElement(TemplatePart { first: false, tagged: $tagged, last: true }))))) };
}

static TEMPLATE_BODY: Production = template_body!(false);

static TEMPLATE_TAGGED_BODY: Production = template_body!(true);

// '...' Assign
static SPREAD_BODY: Production = node!(Plain::SpreadElement, all!(punct!("..."), ASSIGN));

// Elem = '...'? Assign
static ELEMENT_BODY: Production = first_of!(SPREAD, ASSIGN);

// '[' (Elem? (',' Elem?)*) ']'
static ARRAY_BODY: Production = node!(
    Plain::ArrayLit,
    all!(
        punct!("["),
        Build(
            Form::Elements,
            &all!(maybe!(ELEMENT), Many(&all!(punct!(","), maybe!(ELEMENT))))
        ),
        punct!("]")
    )
);

// Prop
static PROPERTY_BODY: Production = first_of!(
    SPREAD,
    GETTER_PROPERTY,
    SETTER_PROPERTY,
    METHOD_PROPERTY,
    node!(Plain::KeyValueProp, all!(PROP_NAME, punct!(":"), ASSIGN)),
    node!(Plain::AssignProp, all!(IDENT, punct!("="), ASSIGN)),
    IDENT
);

// '{' L(Prop) '}'
static OBJECT_BODY: Production = node!(
    Plain::ObjectLit,
    all!(punct!("{"), list!(commas!(PROPERTY)), punct!("}"))
);

// '(' Expr ')'
static PARENTHESIZED_BODY: Production = node!(
    Plain::ParenExpr,
    all!(punct!("("), expression!(false), punct!(")"))
);

// Class(Name?)
static CLASS_EXPRESSION_BODY: Production = Build(
    Form::Class {
        plain: Plain::ClassExpr,
        is_abstract: false,
    },
    &Behind(Terminal::Word("class"), Part::Class { named: false }),
);

// Primary, from each of its alternatives on with which it may begin
const FROM_NAME: Production = first_of!(
    IDENT,
    Keep(Leaf::Number),
    Keep(Leaf::BigInt),
    STRING,
    Keep(Leaf::Regex),
    template!(false),
    ARRAY,
    OBJECT,
    PARENTHESIZED
);

const FROM_TRUE: Production = first_of!(Keep(Leaf::True), Keep(Leaf::False), FROM_NAME);

const FROM_NULL: Production = first_of!(Keep(Leaf::Null), FROM_TRUE);

const FROM_THIS: Production = first_of!(Keep(Leaf::This), FROM_NULL);

const FROM_CLASS: Production = first_of!(CLASS_EXPRESSION, FROM_THIS);

// Primary
static PRIMARY_BODY: Production = first_of!(FUNCTION_EXPRESSION, FROM_CLASS);

pub(super) static FROM_NAME_BODY: Production = FROM_NAME;

pub(super) static FROM_NULL_BODY: Production = FROM_NULL;

pub(super) static FROM_THIS_BODY: Production = FROM_THIS;

pub(super) static FROM_CLASS_BODY: Production = FROM_CLASS;
