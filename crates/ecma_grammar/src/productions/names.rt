//! Names, literals and keys; what is read inside as a part.
ghost use Rattle.std.specs.Prelude.{◌≡◌, false};
ghost use Rattle.ecma_grammar.specs.Rules.{name_rule};
ghost use Rattle.ecma_grammar.specs.Written.{is_name, written};

use super::*;

/// A production of this topic that has a name.
#[derive(Clone, Copy, Debug)]
pub enum NameRule {
    BindingIdent,
    ComputedPropName,
    PropName,
    ClassElementName,
    PropStart,
    MemberStart,
    ModuleExportName,
    Block,
    Expression { no_in: bool },
}

/// The production of a name.
#[tactic(auto, unfolding(crate::specs::productions::Names::binding_ident, crate::specs::productions::Names::computed_prop_name, crate::specs::productions::Names::prop_name, crate::specs::productions::Names::class_element_name, crate::specs::productions::Names::prop_start, crate::specs::productions::Names::member_start, crate::specs::productions::Names::module_export_name, crate::specs::productions::Names::block, crate::specs::productions::Names::expression))]
pub(super) fn name_rule(rule: NameRule) -> &'static Production
    ensures says { written result.now ≡ name_rule rule }
    ensures unnamed { is_name result.now ≡ false }
{
    match rule {
        NameRule::BindingIdent => &BINDING_IDENT_BODY,
        NameRule::ComputedPropName => &COMPUTED_PROP_NAME_BODY,
        NameRule::PropName => &PROP_NAME_BODY,
        NameRule::ClassElementName => &CLASS_ELEMENT_NAME_BODY,
        NameRule::PropStart => &PROP_START_BODY,
        NameRule::MemberStart => &MEMBER_START_BODY,
        NameRule::ModuleExportName => &MODULE_EXPORT_NAME_BODY,
        NameRule::Block => &BLOCK_BODY,
        NameRule::Expression { no_in: false } => &EXPRESSION_BODY,
        NameRule::Expression { no_in: true } => &EXPRESSION_NO_IN_BODY,
    }
}

pub(super) const BINDING_IDENT: Production = The(Rule::Name(NameRule::BindingIdent));

pub(super) const COMPUTED_PROP_NAME: Production = The(Rule::Name(NameRule::ComputedPropName));

pub(super) const PROP_NAME: Production = The(Rule::Name(NameRule::PropName));

pub(super) const CLASS_ELEMENT_NAME: Production = The(Rule::Name(NameRule::ClassElementName));

pub(super) const PROP_START: Production = The(Rule::Name(NameRule::PropStart));

pub(super) const MEMBER_START: Production = The(Rule::Name(NameRule::MemberStart));

pub(super) const MODULE_EXPORT_NAME: Production = The(Rule::Name(NameRule::ModuleExportName));

pub(super) const BLOCK: Production = The(Rule::Name(NameRule::Block));

pub(super) const ASSIGN: Production = Up(Part::Assign {
    no_in: false,
    middle: false,
});

// `in` is no operator there; it ends the middle of a conditional expression
macro_rules! assign_at {
    ($no_in:tt, $middle:tt) => { Up(Part::Assign { no_in: $no_in, middle: $middle }) };
}

pub(super) use assign_at;

macro_rules! assign_in {
    ($no_in:tt) => { assign_at!($no_in, false) };
}

pub(super) use assign_in;

pub(super) const PATTERN: Production = Up(Part::Pattern);

pub(super) const STATEMENT: Production = Up(Part::Statement);

pub(super) const TYPE_: Production = Up(Part::Type);

pub(super) const A_NAME: Production = token!(TokenKind::Name);

pub(super) const LEFT_ANGLE: Production = token!(TokenKind::LeftAngle);

pub(super) const RIGHT_ANGLE: Production = token!(TokenKind::RightAngle);

pub(super) const END: Production = token!(TokenKind::End);

pub(super) const IDENT: Production = Keep(Leaf::Ident);

pub(super) const STRING: Production = Keep(Leaf::Str);

// a key with this text, kept as a name
macro_rules! kept_word {
    ($w:expr) => { all!(Ahead(&$w), Keep(Leaf::IdentName)) };
}

pub(super) use kept_word;

// Name
static BINDING_IDENT_BODY: Production = node!(Plain::BindingIdent, all!(IDENT, Put(Flag::Absent)));

// '[' Assign ']'
static COMPUTED_PROP_NAME_BODY: Production = node!(
    Plain::ComputedPropName,
    all!(punct!("["), ASSIGN, punct!("]"))
);

// PropName = Key / Str / Num / Big / '[' Assign ']'
static PROP_NAME_BODY: Production = first_of!(
    Keep(Leaf::IdentName),
    STRING,
    Keep(Leaf::Number),
    Keep(Leaf::BigInt),
    COMPUTED_PROP_NAME
);

// ClassElementName = PropName / PrivName
static CLASS_ELEMENT_NAME_BODY: Production = first_of!(PROP_NAME, Keep(Leaf::PrivateName));

// what a property may begin with: Key / Str / Num / Big / '[' / PrivName
static PROP_START_BODY: Production = first_of!(
    token!(TokenKind::Key),
    token!(TokenKind::Str),
    token!(TokenKind::Number),
    token!(TokenKind::BigInt),
    punct!("["),
    token!(TokenKind::PrivateName)
);

// what a member of a class may begin with: PropStart / '*'
static MEMBER_START_BODY: Production = first_of!(PROP_START, punct!("*"));

// ModuleExportName = Key / Str
static MODULE_EXPORT_NAME_BODY: Production = first_of!(Keep(Leaf::KeyIdent), STRING);

// Expr = Assign (',' Assign)*
macro_rules! expression {
    ($no_in:tt) => { The(Rule::Name(NameRule::Expression { no_in: $no_in })) };
}

pub(super) use expression;

macro_rules! expression_body {
    ($no_in:tt) => { Build(Form::Sequence, &all!(assign_in!($no_in), Many(&all!(punct!(","), assign_in!($no_in))))) };
}

static EXPRESSION_BODY: Production = expression_body!(false);

static EXPRESSION_NO_IN_BODY: Production = expression_body!(true);

// Block = '{' Stmt* '}'
static BLOCK_BODY: Production = node!(
    Plain::BlockStmt,
    all!(punct!("{"), list!(Many(&STATEMENT)), punct!("}"))
);
