//! Classes (ECMAScript, 15.7).
ghost use Rattle.std.specs.Prelude.{◌≡◌, false};
ghost use Rattle.ecma_grammar.specs.Rules.{class_rule};
ghost use Rattle.ecma_grammar.specs.Written.{is_name, written};

use super::*;

/// A production of this topic that has a name.
#[derive(Clone, Copy, Debug)]
pub enum ClassRule {
    Modifier,
    QuestionOrExclamation,
    Getter,
    Setter,
    Method,
    Field,
    IndexSignature,
    Member,
    ClassDeclaration,
    AbstractClassDeclaration,
    AbstractClassExpression,
}

/// The production of a name.
#[tactic(auto, unfolding(crate::specs::productions::Classes::modifier, crate::specs::productions::Classes::question_or_exclamation, crate::specs::productions::Classes::getter, crate::specs::productions::Classes::setter, crate::specs::productions::Classes::method, crate::specs::productions::Classes::field, crate::specs::productions::Classes::index_signature, crate::specs::productions::Classes::member, crate::specs::productions::Classes::class_declaration, crate::specs::productions::Classes::abstract_class_declaration, crate::specs::productions::Classes::abstract_class_expression))]
pub(super) fn class_rule(rule: ClassRule) -> &'static Production
    ensures says { written result.now ≡ class_rule rule }
    ensures unnamed { is_name result.now ≡ false }
{
    match rule {
        ClassRule::Modifier => &MODIFIER_BODY,
        ClassRule::QuestionOrExclamation => &QUESTION_OR_EXCLAMATION_BODY,
        ClassRule::Getter => &GETTER_BODY,
        ClassRule::Setter => &SETTER_BODY,
        ClassRule::Method => &METHOD_BODY,
        ClassRule::Field => &FIELD_BODY,
        ClassRule::IndexSignature => &INDEX_SIGNATURE_BODY,
        ClassRule::Member => &MEMBER_BODY,
        ClassRule::ClassDeclaration => &CLASS_DECLARATION_BODY,
        ClassRule::AbstractClassDeclaration => &ABSTRACT_CLASS_DECLARATION_BODY,
        ClassRule::AbstractClassExpression => &ABSTRACT_CLASS_EXPRESSION_BODY,
    }
}

pub(super) const MODIFIER: Production = The(Rule::Class(ClassRule::Modifier));

pub(super) const QUESTION_OR_EXCLAMATION: Production = The(Rule::Class(
    ClassRule::QuestionOrExclamation,
));

pub(super) const GETTER: Production = The(Rule::Class(ClassRule::Getter));

pub(super) const SETTER: Production = The(Rule::Class(ClassRule::Setter));

pub(super) const METHOD: Production = The(Rule::Class(ClassRule::Method));

pub(super) const FIELD: Production = The(Rule::Class(ClassRule::Field));

pub(super) const INDEX_SIGNATURE: Production = The(Rule::Class(ClassRule::IndexSignature));

pub(super) const MEMBER: Production = The(Rule::Class(ClassRule::Member));

pub(super) const CLASS_DECLARATION: Production = The(Rule::Class(ClassRule::ClassDeclaration));

pub(super) const ABSTRACT_CLASS_DECLARATION: Production = The(Rule::Class(
    ClassRule::AbstractClassDeclaration,
));

pub(super) const ABSTRACT_CLASS_EXPRESSION: Production = The(Rule::Class(
    ClassRule::AbstractClassExpression,
));

macro_rules! typescript_modifier {
    ($w:expr) => { Marked(&all!(kept_word!($w), SameLine, Ahead(&MEMBER_START))) };
}

pub(super) use typescript_modifier;

// Mod = 'static' &MStart / T ('public' / 'private' / 'protected' / 'abstract' / 'override' / 'readonly' / 'declare') ~&MStart
static MODIFIER_BODY: Production = first_of!(
    all!(kept_word!(word!("static")), Ahead(&MEMBER_START)),
    typescript_modifier!(word!("public")),
    typescript_modifier!(word!("private")),
    typescript_modifier!(word!("protected")),
    typescript_modifier!(word!("abstract")),
    typescript_modifier!(word!("override")),
    typescript_modifier!(word!("readonly")),
    typescript_modifier!(word!("declare"))
);

pub(super) const MODIFIERS: Production = list!(Many(&MODIFIER));

// ['?' / '!']
static QUESTION_OR_EXCLAMATION_BODY: Production = first_of!(
    all!(Marked(&punct!("?")), Put(Flag::Present), Put(Flag::Absent)),
    all!(Marked(&punct!("!")), Put(Flag::Absent), Put(Flag::Present)),
    all!(Put(Flag::Absent), Put(Flag::Absent))
);

// 'get' &PropStart CName Sig
static GETTER_BODY: Production = Build(
    Form::Method(MethodKind::Getter),
    &all!(
        word!("get"),
        Ahead(&PROP_START),
        Put(Flag::Absent),
        Put(Flag::Absent),
        CLASS_ELEMENT_NAME,
        Put(Flag::Absent),
        Put(Flag::Absent),
        SIGNATURE
    ),
);

static SETTER_BODY: Production = Build(
    Form::Method(MethodKind::Setter),
    &all!(
        word!("set"),
        Ahead(&PROP_START),
        Put(Flag::Absent),
        Put(Flag::Absent),
        CLASS_ELEMENT_NAME,
        Put(Flag::Absent),
        Put(Flag::Absent),
        SIGNATURE
    ),
);

// ('async' ~&MStart)? '*'? CName ['?' / '!'] Sig
static METHOD_BODY: Production = Build(
    Form::Method(MethodKind::Method),
    &all!(
        METHOD_ASYNC,
        whether!(punct!("*")),
        CLASS_ELEMENT_NAME,
        QUESTION_OR_EXCLAMATION,
        SIGNATURE
    ),
);

// CName ['?' / '!'] [Ann] ('=' Assign)? End
static FIELD_BODY: Production = Build(
    Form::Field,
    &all!(
        CLASS_ELEMENT_NAME,
        QUESTION_OR_EXCLAMATION,
        ANNOTATION,
        maybe!(all!(punct!("="), ASSIGN)),
        END
    ),
);

// Mod* '[' Name ':' Type ']' Ann End
static INDEX_SIGNATURE_BODY: Production = Build(
    Form::IndexSignature,
    &all!(
        MODIFIERS,
        punct!("["),
        A_NAME,
        punct!(":"),
        bare!(Plain::TsType, TYPE_),
        punct!("]"),
        SOME_ANNOTATION,
        END
    ),
);

// Member
static MEMBER_BODY: Production = first_of!(
    node!(Plain::EmptyStmt, punct!(";")),
    node!(Plain::StaticBlock, all!(word!("static"), BLOCK)),
    Marked(&INDEX_SIGNATURE),
    Build(
        Form::Modified,
        &all!(MODIFIERS, first_of!(GETTER, SETTER, METHOD, FIELD))
    )
);

// N [TypeParams] ('extends' Chain [TypeArgs])? ['implements' TypeList] '{' Member* '}', after 'class'
macro_rules! class_body {
    (true) => { all!(IDENT, TYPE_PARAM_DECL, first_of!(all!(word!("extends"), CHAIN, maybe!(Marked(&TYPE_PARAM_INSTANTIATION))), all!(Put(Flag::Absent), Put(Flag::Absent))), list!(optional!(Marked(&all!(word!("implements"), TYPE_LIST)))), punct!("{"), list!(Many(&MEMBER)), punct!("}")) };
    (false) => { all!(maybe!(IDENT), TYPE_PARAM_DECL, first_of!(all!(word!("extends"), CHAIN, maybe!(Marked(&TYPE_PARAM_INSTANTIATION))), all!(Put(Flag::Absent), Put(Flag::Absent))), list!(optional!(Marked(&all!(word!("implements"), TYPE_LIST)))), punct!("{"), list!(Many(&MEMBER)), punct!("}")) };
}

pub(super) use class_body;

static CLASS_DECLARATION_BODY: Production = Build(
    Form::Class {
        plain: Plain::ClassDecl,
        is_abstract: false,
    },
    &Behind(Terminal::Word("class"), Part::Class { named: true }),
);

// 'abstract' ~Class(N)
static ABSTRACT_CLASS_DECLARATION_BODY: Production = Build(
    Form::Class {
        plain: Plain::ClassDecl,
        is_abstract: true,
    },
    &all!(
        word!("abstract"),
        SameLine,
        Behind(Terminal::Word("class"), Part::Class { named: true })
    ),
);

static ABSTRACT_CLASS_EXPRESSION_BODY: Production = Build(
    Form::Class {
        plain: Plain::ClassExpr,
        is_abstract: true,
    },
    &all!(
        word!("abstract"),
        SameLine,
        Behind(Terminal::Word("class"), Part::Class { named: false })
    ),
);
