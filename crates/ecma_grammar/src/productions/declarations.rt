//! Declarations (ECMAScript, 14.3, 15; TypeScript handbook).
ghost use Rattle.std.specs.Prelude.{◌≡◌, false};
ghost use Rattle.ecma_grammar.specs.Rules.{declaration_rule};
ghost use Rattle.ecma_grammar.specs.Written.{is_name, written};

use super::*;

/// A production of this topic that has a name.
#[derive(Clone, Copy, Debug)]
pub enum DeclarationRule {
    TypeAlias,
    Interface,
    EnumMember,
    EnumRest,
    Enum,
    DottedNames,
    Namespace,
    Declaration,
}

/// The production of a name.
#[tactic(auto, unfolding(crate::specs::productions::Declarations::type_alias, crate::specs::productions::Declarations::interface, crate::specs::productions::Declarations::enum_member, crate::specs::productions::Declarations::enum_rest, crate::specs::productions::Declarations::enum_, crate::specs::productions::Declarations::dotted_names, crate::specs::productions::Declarations::namespace, crate::specs::productions::Declarations::declaration))]
pub(super) fn declaration_rule(rule: DeclarationRule) -> &'static Production
    ensures says { written result.now ≡ declaration_rule rule }
    ensures unnamed { is_name result.now ≡ false }
{
    match rule {
        DeclarationRule::TypeAlias => &TYPE_ALIAS_BODY,
        DeclarationRule::Interface => &INTERFACE_BODY,
        DeclarationRule::EnumMember => &ENUM_MEMBER_BODY,
        DeclarationRule::EnumRest => &ENUM_REST_BODY,
        DeclarationRule::Enum => &ENUM__BODY,
        DeclarationRule::DottedNames => &DOTTED_NAMES_BODY,
        DeclarationRule::Namespace => &NAMESPACE_BODY,
        DeclarationRule::Declaration => &DECLARATION_BODY,
    }
}

pub(super) const TYPE_ALIAS: Production = The(Rule::Declaration(DeclarationRule::TypeAlias));

pub(super) const INTERFACE: Production = The(Rule::Declaration(DeclarationRule::Interface));

pub(super) const ENUM_MEMBER: Production = The(Rule::Declaration(DeclarationRule::EnumMember));

pub(super) const ENUM_REST: Production = The(Rule::Declaration(DeclarationRule::EnumRest));

pub(super) const ENUM_: Production = The(Rule::Declaration(DeclarationRule::Enum));

pub(super) const DOTTED_NAMES: Production = The(Rule::Declaration(DeclarationRule::DottedNames));

pub(super) const NAMESPACE: Production = The(Rule::Declaration(DeclarationRule::Namespace));

pub(super) const DECLARATION: Production = The(Rule::Declaration(DeclarationRule::Declaration));

// Declr = Pattern ['!'] [Ann] ('=' Assign)?
macro_rules! declarator {
    ($no_in:tt) => { Build(Form::Declarator, &all!(PATTERN, whether!(Marked(&punct!("!"))), ANNOTATION, maybe!(all!(punct!("="), assign_in!($no_in))))) };
}

pub(super) use declarator;

macro_rules! declarators {
    ($no_in:tt) => { list!(all!(declarator!($no_in), Many(&all!(punct!(","), declarator!($no_in))))) };
}

pub(super) use declarators;

// Var = ('var' / 'let' / 'const') Declr (',' Declr)*, with what ends it
macro_rules! variables {
    ($no_in:tt, $tail:expr) => { first_of!(node!(Plain::VarDecl(VarDeclKind::Var), all!(word!("var"), declarators!($no_in), $tail)), node!(Plain::VarDecl(VarDeclKind::Let), all!(word!("let"), declarators!($no_in), $tail)), node!(Plain::VarDecl(VarDeclKind::Const), all!(word!("const"), declarators!($no_in), $tail))) };
}

pub(super) use variables;

// 'type' ~Name TypeParams? '=' Type End
static TYPE_ALIAS_BODY: Production = Build(
    Form::First(Plain::TsTypeAliasDecl),
    &all!(
        word!("type"),
        SameLine,
        IDENT,
        optional!(TYPE_PARAMS),
        punct!("="),
        TYPE_,
        END
    ),
);

// Interface = 'interface' ~Name TypeParams? ('extends' TypeList)? TObj
static INTERFACE_BODY: Production = Build(
    Form::First(Plain::TsInterfaceDecl),
    &all!(
        word!("interface"),
        SameLine,
        IDENT,
        optional!(TYPE_PARAMS),
        optional!(all!(word!("extends"), TYPE_LIST)),
        OBJECT_TYPE
    ),
);

// (Key / Str / '[' Str ']') ('=' Assign)?
static ENUM_MEMBER_BODY: Production = node!(
    Plain::TsEnumMember,
    all!(
        first_of!(
            Keep(Leaf::KeyIdent),
            STRING,
            all!(punct!("["), STRING, punct!("]"))
        ),
        maybe!(all!(punct!("="), ASSIGN))
    )
);

// 'enum' Name '{' L(member) '}'
static ENUM_REST_BODY: Production = all!(
    word!("enum"),
    IDENT,
    punct!("{"),
    list!(commas!(ENUM_MEMBER)),
    punct!("}")
);

// Enum = 'const'? 'enum' ..
static ENUM__BODY: Production = first_of!(
    node!(
        Plain::TsEnumDecl { is_const: true },
        all!(word!("const"), ENUM_REST)
    ),
    node!(Plain::TsEnumDecl { is_const: false }, ENUM_REST)
);

// ('.' Name)*
static DOTTED_NAMES_BODY: Production = optional!(Behind(Terminal::Punct("."), Part::DottedName));

pub(super) static DOTTED_NAME_BODY: Production = all!(IDENT, DOTTED_NAMES);

pub(super) const BODY_OF_NAMESPACE: Production = Up(Part::NamespaceBody);

// Namespace = ('namespace' / 'module') ~Name ('.' Name)* NsBody / 'module' ~Str (NsBody / End) / 'global' ~NsBody
static NAMESPACE_BODY: Production = first_of!(
    Build(
        Form::Namespace,
        &all!(
            first_of!(word!("namespace"), word!("module")),
            SameLine,
            IDENT,
            DOTTED_NAMES,
            BODY_OF_NAMESPACE
        )
    ),
    node!(
        Plain::TsModuleDecl { global: false },
        all!(
            word!("module"),
            SameLine,
            STRING,
            first_of!(BODY_OF_NAMESPACE, all!(END, Put(Flag::Absent)))
        )
    ),
    node!(
        Plain::TsModuleDecl { global: true },
        all!(
            Ahead(&word!("global")),
            Keep(Leaf::KeyIdent),
            SameLine,
            BODY_OF_NAMESPACE
        )
    )
);

// Decl
static DECLARATION_BODY: Production = first_of!(
    variables!(false, END),
    FUNCTION_DECLARATION,
    CLASS_DECLARATION,
    Marked(&ABSTRACT_CLASS_DECLARATION),
    Marked(&TYPE_ALIAS),
    Marked(&INTERFACE),
    Marked(&ENUM_),
    Marked(&NAMESPACE),
    Marked(&Build(
        Form::Declared,
        &Behind(Terminal::Word("declare"), Part::Declared)
    ))
);

// 'global' NsBody
pub(super) const GLOBAL: Production = node!(
    Plain::TsModuleDecl { global: true },
    all!(
        Ahead(&word!("global")),
        Keep(Leaf::KeyIdent),
        BODY_OF_NAMESPACE
    )
);

// ~('global' NsBody / Decl), after 'declare'
pub(super) static DECLARED_BODY: Production = all!(SameLine, first_of!(GLOBAL, DECLARATION));
