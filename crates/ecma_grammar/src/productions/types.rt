//! Types, of which only the place is kept in the finished tree (TypeScript handbook).
ghost use Rattle.std.specs.Prelude.{◌≡◌, false};
ghost use Rattle.ecma_grammar.specs.Rules.{type_rule};
ghost use Rattle.ecma_grammar.specs.Written.{is_name, written};

use super::*;

/// A production of this topic that has a name.
#[derive(Clone, Copy, Debug)]
pub enum TypeRule {
    TypeParam,
    TypeParams,
    TypeArgs,
    Entity,
    TypeList,
    ReturnType,
    SomeAnnotation,
    SomeReturnAnnotation,
    ParameterModifier,
    RestPattern,
    DefaultValue,
    Param,
    Params,
    ParenthesizedParams,
    CallSignature,
    NewSignature,
    FunctionType,
    IntersectionType,
    UnionType,
    ArraySuffixes,
    ImportType,
    TupleElement,
    MappedType,
    SignatureType,
    TypeMember,
    ObjectType,
    TemplateType,
    PrimaryType,
    TypeOperator,
    AfterTypeArgs,
}

/// The production of a name.
#[tactic(auto, unfolding(crate::specs::productions::Types::type_param, crate::specs::productions::Types::type_params, crate::specs::productions::Types::type_args, crate::specs::productions::Types::entity, crate::specs::productions::Types::type_list, crate::specs::productions::Types::return_type, crate::specs::productions::Types::some_annotation, crate::specs::productions::Types::some_return_annotation, crate::specs::productions::Types::parameter_modifier, crate::specs::productions::Types::rest_pattern, crate::specs::productions::Types::default_value, crate::specs::productions::Types::param, crate::specs::productions::Types::params, crate::specs::productions::Types::parenthesized_params, crate::specs::productions::Types::call_signature, crate::specs::productions::Types::new_signature, crate::specs::productions::Types::function_type, crate::specs::productions::Types::intersection_type, crate::specs::productions::Types::union_type, crate::specs::productions::Types::array_suffixes, crate::specs::productions::Types::import_type, crate::specs::productions::Types::tuple_element, crate::specs::productions::Types::mapped_type, crate::specs::productions::Types::signature_type, crate::specs::productions::Types::type_member, crate::specs::productions::Types::object_type, crate::specs::productions::Types::template_type, crate::specs::productions::Types::primary_type, crate::specs::productions::Types::type_operator_body, crate::specs::productions::Types::after_type_args))]
pub(super) fn type_rule(rule: TypeRule) -> &'static Production
    ensures says { written result.now ≡ type_rule rule }
    ensures unnamed { is_name result.now ≡ false }
{
    match rule {
        TypeRule::TypeParam => &TYPE_PARAM_BODY,
        TypeRule::TypeParams => &TYPE_PARAMS_BODY,
        TypeRule::TypeArgs => &TYPE_ARGS_BODY,
        TypeRule::Entity => &ENTITY_BODY,
        TypeRule::TypeList => &TYPE_LIST_BODY,
        TypeRule::ReturnType => &RETURN_TYPE_BODY,
        TypeRule::SomeAnnotation => &SOME_ANNOTATION_BODY,
        TypeRule::SomeReturnAnnotation => &SOME_RETURN_ANNOTATION_BODY,
        TypeRule::ParameterModifier => &PARAMETER_MODIFIER_BODY,
        TypeRule::RestPattern => &REST_PATTERN_BODY,
        TypeRule::DefaultValue => &DEFAULT_VALUE_BODY,
        TypeRule::Param => &PARAM_BODY,
        TypeRule::Params => &PARAMS_BODY,
        TypeRule::ParenthesizedParams => &PARENTHESIZED_PARAMS_BODY,
        TypeRule::CallSignature => &CALL_SIGNATURE_BODY,
        TypeRule::NewSignature => &NEW_SIGNATURE_BODY,
        TypeRule::FunctionType => &FUNCTION_TYPE_BODY,
        TypeRule::IntersectionType => &INTERSECTION_TYPE_BODY,
        TypeRule::UnionType => &UNION_TYPE_BODY,
        TypeRule::ArraySuffixes => &ARRAY_SUFFIXES_BODY,
        TypeRule::ImportType => &IMPORT_TYPE_BODY,
        TypeRule::TupleElement => &TUPLE_ELEMENT_BODY,
        TypeRule::MappedType => &MAPPED_TYPE_BODY,
        TypeRule::SignatureType => &SIGNATURE_TYPE_BODY,
        TypeRule::TypeMember => &TYPE_MEMBER_BODY,
        TypeRule::ObjectType => &OBJECT_TYPE_BODY,
        TypeRule::TemplateType => &TEMPLATE_TYPE_BODY,
        TypeRule::PrimaryType => &PRIMARY_TYPE_BODY,
        TypeRule::TypeOperator => &TYPE_OPERATOR_BODY,
        TypeRule::AfterTypeArgs => &AFTER_TYPE_ARGS_BODY,
    }
}

pub(super) const TYPE_PARAM: Production = The(Rule::Type(TypeRule::TypeParam));

pub(super) const TYPE_PARAMS: Production = The(Rule::Type(TypeRule::TypeParams));

pub(super) const TYPE_ARGS: Production = The(Rule::Type(TypeRule::TypeArgs));

pub(super) const ENTITY: Production = The(Rule::Type(TypeRule::Entity));

pub(super) const TYPE_LIST: Production = The(Rule::Type(TypeRule::TypeList));

pub(super) const RETURN_TYPE: Production = The(Rule::Type(TypeRule::ReturnType));

pub(super) const SOME_ANNOTATION: Production = The(Rule::Type(TypeRule::SomeAnnotation));

pub(super) const SOME_RETURN_ANNOTATION: Production = The(Rule::Type(
    TypeRule::SomeReturnAnnotation,
));

pub(super) const PARAMETER_MODIFIER: Production = The(Rule::Type(TypeRule::ParameterModifier));

pub(super) const REST_PATTERN: Production = The(Rule::Type(TypeRule::RestPattern));

pub(super) const DEFAULT_VALUE: Production = The(Rule::Type(TypeRule::DefaultValue));

pub(super) const PARAM: Production = The(Rule::Type(TypeRule::Param));

pub(super) const PARAMS: Production = The(Rule::Type(TypeRule::Params));

pub(super) const PARENTHESIZED_PARAMS: Production = The(Rule::Type(TypeRule::ParenthesizedParams));

pub(super) const CALL_SIGNATURE: Production = The(Rule::Type(TypeRule::CallSignature));

pub(super) const NEW_SIGNATURE: Production = The(Rule::Type(TypeRule::NewSignature));

pub(super) const FUNCTION_TYPE: Production = The(Rule::Type(TypeRule::FunctionType));

pub(super) const INTERSECTION_TYPE: Production = The(Rule::Type(TypeRule::IntersectionType));

pub(super) const UNION_TYPE: Production = The(Rule::Type(TypeRule::UnionType));

pub(super) const ARRAY_SUFFIXES: Production = The(Rule::Type(TypeRule::ArraySuffixes));

pub(super) const IMPORT_TYPE: Production = The(Rule::Type(TypeRule::ImportType));

pub(super) const TUPLE_ELEMENT: Production = The(Rule::Type(TypeRule::TupleElement));

pub(super) const MAPPED_TYPE: Production = The(Rule::Type(TypeRule::MappedType));

pub(super) const SIGNATURE_TYPE: Production = The(Rule::Type(TypeRule::SignatureType));

pub(super) const TYPE_MEMBER: Production = The(Rule::Type(TypeRule::TypeMember));

pub(super) const OBJECT_TYPE: Production = The(Rule::Type(TypeRule::ObjectType));

pub(super) const TEMPLATE_TYPE: Production = The(Rule::Type(TypeRule::TemplateType));

pub(super) const PRIMARY_TYPE: Production = The(Rule::Type(TypeRule::PrimaryType));

pub(super) const AFTER_TYPE_ARGS: Production = The(Rule::Type(TypeRule::AfterTypeArgs));

// TypeParams, TypeArgs
// TypeParam = ('const' / 'in' / 'out' &Name)* Name ('extends' Type)? ('=' Type)?
static TYPE_PARAM_BODY: Production = all!(
    Many(&first_of!(
        word!("const"),
        word!("in"),
        all!(word!("out"), Ahead(&A_NAME))
    )),
    A_NAME,
    optional!(all!(word!("extends"), TYPE_)),
    optional!(all!(punct!("="), TYPE_))
);

// "<" L(TypeParam) ">"
static TYPE_PARAMS_BODY: Production = all!(LEFT_ANGLE, commas!(TYPE_PARAM), RIGHT_ANGLE);

// "<" L(Type) ">"
static TYPE_ARGS_BODY: Production = all!(LEFT_ANGLE, commas!(TYPE_), RIGHT_ANGLE);

// the same, kept as a child
pub(super) const TYPE_PARAM_DECL: Production = maybe!(Marked(&bare!(
    Plain::TsTypeParamDecl,
    TYPE_PARAMS
)));

pub(super) const TYPE_PARAM_INSTANTIATION: Production = bare!(
    Plain::TsTypeParamInstantiation,
    TYPE_ARGS
);

// Entity = (Name / 'this') ('.' Key)*
static ENTITY_BODY: Production = all!(
    first_of!(A_NAME, word!("this")),
    Many(&all!(punct!("."), token!(TokenKind::Key)))
);

// Ref = Entity (~TypeArgs)?
pub(super) const TYPE_REFERENCE: Production = all!(ENTITY, optional!(all!(SameLine, TYPE_ARGS)));

pub(super) const HERITAGE_TYPE: Production = bare!(Plain::TsType, TYPE_REFERENCE);

// TypeList = Ref (',' Ref)*
static TYPE_LIST_BODY: Production = all!(HERITAGE_TYPE, Many(&all!(punct!(","), HERITAGE_TYPE)));

// annotations
// Ret = (Name / 'this') ~'is' Type / 'asserts' ~(Name / 'this') ('is' Type)? / Type
static RETURN_TYPE_BODY: Production = first_of!(
    all!(
        first_of!(A_NAME, word!("this")),
        SameLine,
        word!("is"),
        TYPE_
    ),
    all!(
        word!("asserts"),
        SameLine,
        first_of!(A_NAME, word!("this")),
        optional!(all!(word!("is"), TYPE_))
    ),
    TYPE_
);

// Ann = ':' Type
static SOME_ANNOTATION_BODY: Production = node!(
    Plain::TsTypeAnn,
    all!(punct!(":"), bare!(Plain::TsType, TYPE_))
);

pub(super) const ANNOTATION: Production = maybe!(Marked(&SOME_ANNOTATION));

// RetAnn = ':' Ret
static SOME_RETURN_ANNOTATION_BODY: Production = node!(
    Plain::TsTypeAnn,
    all!(punct!(":"), bare!(Plain::TsType, RETURN_TYPE))
);

pub(super) const RETURN_ANNOTATION: Production = maybe!(Marked(&SOME_RETURN_ANNOTATION));

// parameters, which functions share with types
// Acc = 'public' / 'private' / 'protected' / ('readonly' / 'override') &(Key / '[' / '{')
static PARAMETER_MODIFIER_BODY: Production = first_of!(
    kept_word!(word!("public")),
    kept_word!(word!("private")),
    kept_word!(word!("protected")),
    all!(
        first_of!(kept_word!(word!("readonly")), kept_word!(word!("override"))),
        Ahead(&first_of!(token!(TokenKind::Key), punct!("["), punct!("{")))
    )
);

// '...' Pattern
static REST_PATTERN_BODY: Production = node!(
    Plain::RestPat,
    all!(punct!("..."), PATTERN, Put(Flag::Absent))
);

// '=' Assign
static DEFAULT_VALUE_BODY: Production = optional!(item!(
    Plain::AssignPat,
    all!(punct!("="), ASSIGN)
));

// Param = T 'this' Ann? / [Acc+] ('...' Pattern / Pattern) ['?'] [Ann] ('=' Assign)?
static PARAM_BODY: Production = first_of!(
    Marked(&Build(
        Form::Annotated,
        &all!(
            node!(
                Plain::BindingIdent,
                all!(Keep(Leaf::ThisIdent), Put(Flag::Absent))
            ),
            Put(Flag::Absent),
            maybe!(SOME_ANNOTATION)
        )
    )),
    Build(
        Form::Param,
        &all!(
            maybe!(Marked(&list!(all!(PARAMETER_MODIFIER, Many(&PARAMETER_MODIFIER))))),
            Build(
                Form::Chain,
                &all!(
                    Build(
                        Form::Annotated,
                        &all!(
                            first_of!(REST_PATTERN, PATTERN),
                            whether!(Marked(&punct!("?"))),
                            ANNOTATION
                        )
                    ),
                    DEFAULT_VALUE
                )
            )
        )
    )
);

// Params = L(Param)
static PARAMS_BODY: Production = list!(commas!(PARAM));

// types
static PARENTHESIZED_PARAMS_BODY: Production = all!(punct!("("), PARAMS, punct!(")"));

// what stands before the parameters of a signature
const TYPE_PARAMETERS: Production = maybe!(bare!(Plain::TsTypeParamDecl, TYPE_PARAMS));

static CALL_SIGNATURE_BODY: Production = Build(
    Form::Signature(MethodKind::Method),
    &all!(TYPE_PARAMETERS, PARENTHESIZED_PARAMS),
);

static NEW_SIGNATURE_BODY: Production = Build(
    Form::NewSignature,
    &all!(word!("new"), TYPE_PARAMETERS, PARENTHESIZED_PARAMS),
);

// TFun = 'abstract'? 'new' TypeParams? '(' Params ')' '=>' Ret / TypeParams? '(' Params ')' '=>' Ret
static FUNCTION_TYPE_BODY: Production = first_of!(
    all!(
        optional!(word!("abstract")),
        NEW_SIGNATURE,
        punct!("=>"),
        RETURN_TYPE
    ),
    all!(CALL_SIGNATURE, punct!("=>"), RETURN_TYPE)
);

// TInter = '&'? TOp ('&' TOp)*
static INTERSECTION_TYPE_BODY: Production = all!(
    optional!(punct!("&")),
    Up(Part::TypeOperator),
    Many(&all!(punct!("&"), Up(Part::TypeOperator)))
);

// TUnion = '|'? TInter ('|' TInter)*
static UNION_TYPE_BODY: Production = all!(
    optional!(punct!("|")),
    INTERSECTION_TYPE,
    Many(&all!(punct!("|"), INTERSECTION_TYPE))
);

// TBase = TFun / TUnion
pub(super) const UNCONDITIONAL_TYPE: Production = first_of!(FUNCTION_TYPE, UNION_TYPE);

// Type = TFun / TUnion (~'extends' ('infer' Name 'extends' TBase &'?' / TBase) '?' Type ':' Type)?
pub(super) static TYPE_BODY: Production = first_of!(
    FUNCTION_TYPE,
    all!(
        UNION_TYPE,
        optional!(all!(
            SameLine,
            word!("extends"),
            first_of!(
                all!(
                    word!("infer"),
                    A_NAME,
                    word!("extends"),
                    UNCONDITIONAL_TYPE,
                    Ahead(&punct!("?"))
                ),
                UNCONDITIONAL_TYPE
            ),
            punct!("?"),
            TYPE_,
            punct!(":"),
            TYPE_
        ))
    )
);

// (~'[' Type? ']')*
static ARRAY_SUFFIXES_BODY: Production = optional!(all!(
    SameLine,
    Behind(Terminal::Punct("["), Part::ArraySuffix)
));

pub(super) static ARRAY_SUFFIX_BODY: Production = all!(
    optional!(TYPE_),
    punct!("]"),
    ARRAY_SUFFIXES
);

// TImp = 'import' '(' Type ')' ('.' Key)* (~TypeArgs)?
static IMPORT_TYPE_BODY: Production = all!(
    word!("import"),
    punct!("("),
    TYPE_,
    punct!(")"),
    Many(&all!(punct!("."), token!(TokenKind::Key))),
    optional!(all!(SameLine, TYPE_ARGS))
);

// TElem = '...'? (Key '?'? ':' Type / Type '?'?)
static TUPLE_ELEMENT_BODY: Production = all!(
    optional!(punct!("...")),
    first_of!(
        all!(
            token!(TokenKind::Key),
            optional!(punct!("?")),
            punct!(":"),
            TYPE_
        ),
        all!(TYPE_, optional!(punct!("?")))
    )
);

// TMap = '{' (('+' / '-')? 'readonly')? '[' Name 'in' Type ('as' Type)? ']' (('+' / '-')? '?')? Ann? (';' / ',')? '}'
static MAPPED_TYPE_BODY: Production = all!(
    punct!("{"),
    optional!(all!(
        optional!(first_of!(punct!("+"), punct!("-"))),
        word!("readonly")
    )),
    punct!("["),
    A_NAME,
    word!("in"),
    TYPE_,
    optional!(all!(word!("as"), TYPE_)),
    punct!("]"),
    optional!(all!(optional!(first_of!(punct!("+"), punct!("-"))), punct!("?"))),
    optional!(SOME_ANNOTATION),
    optional!(first_of!(punct!(";"), punct!(","))),
    punct!("}")
);

// TypeParams? '(' Params ')' RetAnn?
static SIGNATURE_TYPE_BODY: Production = all!(CALL_SIGNATURE, optional!(SOME_RETURN_ANNOTATION));

// ('get' / 'set') &PropStart PName '(' Params ')'
const GET_SIGNATURE: Production = Build(
    Form::Signature(MethodKind::Getter),
    &all!(
        word!("get"),
        Ahead(&PROP_START),
        list!(PROP_NAME),
        PARENTHESIZED_PARAMS
    ),
);

const SET_SIGNATURE: Production = Build(
    Form::Signature(MethodKind::Setter),
    &all!(
        word!("set"),
        Ahead(&PROP_START),
        list!(PROP_NAME),
        PARENTHESIZED_PARAMS
    ),
);

// TMember
static TYPE_MEMBER_BODY: Production = first_of!(
    all!(GET_SIGNATURE, optional!(SOME_RETURN_ANNOTATION)),
    all!(SET_SIGNATURE, optional!(SOME_RETURN_ANNOTATION)),
    all!(NEW_SIGNATURE, optional!(SOME_RETURN_ANNOTATION)),
    SIGNATURE_TYPE,
    all!(
        optional!(word!("readonly")),
        punct!("["),
        A_NAME,
        punct!(":"),
        TYPE_,
        punct!("]"),
        SOME_ANNOTATION
    ),
    all!(
        optional!(all!(word!("readonly"), Ahead(&PROP_START))),
        PROP_NAME,
        optional!(punct!("?")),
        first_of!(SIGNATURE_TYPE, optional!(SOME_ANNOTATION))
    )
);

// TObj = '{' (TMember (';' / ',' / End))* '}'
static OBJECT_TYPE_BODY: Production = all!(
    punct!("{"),
    Many(&all!(TYPE_MEMBER, first_of!(punct!(";"), punct!(","), END))),
    punct!("}")
);

// a template with types in it
static TEMPLATE_TYPE_BODY: Production = first_of!(
    token!(TokenKind::Template(TemplatePart {
        first: true,
        tagged: false,
        last: true
    })),
    all!(
        token!(TokenKind::Template(TemplatePart {
            first: true,
            tagged: false,
            last: false
        })),
        TYPE_,
        Many(&all!(
            token!(TokenKind::Template(TemplatePart {
                first: false,
                tagged: false,
                last: false
            })),
            TYPE_
        )),
        token!(TokenKind::Template(TemplatePart {
            first: false,
            tagged: false,
            last: true
        }))
    )
);

// TPrim
static PRIMARY_TYPE_BODY: Production = first_of!(
    all!(punct!("("), TYPE_, punct!(")")),
    FROM_TUPLE_TYPE
);

// the same, from each of its alternatives on with which it may begin
const FROM_TUPLE_TYPE: Production = first_of!(
    all!(punct!("["), commas!(TUPLE_ELEMENT), punct!("]")),
    FROM_OBJECT_TYPE
);

const FROM_OBJECT_TYPE: Production = first_of!(MAPPED_TYPE, OBJECT_TYPE, FROM_TEMPLATE_TYPE);

const FROM_TEMPLATE_TYPE: Production = first_of!(TEMPLATE_TYPE, FROM_STRING_TYPE);

const FROM_STRING_TYPE: Production = first_of!(token!(TokenKind::Str), FROM_NUMBER_TYPE);

const FROM_NUMBER_TYPE: Production = first_of!(
    all!(
        optional!(punct!("-")),
        first_of!(token!(TokenKind::Number), token!(TokenKind::BigInt))
    ),
    FROM_VOID_TYPE
);

const FROM_VOID_TYPE: Production = first_of!(word!("void"), FROM_NULL_TYPE);

const FROM_NULL_TYPE: Production = first_of!(word!("null"), FROM_TRUE_TYPE);

const FROM_TRUE_TYPE: Production = first_of!(word!("true"), FROM_FALSE_TYPE);

const FROM_FALSE_TYPE: Production = first_of!(word!("false"), FROM_TYPE_QUERY);

const FROM_TYPE_QUERY: Production = first_of!(
    all!(word!("typeof"), first_of!(IMPORT_TYPE, TYPE_REFERENCE)),
    FROM_IMPORT_TYPE
);

const FROM_IMPORT_TYPE: Production = first_of!(IMPORT_TYPE, TYPE_REFERENCE);

pub(super) static FROM_TUPLE_TYPE_BODY: Production = FROM_TUPLE_TYPE;

pub(super) static FROM_OBJECT_TYPE_BODY: Production = FROM_OBJECT_TYPE;

pub(super) static FROM_TEMPLATE_TYPE_BODY: Production = FROM_TEMPLATE_TYPE;

pub(super) static FROM_STRING_TYPE_BODY: Production = FROM_STRING_TYPE;

pub(super) static FROM_NUMBER_TYPE_BODY: Production = FROM_NUMBER_TYPE;

pub(super) static FROM_VOID_TYPE_BODY: Production = FROM_VOID_TYPE;

pub(super) static FROM_NULL_TYPE_BODY: Production = FROM_NULL_TYPE;

pub(super) static FROM_TRUE_TYPE_BODY: Production = FROM_TRUE_TYPE;

pub(super) static FROM_FALSE_TYPE_BODY: Production = FROM_FALSE_TYPE;

pub(super) static FROM_IMPORT_TYPE_BODY: Production = FROM_IMPORT_TYPE;

pub(super) static TYPE_REFERENCE_BODY: Production = TYPE_REFERENCE;

// TOp = ('keyof' / 'unique' / 'readonly') TOp / 'infer' Name (~'extends' TBase !'?')? / TPrim (~'[' Type? ']')*
static TYPE_OPERATOR_BODY: Production = first_of!(
    all!(
        first_of!(word!("keyof"), word!("unique"), word!("readonly")),
        Up(Part::TypeOperator)
    ),
    FROM_INFER
);

const FROM_INFER: Production = first_of!(
    all!(
        word!("infer"),
        A_NAME,
        optional!(all!(
            SameLine,
            word!("extends"),
            UNCONDITIONAL_TYPE,
            Unless(&punct!("?"))
        ))
    ),
    SUFFIXED_TYPE
);

const SUFFIXED_TYPE: Production = all!(PRIMARY_TYPE, ARRAY_SUFFIXES);

pub(super) static FROM_INFER_BODY: Production = FROM_INFER;

pub(super) static SUFFIXED_TYPE_BODY: Production = SUFFIXED_TYPE;

pub(super) static TYPE_OPERATOR_PART: Production = The(Rule::Type(TypeRule::TypeOperator));

// After: what may stand after type arguments in an expression
static AFTER_TYPE_ARGS_BODY: Production = Ahead(&first_of!(
    punct!("("),
    all!(
        punct!("?."),
        first_of!(punct!("("), punct!("["), LEFT_ANGLE)
    ),
    token!(TokenKind::Template(TemplatePart {
        first: true,
        tagged: true,
        last: true
    })),
    token!(TokenKind::Template(TemplatePart {
        first: true,
        tagged: true,
        last: false
    })),
    punct!(")"),
    punct!("]"),
    punct!("}"),
    punct!(","),
    punct!(";"),
    punct!(":"),
    punct!("?"),
    punct!("??"),
    punct!("||"),
    punct!("&&"),
    punct!("|"),
    punct!("^"),
    punct!("&"),
    punct!("=="),
    punct!("!="),
    punct!("==="),
    punct!("!=="),
    punct!("*"),
    punct!("%"),
    punct!("**"),
    word!("in"),
    word!("instanceof"),
    token!(TokenKind::EndOfText),
    all!(
        Unless(&SameLine),
        Unless(&punct!("<")),
        Unless(&punct!(">")),
        Unless(&punct!("+")),
        Unless(&punct!("-"))
    )
));
