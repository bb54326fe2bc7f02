//! What is tried before another reading of the same text.
ghost use Rattle.std.specs.Prelude.{◌≡◌, IfSome, IsTrue, codes};
ghost use Rattle.ecma_grammar.specs.Grammar.{◌▸◌, ahead, build, list, marked, optional, punct, same_line, unless, word};
ghost use Rattle.ecma_grammar.specs.Rules.{rule_grammar, type_rule};
ghost use Rattle.ecma_grammar.specs.declared.production.Form.TheVariants as form;
ghost use Rattle.ecma_grammar.specs.Written.{written};
ghost use Rattle.ecma_grammar.specs.productions.Names.{a_name, left_angle, prop_name, prop_start};
ghost use Rattle.ecma_grammar.specs.productions.Types.{parenthesized_params, some_return_annotation, type_param_instantiation, unconditional_type};
ghost use Rattle.ecma_reader.specs.Attempts.{attempted, behind_accessor};

use ecma_grammar::{
    ChainRule, ClassRule, Form, FunctionRule, Link, NameRule, Part, Plain, Production, Rule,
    Terminal, TokenKind, TypeRule,
};
use ecma_tree::MethodKind;
use short_texts::is_same;

/// What is tried before another reading of the same text, and may read much of it before it fails.
#[derive(Clone, Copy, Debug, PartialEq, Eq, Hash)]
pub(crate) enum Attempt {
    Arrow { no_in: bool, middle: bool },
    GetterProperty,
    SetterProperty,
    MethodProperty,
    Getter,
    Setter,
    Method,
    Arguments,
    FunctionType,
    MappedType,
    ObjectType,
    SignatureType,
    GetterSignature,
    SetterSignature,
    /// Type arguments of a type, in its line.
    TypeArguments,
    /// Type arguments as a link of an expression.
    InstantiationLink,
    /// Type arguments behind the callee of `new`.
    InstantiationOfNew,
    /// `extends` and a type behind `infer` and a name.
    Constraint,
    /// `infer` with such a constraint, before `?`.
    Inferred,
}

/// The attempt that a production of a name is.
fn named(rule: Rule) -> Option<Attempt>
    ensures { IfSome result (λ attempt. attempted attempt ≡ rule_grammar rule) }
{
    match rule {
        Rule::Function(FunctionRule::Arrow { no_in, middle }) => {
            Some(Attempt::Arrow { no_in, middle })
        }
        Rule::Function(FunctionRule::GetterProperty) => Some(Attempt::GetterProperty),
        Rule::Function(FunctionRule::SetterProperty) => Some(Attempt::SetterProperty),
        Rule::Function(FunctionRule::MethodProperty) => Some(Attempt::MethodProperty),
        Rule::Class(ClassRule::Getter) => Some(Attempt::Getter),
        Rule::Class(ClassRule::Setter) => Some(Attempt::Setter),
        Rule::Class(ClassRule::Method) => Some(Attempt::Method),
        Rule::Chain(ChainRule::Arguments) => Some(Attempt::Arguments),
        Rule::Type(TypeRule::FunctionType) => Some(Attempt::FunctionType),
        Rule::Type(TypeRule::MappedType) => Some(Attempt::MappedType),
        Rule::Type(TypeRule::ObjectType) => Some(Attempt::ObjectType),
        Rule::Type(TypeRule::SignatureType) => Some(Attempt::SignatureType),
        _ => None,
    }
}

/// The name of a production of types, if it is one.
fn type_name(production: &Production) -> Option<TypeRule>
    ensures { IfSome result (λ rule. type_rule rule ≡ written production.now) }
{
    match production {
        Production::The(Rule::Type(rule)) => Some(*rule),
        _ => None,
    }
}

/// Whether a production takes this key.
fn is_word(production: &Production, key: &str) -> bool
    ensures { IsTrue result → word key.now ≡ written production.now }
{
    match production {
        Production::Take(Terminal::Word(found)) => is_same(found, key),
        _ => false,
    }
}

/// Whether a production takes this punctuator.
fn is_sign(production: &Production, sign: &str) -> bool
    ensures { IsTrue result → punct sign.now ≡ written production.now }
{
    match production {
        Production::Take(Terminal::Punct(found)) => is_same(found, sign),
        _ => false,
    }
}

/// Whether a production is type arguments that are kept.
fn is_instantiation(production: &Production) -> bool
    ensures { IsTrue result → type_param_instantiation ≡ written production.now }
{
    match production {
        Production::Build(Form::Bare(Plain::TsTypeParamInstantiation), part) => {
            matches!(type_name(part), Some(TypeRule::TypeArgs))
        }
        _ => false,
    }
}

/// Whether a production looks for `<`.
fn is_angle_ahead(production: &Production) -> bool
    ensures { IsTrue result → ahead left_angle ≡ written production.now }
{
    match production {
        Production::Ahead(part) => {
            matches!(part, Production::Take(Terminal::Kind(TokenKind::LeftAngle)))
        }
        _ => false,
    }
}

/// Whether a production is a type with no condition.
fn is_unconditional(production: &Production) -> bool
    ensures { IsTrue result → unconditional_type ≡ written production.now }
{
    let Production::Or(first, second) = production else {
        return false;
    };
    matches!(type_name(first), Some(TypeRule::FunctionType))
        && matches!(type_name(second), Some(TypeRule::UnionType))
}

/// The attempt that a production is behind the mark of TypeScript.
fn in_typescript(part: &Production) -> Option<Attempt>
    ensures { IfSome result (λ attempt. attempted attempt ≡ marked (written part.now)) }
{
    let Production::Then(first, second) = part else {
        return None;
    };
    if is_instantiation(first) && matches!(type_name(second), Some(TypeRule::AfterTypeArgs)) {
        return Some(Attempt::InstantiationOfNew);
    }
    if is_angle_ahead(first)
        && matches!(second, Production::Enter(Part::Link(Link::Instantiation)))
    {
        return Some(Attempt::InstantiationLink);
    }
    None
}

/// Whether a production is a type that stands before no `?`, behind `extends`.
fn is_bound(production: &Production) -> bool
    ensures { IsTrue result → unconditional_type ▸ unless (punct (codes "?")) ≡ written production.now }
{
    let Production::Then(first, second) = production else {
        return false;
    };
    let Production::Unless(sign) = second else {
        return false;
    };
    is_unconditional(first) && is_sign(sign, "?")
}

/// The attempt that a production is in the line of what stands before.
fn in_line(production: &Production) -> Option<Attempt>
    ensures { IfSome result (λ attempt. attempted attempt ≡ same_line ▸ written production.now) }
{
    if let Some(TypeRule::TypeArgs) = type_name(production) {
        return Some(Attempt::TypeArguments);
    }
    let Production::Then(first, second) = production else {
        return None;
    };
    if is_word(first, "extends") && is_bound(second) {
        return Some(Attempt::Constraint);
    }
    None
}

/// Whether a production is a bound that stands before `?`, with `extends`.
fn is_bound_before_question(production: &Production) -> bool
    ensures { IsTrue result → word (codes "extends") ▸ unconditional_type ▸ ahead (punct (codes "?")) ≡ written production.now }
{
    let Production::Then(first, rest) = production else {
        return false;
    };
    let Production::Then(second, third) = *rest else {
        return false;
    };
    let Production::Ahead(sign) = *third else {
        return false;
    };
    is_word(first, "extends") && is_unconditional(second) && is_sign(sign, "?")
}

/// Whether a production is a name and a bound before `?`.
fn is_bounded_name(production: &Production) -> bool
    ensures { IsTrue result → a_name ▸ word (codes "extends") ▸ unconditional_type ▸ ahead (punct (codes "?")) ≡ written production.now }
{
    let Production::Then(first, second) = production else {
        return false;
    };
    matches!(first, Production::Take(Terminal::Kind(TokenKind::Name)))
        && is_bound_before_question(second)
}

/// Whether a production is a list of a key.
fn is_key(production: &Production) -> bool
    ensures { IsTrue result → list prop_name ≡ written production.now }
{
    match production {
        Production::Build(Form::List, part) => {
            matches!(part, Production::The(Rule::Name(NameRule::PropName)))
        }
        _ => false,
    }
}

/// Whether a production looks for a key.
fn is_key_ahead(production: &Production) -> bool
    ensures { IsTrue result → ahead prop_start ≡ written production.now }
{
    match production {
        Production::Ahead(part) => {
            matches!(part, Production::The(Rule::Name(NameRule::PropStart)))
        }
        _ => false,
    }
}

/// Whether a production is what stands behind `get` or `set` in a signature.
fn is_behind_accessor(production: &Production) -> bool
    ensures { IsTrue result → behind_accessor ≡ written production.now }
{
    let Production::Then(first, rest) = production else {
        return false;
    };
    let Production::Then(second, third) = *rest else {
        return false;
    };
    is_key_ahead(first)
        && is_key(second)
        && matches!(type_name(third), Some(TypeRule::ParenthesizedParams))
}

/// Whether a production is a return annotation that may be missing.
fn is_return_annotation(production: &Production) -> bool
    ensures { IsTrue result → optional some_return_annotation ≡ written production.now }
{
    let Production::Or(first, second) = production else {
        return false;
    };
    matches!(type_name(first), Some(TypeRule::SomeReturnAnnotation))
        && matches!(second, Production::Nothing)
}

/// The attempt that is a signature made of a part, with what stands behind it.
fn signature(kind: MethodKind, part: &Production, rest: &Production) -> Option<Attempt>
    ensures { IfSome result (λ attempt. attempted attempt ≡ build (form.Signature kind) (written part.now) ▸ written rest.now) }
{
    let Production::Then(first, second) = part else {
        return None;
    };
    if !is_behind_accessor(second) || !is_return_annotation(rest) {
        return None;
    }
    match kind {
        MethodKind::Getter if is_word(first, "get") => Some(Attempt::GetterSignature),
        MethodKind::Setter if is_word(first, "set") => Some(Attempt::SetterSignature),
        _ => None,
    }
}

/// The attempt that two productions are, one after the other.
fn in_order(first: &Production, second: &Production) -> Option<Attempt>
    ensures { IfSome result (λ attempt. attempted attempt ≡ written first.now ▸ written second.now) }
{
    match first {
        Production::SameLine => in_line(second),
        Production::Build(Form::Signature(kind), part) => signature(*kind, part, second),
        Production::Take(_) if is_word(first, "infer") && is_bounded_name(second) => {
            Some(Attempt::Inferred)
        }
        _ => None,
    }
}

/// The attempt that a production is, if it is one that is remembered.
pub(super) fn attempt_of(production: &Production) -> Option<Attempt>
    ensures { IfSome result (λ attempt. attempted attempt ≡ written production.now) }
{
    match production {
        Production::The(rule) => named(*rule),
        Production::Marked(part) => in_typescript(part),
        Production::Then(first, second) => in_order(first, second),
        _ => None,
    }
}
