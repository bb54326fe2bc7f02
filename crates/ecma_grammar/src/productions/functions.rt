//! Functions (ECMAScript, 15).
ghost use Rattle.std.specs.Prelude.{◌≡◌, false};
ghost use Rattle.ecma_grammar.specs.Rules.{function_rule};
ghost use Rattle.ecma_grammar.specs.Written.{is_name, written};

use super::*;

/// A production of this topic that has a name.
#[derive(Clone, Copy, Debug)]
pub enum FunctionRule {
    Signature,
    FullSignature,
    FunctionExpression,
    DefaultFunction,
    FunctionDeclaration,
    MethodAsync,
    GetterProperty,
    SetterProperty,
    MethodProperty,
    ArrowRest { no_in: bool, middle: bool },
    Arrow { no_in: bool, middle: bool },
}

/// The production of a name.
#[tactic(auto, unfolding(crate::specs::productions::Functions::signature, crate::specs::productions::Functions::full_signature, crate::specs::productions::Functions::function_expression, crate::specs::productions::Functions::default_function, crate::specs::productions::Functions::function_declaration, crate::specs::productions::Functions::method_async, crate::specs::productions::Functions::getter_property, crate::specs::productions::Functions::setter_property, crate::specs::productions::Functions::method_property, crate::specs::productions::Functions::arrow_rest, crate::specs::productions::Functions::arrow))]
pub(super) fn function_rule(rule: FunctionRule) -> &'static Production
    ensures says { written result.now ≡ function_rule rule }
    ensures unnamed { is_name result.now ≡ false }
{
    match rule {
        FunctionRule::Signature => &SIGNATURE_BODY,
        FunctionRule::FullSignature => &FULL_SIGNATURE_BODY,
        FunctionRule::FunctionExpression => &FUNCTION_EXPRESSION_BODY,
        FunctionRule::DefaultFunction => &DEFAULT_FUNCTION_BODY,
        FunctionRule::FunctionDeclaration => &FUNCTION_DECLARATION_BODY,
        FunctionRule::MethodAsync => &METHOD_ASYNC_BODY,
        FunctionRule::GetterProperty => &GETTER_PROPERTY_BODY,
        FunctionRule::SetterProperty => &SETTER_PROPERTY_BODY,
        FunctionRule::MethodProperty => &METHOD_PROPERTY_BODY,
        FunctionRule::ArrowRest {
            no_in: false,
            middle: false,
        } => &ARROW_REST_BODY,
        FunctionRule::ArrowRest {
            no_in: false,
            middle: true,
        } => &ARROW_REST_MIDDLE_BODY,
        FunctionRule::ArrowRest {
            no_in: true,
            middle: false,
        } => &ARROW_REST_NO_IN_BODY,
        FunctionRule::ArrowRest {
            no_in: true,
            middle: true,
        } => &ARROW_REST_NO_IN_MIDDLE_BODY,
        FunctionRule::Arrow {
            no_in: false,
            middle: false,
        } => &ARROW_BODY,
        FunctionRule::Arrow {
            no_in: false,
            middle: true,
        } => &ARROW_MIDDLE_BODY,
        FunctionRule::Arrow {
            no_in: true,
            middle: false,
        } => &ARROW_NO_IN_BODY,
        FunctionRule::Arrow {
            no_in: true,
            middle: true,
        } => &ARROW_NO_IN_MIDDLE_BODY,
    }
}

pub(super) const SIGNATURE: Production = The(Rule::Function(FunctionRule::Signature));

pub(super) const FULL_SIGNATURE: Production = The(Rule::Function(FunctionRule::FullSignature));

pub(super) const DEFAULT_FUNCTION: Production = The(Rule::Function(FunctionRule::DefaultFunction));

pub(super) const FUNCTION_EXPRESSION: Production = The(Rule::Function(
    FunctionRule::FunctionExpression,
));

pub(super) const FUNCTION_DECLARATION: Production = The(Rule::Function(
    FunctionRule::FunctionDeclaration,
));

pub(super) const METHOD_ASYNC: Production = The(Rule::Function(FunctionRule::MethodAsync));

pub(super) const GETTER_PROPERTY: Production = The(Rule::Function(FunctionRule::GetterProperty));

pub(super) const SETTER_PROPERTY: Production = The(Rule::Function(FunctionRule::SetterProperty));

pub(super) const METHOD_PROPERTY: Production = The(Rule::Function(FunctionRule::MethodProperty));

// Sig = [TypeParams] '(' Params ')' [RetAnn] (Block / T End)
static SIGNATURE_BODY: Production = all!(
    TYPE_PARAM_DECL,
    punct!("("),
    PARAMS,
    punct!(")"),
    RETURN_ANNOTATION,
    first_of!(BLOCK, Marked(&all!(END, Put(Flag::Absent))))
);

// FullSig = [TypeParams] '(' Params ')' [RetAnn] Block
static FULL_SIGNATURE_BODY: Production = all!(
    TYPE_PARAM_DECL,
    punct!("("),
    PARAMS,
    punct!(")"),
    RETURN_ANNOTATION,
    BLOCK
);

// ('async' ~'function' / 'function') '*'? N, and a signature
macro_rules! function {
    ($name:expr, $signed:expr) => { all!(first_of!(all!(word!("async"), SameLine, word!("function"), Put(Flag::Present)), all!(word!("function"), Put(Flag::Absent))), whether!(punct!("*")), $name, $signed) };
}

pub(super) use function;

static FUNCTION_EXPRESSION_BODY: Production = Build(
    Form::Function(Plain::FnExpr),
    &function!(maybe!(IDENT), FULL_SIGNATURE),
);

static DEFAULT_FUNCTION_BODY: Production = Build(
    Form::Function(Plain::FnExpr),
    &function!(maybe!(IDENT), SIGNATURE),
);

static FUNCTION_DECLARATION_BODY: Production = Build(
    Form::Function(Plain::FnDecl),
    &function!(IDENT, SIGNATURE),
);

// 'async' ~&MStart, or not
static METHOD_ASYNC_BODY: Production = whether!(all!(
    word!("async"),
    SameLine,
    Ahead(&MEMBER_START)
));

// ('get' / 'set') &PropStart PName Sig
static GETTER_PROPERTY_BODY: Production = Build(
    Form::Getter,
    &all!(word!("get"), Ahead(&PROP_START), PROP_NAME, SIGNATURE),
);

static SETTER_PROPERTY_BODY: Production = Build(
    Form::Setter,
    &all!(word!("set"), Ahead(&PROP_START), PROP_NAME, SIGNATURE),
);

// ('async' ~&MStart)? '*'? PName Sig
static METHOD_PROPERTY_BODY: Production = Build(
    Form::Function(Plain::MethodProp),
    &all!(METHOD_ASYNC, whether!(punct!("*")), PROP_NAME, SIGNATURE),
);

// ABody = Block / !'{' Assign
macro_rules! arrow_body {
    ($no_in:tt, $middle:tt) => { all!(SameLine, punct!("=>"), first_of!(BLOCK, all!(Unless(&punct!("{")), assign_at!($no_in, $middle)))) };
}

pub(super) use arrow_body;

// in the middle of a conditional expression, and where that ends, an arrow function with a return annotation is read only before `:`
macro_rules! before_colon {
    (true) => { Ahead(&punct!(":")) };
    (false) => { Nothing };
}

pub(super) use before_colon;

// AHead ~'=>' ABody, with AHead = Name / [TypeParams] '(' Params ')' [RetAnn]
macro_rules! arrow_rest {
    ($no_in:tt, $middle:tt) => { The(Rule::Function(FunctionRule::ArrowRest { no_in: $no_in, middle: $middle })) };
}

pub(super) use arrow_rest;

macro_rules! arrow_rest_body {
    ($no_in:tt, $middle:tt) => { first_of!(all!(Put(Flag::Absent), list!(BINDING_IDENT), Put(Flag::Absent), arrow_body!($no_in, $middle)), all!(TYPE_PARAM_DECL, punct!("("), PARAMS, punct!(")"), first_of!(all!(Marked(&SOME_RETURN_ANNOTATION), arrow_body!($no_in, $middle), before_colon!($middle)), all!(Put(Flag::Absent), arrow_body!($no_in, $middle))))) };
}

static ARROW_REST_BODY: Production = arrow_rest_body!(false, false);

static ARROW_REST_MIDDLE_BODY: Production = arrow_rest_body!(false, true);

static ARROW_REST_NO_IN_BODY: Production = arrow_rest_body!(true, false);

static ARROW_REST_NO_IN_MIDDLE_BODY: Production = arrow_rest_body!(true, true);

// Arrow = 'async' ~AHead ~'=>' ABody / AHead ~'=>' ABody
macro_rules! arrow {
    ($no_in:tt, $middle:tt) => { The(Rule::Function(FunctionRule::Arrow { no_in: $no_in, middle: $middle })) };
}

pub(super) use arrow;

macro_rules! whole_arrow_body {
    ($no_in:tt, $middle:tt) => { first_of!(Build(Form::Arrow, &all!(word!("async"), SameLine, Put(Flag::Present), arrow_rest!($no_in, $middle))), Build(Form::Arrow, &all!(Put(Flag::Absent), arrow_rest!($no_in, $middle)))) };
}

static ARROW_BODY: Production = whole_arrow_body!(false, false);

static ARROW_MIDDLE_BODY: Production = whole_arrow_body!(false, true);

static ARROW_NO_IN_BODY: Production = whole_arrow_body!(true, false);

static ARROW_NO_IN_MIDDLE_BODY: Production = whole_arrow_body!(true, true);
