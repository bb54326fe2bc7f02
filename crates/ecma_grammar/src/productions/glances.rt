//! What is known of a production by the first byte of the token ahead.
ghost use Rattle.std.specs.Prelude.{◌≡◌};
ghost use Rattle.ecma_grammar.specs.Rules.{chain_rule, class_rule, declaration_rule, expression_rule, function_rule, module_rule, operator_rule, primary_rule, rule_grammar, statement_rule, type_rule};
ghost use Rattle.ecma_grammar.specs.Glance.{Says};
ghost use Rattle.ecma_grammar.specs.productions.Statements.{statement_body};
ghost use Rattle.ecma_grammar.specs.productions.Primary.{primary};
ghost use Rattle.ecma_grammar.specs.productions.Types.{primary_type, type_operator_body};
ghost use Rattle.ecma_grammar.specs.productions.Modules.{module_item};

use super::modules::{FROM_IMPORT_EQUALS_BODY, STATEMENT_ITEM_BODY};
use super::primary::{FROM_CLASS_BODY, FROM_NAME_BODY, FROM_NULL_BODY, FROM_THIS_BODY};
use super::statements::{
    FROM_DO_WHILE_BODY, FROM_EMPTY_BODY, FROM_FOR_BODY, FROM_IF_BODY, FROM_JUMP_BODY,
    FROM_LABELED_BODY, FROM_SWITCH_BODY, FROM_TRY_BODY, FROM_WHILE_BODY,
};
use super::types::{
    FROM_FALSE_TYPE_BODY, FROM_IMPORT_TYPE_BODY, FROM_INFER_BODY, FROM_NULL_TYPE_BODY,
    FROM_NUMBER_TYPE_BODY, FROM_OBJECT_TYPE_BODY, FROM_STRING_TYPE_BODY, FROM_TEMPLATE_TYPE_BODY,
    FROM_TRUE_TYPE_BODY, FROM_TUPLE_TYPE_BODY, FROM_VOID_TYPE_BODY, SUFFIXED_TYPE_BODY,
    TYPE_REFERENCE_BODY,
};
use super::{
    ChainRule, ClassRule, DeclarationRule, ExpressionRule, FunctionRule, ModuleRule, OperatorRule,
    PrimaryRule, StatementRule, TypeRule,
};
use crate::production::{Production, Rule};

/// What is known of a reading by the first byte of the token ahead.
#[derive(Clone, Copy)]
pub enum Glance {
    /// Nothing.
    Open,
    /// It fails there.
    Fails,
    /// Nothing is read, while terminals fail there.
    Passes,
    /// It is a choice, of which this remains: the alternatives before it fail there.
    Remains(&'static Production),
}

#[tactic(auto, unfolding(crate::specs::productions::Operators::factors, crate::specs::productions::Operators::terms, crate::specs::productions::Operators::shifts, crate::specs::productions::Operators::relations, crate::specs::productions::Operators::equalities), using(crate::proofs::Glances::beginning))]
fn operator_glance(rule: OperatorRule, first: u8) -> Glance
    ensures { Says result first (operator_rule rule) }
{
    match rule {
        OperatorRule::Prefixed => match first {
            b'd' | b'v' | b't' | b'+' | b'-' | b'~' | b'!' | b'a' | b'<' => Glance::Open,
            _ => Glance::Fails,
        },
        OperatorRule::Factors => match first {
            b'*' | b'/' | b'%' => Glance::Open,
            _ => Glance::Passes,
        },
        OperatorRule::Terms => match first {
            b'+' | b'-' => Glance::Open,
            _ => Glance::Passes,
        },
        OperatorRule::Shifts => match first {
            b'<' | b'>' => Glance::Open,
            _ => Glance::Passes,
        },
        OperatorRule::Relations { no_in: false } => match first {
            b'<' | b'>' | b'i' | b'a' | b's' => Glance::Open,
            _ => Glance::Passes,
        },
        OperatorRule::Equalities { .. } => match first {
            b'=' | b'!' => Glance::Open,
            _ => Glance::Passes,
        },
        _ => Glance::Open,
    }
}

#[tactic(auto, using(crate::proofs::Glances::beginning))]
fn expression_glance(rule: ExpressionRule, first: u8) -> Glance
    ensures { Says result first (expression_rule rule) }
{
    match rule {
        ExpressionRule::Assignments { .. } => match first {
            b'=' | b'+' | b'-' | b'*' | b'/' | b'%' | b'<' | b'>' | b'&' | b'|' | b'^' | b'?' =>
                Glance::Open,
            _ => Glance::Passes,
        },
        _ => Glance::Open,
    }
}

#[tactic(auto, unfolding(crate::specs::productions::Chains::arguments, crate::specs::productions::Chains::index, crate::specs::productions::Chains::import_meta, crate::specs::productions::Chains::import_call, crate::specs::productions::Chains::super_of_member, crate::specs::productions::Chains::super_of_link, crate::specs::productions::Chains::construction), using(crate::proofs::Glances::beginning))]
fn chain_glance(rule: ChainRule, first: u8) -> Glance
    ensures { Says result first (chain_rule rule) }
{
    match rule {
        ChainRule::Arguments => match first {
            b'(' => Glance::Open,
            _ => Glance::Fails,
        },
        ChainRule::Index => match first {
            b'[' => Glance::Open,
            _ => Glance::Fails,
        },
        ChainRule::ImportMeta => match first {
            b'i' => Glance::Open,
            _ => Glance::Fails,
        },
        ChainRule::ImportCall => match first {
            b'i' => Glance::Open,
            _ => Glance::Fails,
        },
        ChainRule::SuperOfMember => match first {
            b's' => Glance::Open,
            _ => Glance::Fails,
        },
        ChainRule::SuperOfLink => match first {
            b's' => Glance::Open,
            _ => Glance::Fails,
        },
        ChainRule::Construction => match first {
            b'n' => Glance::Open,
            _ => Glance::Fails,
        },
        ChainRule::Links => match first {
            b'.' | b'?' | b'[' | b'(' | b'`' | b'!' | b'<' => Glance::Open,
            _ => Glance::Passes,
        },
        _ => Glance::Open,
    }
}

#[tactic(auto, unfolding(crate::specs::productions::Primary::spread, crate::specs::productions::Primary::array, crate::specs::productions::Primary::object, crate::specs::productions::Primary::parenthesized, crate::specs::productions::Primary::class_expression, crate::specs::productions::Primary::template))]
fn primary_glance(rule: PrimaryRule, first: u8) -> Glance
    ensures { Says result first (primary_rule rule) }
{
    match rule {
        PrimaryRule::Primary => primary_glance_first(first),
        PrimaryRule::Spread => match first {
            b'.' => Glance::Open,
            _ => Glance::Fails,
        },
        PrimaryRule::Array => match first {
            b'[' => Glance::Open,
            _ => Glance::Fails,
        },
        PrimaryRule::Object => match first {
            b'{' => Glance::Open,
            _ => Glance::Fails,
        },
        PrimaryRule::Parenthesized => match first {
            b'(' => Glance::Open,
            _ => Glance::Fails,
        },
        PrimaryRule::ClassExpression => match first {
            b'c' => Glance::Open,
            _ => Glance::Fails,
        },
        PrimaryRule::Template { .. } => match first {
            b'`' => Glance::Open,
            _ => Glance::Fails,
        },
        _ => Glance::Open,
    }
}

#[tactic(auto, unfolding(crate::specs::productions::Functions::function_expression, crate::specs::productions::Functions::function_declaration, crate::specs::productions::Functions::getter_property, crate::specs::productions::Functions::setter_property))]
fn function_glance(rule: FunctionRule, first: u8) -> Glance
    ensures { Says result first (function_rule rule) }
{
    match rule {
        FunctionRule::FunctionExpression => match first {
            b'a' | b'f' => Glance::Open,
            _ => Glance::Fails,
        },
        FunctionRule::FunctionDeclaration => match first {
            b'a' | b'f' => Glance::Open,
            _ => Glance::Fails,
        },
        FunctionRule::GetterProperty => match first {
            b'g' => Glance::Open,
            _ => Glance::Fails,
        },
        FunctionRule::SetterProperty => match first {
            b's' => Glance::Open,
            _ => Glance::Fails,
        },
        _ => Glance::Open,
    }
}

#[tactic(auto, unfolding(crate::specs::productions::Classes::class_declaration, crate::specs::productions::Classes::abstract_class_declaration))]
fn class_glance(rule: ClassRule, first: u8) -> Glance
    ensures { Says result first (class_rule rule) }
{
    match rule {
        ClassRule::ClassDeclaration => match first {
            b'c' => Glance::Open,
            _ => Glance::Fails,
        },
        ClassRule::AbstractClassDeclaration => match first {
            b'a' => Glance::Open,
            _ => Glance::Fails,
        },
        _ => Glance::Open,
    }
}

#[tactic(auto, unfolding(crate::specs::productions::Statements::if_, crate::specs::productions::Statements::for_await, crate::specs::productions::Statements::for_, crate::specs::productions::Statements::while_, crate::specs::productions::Statements::do_while, crate::specs::productions::Statements::switch, crate::specs::productions::Statements::try_, crate::specs::productions::Statements::jump))]
fn statement_glance(rule: StatementRule, first: u8) -> Glance
    ensures { Says result first (statement_rule rule) }
{
    match rule {
        StatementRule::Statement => statement_glance_first(first),
        StatementRule::If => match first {
            b'i' => Glance::Open,
            _ => Glance::Fails,
        },
        StatementRule::ForAwait => match first {
            b'f' => Glance::Open,
            _ => Glance::Fails,
        },
        StatementRule::For => match first {
            b'f' => Glance::Open,
            _ => Glance::Fails,
        },
        StatementRule::While => match first {
            b'w' => Glance::Open,
            _ => Glance::Fails,
        },
        StatementRule::DoWhile => match first {
            b'd' => Glance::Open,
            _ => Glance::Fails,
        },
        StatementRule::Switch => match first {
            b's' => Glance::Open,
            _ => Glance::Fails,
        },
        StatementRule::Try => match first {
            b't' => Glance::Open,
            _ => Glance::Fails,
        },
        StatementRule::Jump => match first {
            b'r' | b'b' | b'c' | b't' | b'd' => Glance::Open,
            _ => Glance::Fails,
        },
        _ => Glance::Open,
    }
}

#[tactic(auto, unfolding(crate::specs::productions::Declarations::type_alias, crate::specs::productions::Declarations::interface, crate::specs::productions::Declarations::enum_, crate::specs::productions::Declarations::enum_rest, crate::specs::productions::Declarations::namespace), using(crate::proofs::Glances::beginning))]
fn declaration_glance(rule: DeclarationRule, first: u8) -> Glance
    ensures { Says result first (declaration_rule rule) }
{
    match rule {
        DeclarationRule::TypeAlias => match first {
            b't' => Glance::Open,
            _ => Glance::Fails,
        },
        DeclarationRule::Interface => match first {
            b'i' => Glance::Open,
            _ => Glance::Fails,
        },
        DeclarationRule::Enum => match first {
            b'c' | b'e' => Glance::Open,
            _ => Glance::Fails,
        },
        DeclarationRule::Namespace => match first {
            b'n' | b'm' | b'g' => Glance::Open,
            _ => Glance::Fails,
        },
        DeclarationRule::Declaration => match first {
            b'v' | b'l' | b'c' | b'a' | b'f' | b't' | b'i' | b'e' | b'n' | b'm' | b'g' | b'd' =>
                Glance::Open,
            _ => Glance::Fails,
        },
        _ => Glance::Open,
    }
}

#[tactic(auto, unfolding(crate::specs::productions::Modules::import, crate::specs::productions::Modules::import_equals, crate::specs::productions::Modules::export, crate::specs::productions::Modules::export_default))]
fn module_glance(rule: ModuleRule, first: u8) -> Glance
    ensures { Says result first (module_rule rule) }
{
    match rule {
        ModuleRule::ModuleItem => module_item_glance(first),
        ModuleRule::Import => match first {
            b'i' => Glance::Open,
            _ => Glance::Fails,
        },
        ModuleRule::ImportEquals => match first {
            b'e' | b'i' => Glance::Open,
            _ => Glance::Fails,
        },
        ModuleRule::Export => match first {
            b'e' => Glance::Open,
            _ => Glance::Fails,
        },
        _ => Glance::Open,
    }
}

#[tactic(auto, unfolding(crate::specs::productions::Types::type_params, crate::specs::productions::Types::type_args, crate::specs::productions::Types::some_annotation, crate::specs::productions::Types::some_return_annotation, crate::specs::productions::Types::call_signature, crate::specs::productions::Types::new_signature, crate::specs::productions::Types::function_type, crate::specs::productions::Types::parenthesized_params, crate::specs::productions::Types::import_type, crate::specs::productions::Types::mapped_type, crate::specs::productions::Types::object_type, crate::specs::productions::Types::template_type), using(crate::proofs::Glances::beginning))]
fn type_glance(rule: TypeRule, first: u8) -> Glance
    ensures { Says result first (type_rule rule) }
{
    match rule {
        TypeRule::PrimaryType => primary_type_glance(first),
        TypeRule::TypeOperator => type_operator_glance(first),
        TypeRule::ParameterModifier => match first {
            b'p' | b'r' | b'o' => Glance::Open,
            _ => Glance::Fails,
        },
        TypeRule::TypeParams => match first {
            b'<' => Glance::Open,
            _ => Glance::Fails,
        },
        TypeRule::TypeArgs => match first {
            b'<' => Glance::Open,
            _ => Glance::Fails,
        },
        TypeRule::SomeAnnotation => match first {
            b':' => Glance::Open,
            _ => Glance::Fails,
        },
        TypeRule::SomeReturnAnnotation => match first {
            b':' => Glance::Open,
            _ => Glance::Fails,
        },
        TypeRule::FunctionType => match first {
            b'a' | b'n' | b'<' | b'(' => Glance::Open,
            _ => Glance::Fails,
        },
        TypeRule::ImportType => match first {
            b'i' => Glance::Open,
            _ => Glance::Fails,
        },
        TypeRule::MappedType => match first {
            b'{' => Glance::Open,
            _ => Glance::Fails,
        },
        TypeRule::ObjectType => match first {
            b'{' => Glance::Open,
            _ => Glance::Fails,
        },
        TypeRule::TemplateType => match first {
            b'`' => Glance::Open,
            _ => Glance::Fails,
        },
        _ => Glance::Open,
    }
}

#[tactic(auto, unfolding(crate::specs::productions::Statements::statement_body, crate::specs::productions::Names::block, crate::specs::productions::Statements::if_, crate::specs::productions::Statements::for_await, crate::specs::productions::Statements::for_, crate::specs::productions::Statements::while_, crate::specs::productions::Statements::do_while, crate::specs::productions::Statements::switch, crate::specs::productions::Statements::try_, crate::specs::productions::Statements::jump, crate::specs::productions::Statements::labeled), using(crate::proofs::Glances::choosing))]
fn statement_glance_first(first: u8) -> Glance
    ensures { Says result first statement_body }
{
    match first {
        b'{' => Glance::Open,
        b';' => Glance::Remains(&FROM_EMPTY_BODY),
        b'i' => Glance::Remains(&FROM_IF_BODY),
        b'f' => Glance::Remains(&FROM_FOR_BODY),
        b'w' => Glance::Remains(&FROM_WHILE_BODY),
        b'd' => Glance::Remains(&FROM_DO_WHILE_BODY),
        b's' => Glance::Remains(&FROM_SWITCH_BODY),
        b't' => Glance::Remains(&FROM_TRY_BODY),
        b'r' | b'b' | b'c' => Glance::Remains(&FROM_JUMP_BODY),
        _ => Glance::Remains(&FROM_LABELED_BODY),
    }
}

#[tactic(auto, unfolding(crate::specs::productions::Primary::primary, crate::specs::productions::Functions::function_expression, crate::specs::productions::Primary::class_expression), using(crate::proofs::Glances::choosing))]
fn primary_glance_first(first: u8) -> Glance
    ensures { Says result first primary }
{
    match first {
        b'f' | b'a' => Glance::Open,
        b'c' => Glance::Remains(&FROM_CLASS_BODY),
        b't' => Glance::Remains(&FROM_THIS_BODY),
        b'n' => Glance::Remains(&FROM_NULL_BODY),
        _ => Glance::Remains(&FROM_NAME_BODY),
    }
}

#[tactic(auto, unfolding(crate::specs::productions::Types::primary_type, crate::specs::productions::Types::mapped_type, crate::specs::productions::Types::object_type, crate::specs::productions::Types::template_type, crate::specs::productions::Types::import_type), using(crate::proofs::Glances::choosing))]
fn primary_type_glance(first: u8) -> Glance
    ensures { Says result first primary_type }
{
    if first.is_ascii_digit() {
        return Glance::Remains(&FROM_NUMBER_TYPE_BODY);
    }
    match first {
        b'(' => Glance::Open,
        b'[' => Glance::Remains(&FROM_TUPLE_TYPE_BODY),
        b'{' => Glance::Remains(&FROM_OBJECT_TYPE_BODY),
        b'`' => Glance::Remains(&FROM_TEMPLATE_TYPE_BODY),
        b'"' | b'\'' => Glance::Remains(&FROM_STRING_TYPE_BODY),
        b'-' | b'.' => Glance::Remains(&FROM_NUMBER_TYPE_BODY),
        b'v' => Glance::Remains(&FROM_VOID_TYPE_BODY),
        b'n' => Glance::Remains(&FROM_NULL_TYPE_BODY),
        b't' => Glance::Remains(&FROM_TRUE_TYPE_BODY),
        b'f' => Glance::Remains(&FROM_FALSE_TYPE_BODY),
        b'i' => Glance::Remains(&FROM_IMPORT_TYPE_BODY),
        _ => Glance::Remains(&TYPE_REFERENCE_BODY),
    }
}

#[tactic(auto, unfolding(crate::specs::productions::Types::type_operator_body), using(crate::proofs::Glances::choosing))]
fn type_operator_glance(first: u8) -> Glance
    ensures { Says result first type_operator_body }
{
    match first {
        b'k' | b'u' | b'r' => Glance::Open,
        b'i' => Glance::Remains(&FROM_INFER_BODY),
        _ => Glance::Remains(&SUFFIXED_TYPE_BODY),
    }
}

#[tactic(auto, unfolding(crate::specs::productions::Modules::module_item, crate::specs::productions::Modules::import, crate::specs::productions::Modules::import_equals, crate::specs::productions::Modules::export), using(crate::proofs::Glances::choosing))]
fn module_item_glance(first: u8) -> Glance
    ensures { Says result first module_item }
{
    match first {
        b'i' => Glance::Open,
        b'e' => Glance::Remains(&FROM_IMPORT_EQUALS_BODY),
        _ => Glance::Remains(&STATEMENT_ITEM_BODY),
    }
}

/// What is known of the production of a name.
pub fn rule_glance(rule: Rule, first: u8) -> Glance
    ensures { Says result first (rule_grammar rule) }
{
    match rule {
        Rule::Type(rule) => type_glance(rule, first),
        Rule::Function(rule) => function_glance(rule, first),
        Rule::Primary(rule) => primary_glance(rule, first),
        Rule::Chain(rule) => chain_glance(rule, first),
        Rule::Operator(rule) => operator_glance(rule, first),
        Rule::Expression(rule) => expression_glance(rule, first),
        Rule::Class(rule) => class_glance(rule, first),
        Rule::Declaration(rule) => declaration_glance(rule, first),
        Rule::Statement(rule) => statement_glance(rule, first),
        Rule::Module(rule) => module_glance(rule, first),
        Rule::Name(_) | Rule::Pattern(_) => Glance::Open,
    }
}
