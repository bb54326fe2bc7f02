//! The productions of the grammar, in the words of `specs/Grammar.antt`. What each reads is said in `specs/productions`, by its row and by
//! examples.
ghost use Rattle.std.specs.Prelude.{◌≡◌, false};
ghost use Rattle.ecma_grammar.specs.Rules.{rule_grammar};
ghost use Rattle.ecma_grammar.specs.Written.{is_name, written};

mod chains;
mod classes;
mod declarations;
mod expressions;
mod functions;
mod glances;
mod modules;
mod names;
mod operators;
mod parts;
mod patterns;
mod primary;
mod statements;
mod tails;
mod types;
mod words;

use crate::production::Production::{
    self, Ahead, Assigned, Behind, Build, Enter, Keep, Many, Marked, Nothing, Put, SameLine, The,
    Unless, Up,
};
use crate::production::{
    Flag, Form, Leaf, Link, Part, Plain, Rule, TemplatePart, Terminal, TokenKind,
};
pub use chains::ChainRule;
use chains::*;
pub use classes::ClassRule;
use classes::*;
pub use declarations::DeclarationRule;
use declarations::*;
use ecma_tree::{AssignOp, BinaryOp, MetaPropKind, MethodKind, UnaryOp, UpdateOp, VarDeclKind};
pub use expressions::ExpressionRule;
use expressions::*;
pub use functions::FunctionRule;
use functions::*;
pub use glances::{Glance, rule_glance};
pub use modules::ModuleRule;
use modules::*;
pub use names::NameRule;
use names::*;
pub use operators::OperatorRule;
use operators::*;
pub use parts::{module_body, part_body};
pub use patterns::PatternRule;
use patterns::*;
pub use primary::PrimaryRule;
use primary::*;
pub use statements::StatementRule;
use statements::*;
pub use tails::{Tail, links_tail, operator_tails};
pub use types::TypeRule;
use types::*;
use words::*;

/// The production of a name.
pub fn rule_body(rule: Rule) -> &'static Production
    ensures says { written result.now ≡ rule_grammar rule }
    ensures unnamed { is_name result.now ≡ false }
{
    match rule {
        Rule::Name(rule) => name_rule(rule),
        Rule::Type(rule) => type_rule(rule),
        Rule::Pattern(rule) => pattern_rule(rule),
        Rule::Function(rule) => function_rule(rule),
        Rule::Primary(rule) => primary_rule(rule),
        Rule::Chain(rule) => chain_rule(rule),
        Rule::Operator(rule) => operator_rule(rule),
        Rule::Expression(rule) => expression_rule(rule),
        Rule::Class(rule) => class_rule(rule),
        Rule::Declaration(rule) => declaration_rule(rule),
        Rule::Statement(rule) => statement_rule(rule),
        Rule::Module(rule) => module_rule(rule),
    }
}
