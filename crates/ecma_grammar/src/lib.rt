//! The grammar of the language as data.
//!
//! A production is a value, [`Production`]; the productions stand in `src/productions`, word for word as the definitions in
//! `specs/productions` have them. `specs/Reads.antt` says what a grammar reads, and `specs/Made.antt` what nodes are made of it.
#![tactic(auto)]

mod error;
mod production;
mod productions;

pub use error::RawError;
pub use production::{
    Flag, Form, Leaf, Link, Mode, Part, Plain, Production, Rule, TemplatePart, Terminal, TokenKind,
};
pub use productions::{
    ChainRule, ClassRule, DeclarationRule, ExpressionRule, FunctionRule, Glance, ModuleRule,
    NameRule, OperatorRule, PatternRule, PrimaryRule, StatementRule, Tail, TypeRule, links_tail,
    module_body, operator_tails, part_body, rule_body, rule_glance,
};
