//! A rule, a change and a test that show what such may do.
ghost use Rattle.ecma_forest.specs.Samples.{asks_for_types, asks_for_types-law, begins_with_this, sample_rule, sample_rule-alone, unquestioned, unquestioned-keeps};

use crate::change::Change;
use crate::forest::Forest;
use crate::rewriting::Rule;
use crate::scan::Scan;
use crate::summary::Summary;
use ecma_tree::{DUMMY_SP, Kind, NoMemory, Span};

/// A type annotation is missing, type parameters go, and type arguments leave what they hold.
#[derive(Drop)]
pub struct SampleRule {}

impl Rule for SampleRule {
    ghost rule = { λ _. sample_rule };

    ghost works_at = { λ _. asks_for_types };

    fn works_at(&self, summary: Summary) -> bool {
        summary.types()
    }

    fn apply(&self, forest: &mut Forest, at: u32, start: usize) -> Result<(), NoMemory> {
        match forest.kind(at) {
            Kind::TsTypeAnn => {
                forest.cut(start);
                forest.wrap(DUMMY_SP, Kind::Absent, start)
            }
            Kind::TsTypeParamDecl => {
                forest.cut(start);
                Ok(())
            }
            Kind::TsTypeParamInstantiation => Ok(()),
            _ => forest.wrap_same(at, start),
        }
    }

    ghost joins = { λ _. asks_for_types-law };

    ghost others_stay = { λ _. sample_rule-alone };
}

/// No identifier has a question mark.
#[derive(Drop)]
pub struct Unquestioned {}

impl Change for Unquestioned {
    ghost kind_to = { λ _. unquestioned };

    fn change(&self, kind: &mut Kind) {
        if let Kind::Ident { optional, .. } = kind {
            *optional = false;
        }
    }

    ghost keeps = { λ _. unquestioned-keeps };
}

/// Whether the leftmost leaf is `this`.
#[derive(Drop)]
pub struct BeginsWithThis {}

impl Scan<bool> for BeginsWithThis {
    ghost step = { λ _. begins_with_this };

    fn step(&self, _span: Span, kind: &Kind, children: &[bool]) -> bool {
        matches!(kind, Kind::ThisExpr) || matches!(children.first(), Some(true))
    }
}
