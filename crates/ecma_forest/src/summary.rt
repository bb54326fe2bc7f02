//! What stands somewhere in a tree, summed up, so that a walk need not look for it below.
ghost use Rattle.std.specs.Prelude.{◌≡◌, ◌<◌};
ghost use Rattle.ecma_forest.specs.Sets.{sets_of};
ghost use Rattle.ecma_forest.specs.Summaries.{empty_summary, join_summaries, kind_summary};

use ecma_tree::{AssignOp, Kind};
use std::marker::Model;

const TYPES: u8 = 1;

const ENUMS: u8 = 2;

const NAMESPACES: u8 = 4;

const PARAM_PROPS: u8 = 8;

const PATTERNS: u8 = 16;

const SCOPES: u8 = 32;

const FUNCTIONS: u8 = 64;

const NAMES: u8 = 128;

/// What stands somewhere in a tree, at its root or anywhere below it: for each of some sets of kinds whether one of it does. Contracts
/// see it as a record of them; it takes a byte.
#[derive(Clone, Copy, Debug)]
pub struct Summary {
    sets: u8,
}

impl Model for Summary {
    ghost use Rattle.std.specs.Prelude.{◌<◌};
    ghost use Rattle.ecma_forest.specs.Sets.{Sets, byte_of, sets_of};
    ghost use Rattle.ecma_forest.specs.Bytes.{byte_of-sets_of};

    ghost Value = { Sets };

    ghost view = { λ summary. sets_of summary.sets };

    ghost invariant = { λ summary. summary.sets < 256 };

    ghost inverse = { λ sets. record { sets = byte_of sets } };

    ghost inverse_ok = { λ summary h i. record { sets = byte_of-sets_of summary.sets h i } };
}

impl Summary {
    fn of(sets: u8) -> Summary
        ensures { result ≡ sets_of sets }
    {
        Summary { sets }
    }

    /// That of a tree in which nothing of this stands.
    pub fn empty() -> Summary
        ensures { result ≡ empty_summary }
    {
        Summary { sets: 0 }
    }

    /// That of two trees together.
    pub fn join(self, other: Summary) -> Summary
        ensures { result ≡ join_summaries self other }
    {
        Summary {
            sets: self.sets | other.sets,
        }
    }

    /// Whether there are types: annotations, parameters and arguments of types, or what stands for a type.
    pub fn types(self) -> bool
        ensures { result ≡ self.types }
    {
        self.sets / TYPES % 2 == 1
    }

    /// Whether enums are declared.
    pub fn enums(self) -> bool
        ensures { result ≡ self.enums }
    {
        self.sets / ENUMS % 2 == 1
    }

    /// Whether namespaces or ambient modules are declared.
    pub fn namespaces(self) -> bool
        ensures { result ≡ self.namespaces }
    {
        self.sets / NAMESPACES % 2 == 1
    }

    /// Whether parameters declare properties.
    pub fn param_props(self) -> bool
        ensures { result ≡ self.param_props }
    {
        self.sets / PARAM_PROPS % 2 == 1
    }

    /// Whether there is what may have a pattern that was read as a literal: an assignment with `=`, or a loop over keys or an iterator.
    pub fn patterns(self) -> bool
        ensures { result ≡ self.patterns }
    {
        self.sets / PATTERNS % 2 == 1
    }

    /// Whether there is what may open a scope.
    pub fn scopes(self) -> bool
        ensures { result ≡ self.scopes }
    {
        self.sets / SCOPES % 2 == 1
    }

    /// Whether there are functions: what has parameters and a body of its own.
    pub fn functions(self) -> bool
        ensures { result ≡ self.functions }
    {
        self.sets / FUNCTIONS % 2 == 1
    }

    /// Whether there are identifiers that name variables.
    pub fn names(self) -> bool
        ensures { result ≡ self.names }
    {
        self.sets / NAMES % 2 == 1
    }
}

/// The summary of a node of this kind without what stands below it.
pub fn kind_summary(kind: &Kind) -> Summary
    ensures { result ≡ kind_summary kind.now }
{
    match kind {
        Kind::TsTypeAnn | Kind::TsType | Kind::TsTypeParamDecl | Kind::TsTypeParamInstantiation =>
            Summary::of(TYPES),
        Kind::TsEnumDecl { .. } => Summary::of(ENUMS + SCOPES),
        Kind::TsModuleDecl { .. } => Summary::of(NAMESPACES),
        Kind::TsNamespaceDecl { .. } => Summary::of(NAMESPACES + SCOPES),
        Kind::TsParamProp { .. } => Summary::of(PARAM_PROPS),
        Kind::AssignExpr { op } => match op {
            AssignOp::Assign => Summary::of(PATTERNS),
            _ => Summary::empty(),
        },
        Kind::ForInStmt | Kind::ForOfStmt { .. } => Summary::of(PATTERNS + SCOPES),
        Kind::Module { .. }
        | Kind::Script { .. }
        | Kind::TsModuleBlock
        | Kind::FnExpr
        | Kind::ClassExpr
        | Kind::ClassDecl { .. }
        | Kind::BlockStmt
        | Kind::SwitchStmt
        | Kind::ForStmt
        | Kind::CatchClause => Summary::of(SCOPES),
        Kind::Function { .. }
        | Kind::ArrowExpr { .. }
        | Kind::Constructor { .. }
        | Kind::GetterProp
        | Kind::SetterProp => Summary::of(SCOPES + FUNCTIONS),
        Kind::Ident { .. } => Summary::of(NAMES),
        _ => Summary::empty(),
    }
}
