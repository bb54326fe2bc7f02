//! What the initialiser of a member is folded against.
ghost use Rattle.std.specs.Prelude.{◌≡◌};
ghost use Rattle.ecma_enums.specs.Folded.{Answers, answer};
ghost use Rattle.ecma_enums.specs.Folding.{folded};

use crate::error::EnumError;
use crate::folded::answer;
use crate::folding::fold;
use crate::record::TsEnumRecord;
use crate::value::TsEnumRecordValue;
use ecma_tree::{Expr, Id, Mark};
use std::alloc::Global;

/// What the initialiser of a member is folded against.
#[derive(Debug, Drop)]
pub struct EnumValueComputer {
    /// The id of the member's enum.
    pub enum_id: Id,
    /// The mark of the names that no scope declares: `NaN` and `Infinity` are numbers in its context.
    pub unresolved_mark: Mark,
    /// The members that stand before in the text, of all enums but ambient ones.
    pub members: TsEnumRecord,
}

impl EnumValueComputer {
    /// The value of an initialiser, where it is known before the program runs: by texts, numerals, `NaN`, `Infinity`, members before it, operators on
    /// numbers, `+` with a text, templates, parentheses and types. `EnumNumber` comes exactly where the initialiser, or an operand or a part of a
    /// template that folding reaches, has a number beyond those that are computed; it tells the first in the text.
    #[tactic(auto, using(crate::proofs::Answering::answers_same))]
    pub fn compute(&self, alloc: Global, expr: &Expr) -> Result<TsEnumRecordValue, EnumError>
        ensures { Answers result (answer (folded self.now expr.now)) }
    {
        let folded = fold(alloc, self, expr)?;
        answer(folded)
    }
}
