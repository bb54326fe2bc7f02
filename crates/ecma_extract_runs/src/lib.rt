//! What `ecma_judge` extracts of an expression whose value is not wanted has the effects of the expression, by the definitions of `ecma_runs`.
//!
//! Each function carries one law, and does nothing. The laws are stated in `specs/Laws.antt`.
#![tactic(auto)]

ghost use Rattle.ecma_extract_runs.specs.Laws.{ExtractionKeepsEffects, ExtractionOfExpressionsKeepsEffects, PreservationKeepsEffects, PreservationOfExpressionsKeepsEffects, SortedExpressionsFit};

/// What is extracted of an expression that gives a value does, evaluated in order, what the expression does, but for places. Asked is that what is listed in it has
/// the sort of an element or a property, that no declared name stands where an expression is parted, that no scope around declares a name with the context of what is not resolved, and that
/// no name of the expression is that of a member of an enum.
pub fn extraction_keeps_effects()
    ensures { ExtractionKeepsEffects }
{}

/// Where expressions come to their end, what is preserved of them in front of a value does the same but for places, and then gives or throws what the value does.
pub fn preservation_keeps_effects()
    ensures { PreservationKeepsEffects }
{}

/// Nothing of this is asked of what has the sort of an expression, as each expression of a module that is read: there what is listed is an element or a property, and no declared
/// name stands for an expression.
pub fn sorted_expressions_fit()
    ensures { SortedExpressionsFit }
{}

/// So of what has that sort the first law asks only that no scope around declares a name with the context of what is not resolved, and that no name of it is that of a member of an enum.
pub fn extraction_of_expressions_keeps_effects()
    ensures { ExtractionOfExpressionsKeepsEffects }
{}

/// And so does the second, of expressions in front of whatever value.
pub fn preservation_of_expressions_keeps_effects()
    ensures { PreservationOfExpressionsKeepsEffects }
{}
