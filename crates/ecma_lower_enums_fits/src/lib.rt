//! A module that fits, with its enums written, and with reads of their members, fits.
//!
//! Each function carries one law over the definitions, and does nothing. The laws are stated in `specs/Laws.antt`.
#![tactic(auto)]

ghost use Rattle.ecma_lower_enums_fits.specs.Laws.{LoweredEnumsFit, WritingEnumsKeepsPlainTargets, WrittenEnumsFit};

/// The grammar gives a module with its enums written, and it breaks no context rule, where that holds of the module and no enum or namespace is named `arguments`.
pub fn written_enums_fit()
    ensures { WrittenEnumsFit }
{}

/// So does what `lower_enums` makes of one, where it refuses none of its numbers.
pub fn lowered_enums_fit()
    ensures { LoweredEnumsFit }
{}

/// No name is bound with a type round it, where none was.
pub fn writing_enums_keeps_plain_targets()
    ensures { WritingEnumsKeepsPlainTargets }
{}
