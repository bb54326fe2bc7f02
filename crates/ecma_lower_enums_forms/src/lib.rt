//! Of a module with its enums written, nothing has to be lowered but what had to be of the module beside its enums.
//!
//! Each function carries one law over the definitions, and does nothing. The laws are stated in `specs/Laws.antt`.
#![tactic(auto)]

ghost use Rattle.ecma_lower_enums_forms.specs.Laws.{WrittenEnumsNeedNoLowering};

/// Where enums are all of a module that has to be lowered, nothing has to be once they are written.
pub fn written_enums_need_no_lowering()
    ensures { WrittenEnumsNeedNoLowering }
{}
