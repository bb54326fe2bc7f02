//! Laws of a module as it is read without what the options drop of its imports and exports, over its definition alone.
//!
//! Each function carries one law, and does nothing. The laws are stated in `specs/Laws.antt`.
ghost use Rattle.ecma_elide_sources.specs.Laws.{ElidedSourcesAreRead, ElidedSourcesAreTaken, ElidedSourcesNeedNoLowering, ElidedSourcesTakeAsManyContexts, ElidingKeepsNamesShort, ElidingMakesNoNames, KeptSourcesStay};

/// A tree as it is read is one without what the options drop of its imports and exports, asked of it with its bindings.
pub fn elided_sources_are_read()
    ensures { ElidedSourcesAreRead }
{}

/// Where nothing has to be lowered but what goes with the types, nothing has without what the options drop.
pub fn elided_sources_need_no_lowering()
    ensures { ElidedSourcesNeedNoLowering }
{}

/// Where each form of a tree is taken, but of what goes with the types, each is without what the options drop.
pub fn elided_sources_are_taken()
    ensures { ElidedSourcesAreTaken }
{}

/// Where no identifier is long, none is without what the options drop.
pub fn eliding_keeps_names_short()
    ensures { ElidingKeepsNamesShort }
{}

/// Where no identifier is made, none is without what the options drop.
pub fn eliding_makes_no_names()
    ensures { ElidingMakesNoNames }
{}

/// A module that fits takes as many contexts without what the options drop.
pub fn elided_sources_take_as_many_contexts()
    ensures { ElidedSourcesTakeAsManyContexts }
{}

/// A module without contexts of which nothing may go, or under `verbatim_module_syntax`, stays as it is.
pub fn kept_sources_stay()
    ensures { KeptSourcesStay }
{}
