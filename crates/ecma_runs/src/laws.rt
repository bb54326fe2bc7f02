//! The laws of `observe`, each the contract of a function that does nothing.
ghost use Rattle.ecma_runs.specs.Laws.{SpansAndSourcesDoNotMatter, TypesDoNotMatter, WrappersDoNotMatter, ParenthesesDoNotMatter, NamesDoNotMatter, NamesMayMeet, SpareTurnsDoNotMatter, CallsAreApplications, EventsOnlyGrow, DeclarationsAloneHaveNoEvents};

/// Trees that are equal up to the places of their nodes and the source texts of their literals
/// run alike.
pub fn spans_and_sources_do_not_matter()
    ensures { SpansAndSourcesDoNotMatter }
{}

/// A tree runs as it does without its types.
pub fn types_do_not_matter()
    ensures { TypesDoNotMatter }
{}

/// A tree runs as it does without the types that wrap expressions, wherever they stand: `e as T`,
/// `<T>e`, `e as const`, `e!`, `e<T>` and `e satisfies T` mean `e`.
pub fn wrappers_do_not_matter()
    ensures { WrappersDoNotMatter }
{}

/// A tree without enums runs as it does without parentheses that end no optional chain.
pub fn parentheses_do_not_matter()
    ensures { ParenthesesDoNotMatter }
{}

/// A tree without enums runs as it does with other names, where free ones and those that are keys
/// keep their texts.
pub fn names_do_not_matter()
    ensures { NamesDoNotMatter }
{}

/// So it does where several names become one, as long as no identifier is caught.
pub fn names_may_meet()
    ensures { NamesMayMeet }
{}

/// A run that did not want for turns is the same with more of them.
pub fn spare_turns_do_not_matter()
    ensures { SpareTurnsDoNotMatter }
{}

/// A call is a turn, and then what the function does: the depth by which calls are defined does not
/// matter.
pub fn calls_are_applications()
    ensures { CallsAreApplications }
{}

/// The events before a part of a run are the first of those behind it.
pub fn events_only_grow()
    ensures { EventsOnlyGrow }
{}

/// A module without members, calls and enums has no events, as long as the host does nothing with it.
pub fn declarations_alone_have_no_events()
    ensures { DeclarationsAloneHaveNoEvents }
{}
