//! Laws of hygiene, over its definitions alone.
//!
//! Each function carries one law, and does nothing.
ghost use Rattle.ecma_hygiene.specs.Capture.{NothingIsCaptured};
ghost use Rattle.ecma_hygiene.specs.Laws.{NothingChanges, TextsTellApart};

/// Where no binding is new, and none has to change, the tree stays as it is.
#[tactic(auto, using(crate::proofs::Staying::staying))]
pub fn what_need_not_change_stays()
    ensures { NothingChanges }
{}

/// A name and a binding that are two are written with two texts: where one of them is new, where it gets another text, and
/// where the two meet. So no binding that a name meets is written as that name.
pub fn texts_tell_names_apart()
    ensures { TextsTellApart }
{}

/// Nothing is captured: from each identifier outward, the innermost scope that has a binding written as the identifier is
/// is the one that declares its id, and there is none where it is free.
pub fn nothing_is_captured()
    ensures { NothingIsCaptured }
{}
