//! Laws of shapes and sorts, over their definitions alone.
//!
//! Each function carries one law, and does nothing. The laws are stated in `specs/Laws.antt`.
ghost use Rattle.ecma_tree.specs.Laws.{ChangesKeepShapes, ContextsKeepSorts, ListHasShape, ListWithHolesHasShape, NodeHasShape, NodeHasSort, OptionalChildHasShape, OptionalListHasShape, SpansKeepSorts};

/// A node has a shape exactly where the shape allows its kind and its children have the shapes that the kind
/// asks of them. So a constructor of children of their sorts gives a node of its sort.
#[tactic(auto, using(crate::proofs::ShapeLaws::making))]
pub fn nodes_have_their_shape_by_their_children()
    ensures shape { NodeHasShape }
    ensures sort { NodeHasSort }
{}

/// A child that may be missing, and a list, have their shapes where the child and the items are of the sort.
#[tactic(auto, using(crate::proofs::ShapeLaws::children))]
pub fn children_have_their_shape()
    ensures optional { OptionalChildHasShape }
    ensures list { ListHasShape }
    ensures holes { ListWithHolesHasShape }
    ensures optional_list { OptionalListHasShape }
{}

/// A change of spans, and of kinds to such as may stand where these stood, keeps the shape of every tree: so do
/// dropping spans and changing contexts keep every sort. (A copy is equal, and so is of every sort that its original is of.)
pub fn changes_keep_sorts()
    ensures changes { ChangesKeepShapes }
    ensures spans { SpansKeepSorts }
    ensures contexts { ContextsKeepSorts }
{}
