//! Laws of rewriting by seats, for every rewriting and whatever its seats are.
ghost use Rattle.ecma_rewriting.specs.Laws.{NodesBecome, TreesStay};
ghost use Rattle.ecma_rewriting.specs.Shapes.{ExchangesKeepShapes, NodesOfOnesKeepShapes, ShapesTurn};

/// What becomes of a node, by its kind and by what becomes of its children.
pub fn nodes_become_by_their_children<S>()
    ensures { NodesBecome S }
{}

/// A tree stays as it is where nothing is done at any of its nodes.
pub fn nothing_happens_where_nothing_is_done<S>()
    ensures { TreesStay S }
{}

/// A tree becomes nodes of the shape that its seat gives it, where each node does over children that do. So a tree keeps its
/// shape where one node stands for one. A node over ones of the shapes of its children has the shape that it had.
pub fn shapes_are_kept<S>()
    ensures several { ShapesTurn S }
    ensures one { ExchangesKeepShapes S }
    ensures node { NodesOfOnesKeepShapes S }
{}
