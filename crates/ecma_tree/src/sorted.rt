//! Which nodes have a shape, and so are of a sort.
ghost use Rattle.std.specs.Prelude.{◌≡◌, ◌↔◌, ◌<◌, length, slice_get, IsTrue, Some};
ghost use Rattle.ecma_tree.specs.Sorted.{HasSort, allows, child_shapes, has_shape, is_absent, is_list, item_shape, one};

use crate::node::Node;
use ecma_kind::{Count, Kind, Shape, Sort, belongs, field_shapes};

fn is_absent(kind: &Kind) -> bool
    ensures { result ≡ is_absent kind.now }
{
    matches!(kind, Kind::Absent)
}

fn is_list(kind: &Kind) -> bool
    ensures { result ≡ is_list kind.now }
{
    matches!(kind, Kind::List)
}

/// Whether a node of a shape may have this kind.
fn allows(shape: Shape, kind: &Kind) -> bool
    ensures { result ≡ allows shape kind.now }
{
    match shape.count {
        Count::One => belongs(shape.sort, kind),
        Count::Maybe => is_absent(kind) || belongs(shape.sort, kind),
        Count::Many => is_list(kind),
        Count::MaybeMany => is_absent(kind) || is_list(kind),
        Count::Holes => is_list(kind),
    }
}

fn one(sort: Sort) -> Shape
    ensures { result ≡ one sort }
{
    Shape {
        count: Count::One,
        sort,
    }
}

/// The shape of each item of a list of this shape.
fn item_shape(shape: Shape) -> Shape
    ensures { result ≡ item_shape shape }
{
    let count = match shape.count {
        Count::Holes => Count::Maybe,
        _ => Count::One,
    };
    Shape {
        count,
        sort: shape.sort,
    }
}

/// Whether a node of that kind may have so many children.
fn may_have(kind: &Kind, shape: Shape, count: usize) -> bool
    ensures { IsTrue result ↔ (length (child_shapes kind.now shape count) ≡ count) }
{
    match kind {
        Kind::List => true,
        Kind::SeqExpr => count > 0,
        _ => field_shapes(kind).len() == count,
    }
}

/// The shape that a node of that kind and shape asks of its child at an index.
fn child_shape(kind: &Kind, shape: Shape, count: usize, index: usize) -> Shape
    requires within { index < count }
    requires count { length (child_shapes kind.now shape count) ≡ count }
    ensures { slice_get (child_shapes kind.now shape count) index ≡ Some result }
{
    match kind {
        Kind::List => item_shape(shape),
        Kind::SeqExpr => one(Sort::Expr),
        _ => field_shapes(kind)[index].shape,
    }
}

/// Whether a node has a shape: the shape allows its kind, and each child has the shape that the kind asks of it, with no child too few and
/// none too many.
pub fn has_shape(node: &Node, shape: Shape) -> bool
    ensures { result ≡ has_shape node.now shape }
{
    let count = node.children.len();
    if !allows(shape, &node.kind) {
        return false;
    }
    if !may_have(&node.kind, shape, count) {
        return false;
    }
    for i in 0..count {
        let below = child_shape(&node.kind, shape, count, i);
        if !has_shape(node.children.at(i), below) {
            return false;
        }
    }
    true
}

/// Whether a node is of a sort: its kind is one of the sort's, and each child has the shape that the kind asks of it.
pub fn has_sort(node: &Node, sort: Sort) -> bool
    ensures { IsTrue result ↔ HasSort sort node.now }
{
    has_shape(node, one(sort))
}
