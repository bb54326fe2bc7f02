//! Seats: what a node is there for.
ghost use Rattle.std.specs.Prelude.{◌≡◌, ◌<◌, length};
ghost use Rattle.ecma_tree.specs.declared.node.Node.{out-Node};
ghost use Rattle.ecma_tree.specs.NodeRefs.{nodes_of};
ghost use Rattle.ecma_tree.specs.Sorted.{item_shape, one};
ghost use Rattle.ecma_walks.specs.Seats.{is_expression, is_shorthand, root_seat, seat_at, seats_expressions, seats_properties};

use ecma_tree::{Count, Kind, Node, NodeRef, Shape, Sort, belongs, field_shapes};
use std::slice;

fn one(sort: Sort) -> Shape
    ensures { result ≡ one sort }
{
    Shape {
        count: Count::One,
        sort,
    }
}

/// The seat of each item of a list that has this seat.
fn item_seat(seat: Shape) -> Shape
    ensures { result ≡ item_shape seat }
{
    let count = match seat.count {
        Count::Holes => Count::Maybe,
        _ => Count::One,
    };
    Shape {
        count,
        sort: seat.sort,
    }
}

/// The seat of a node's child at an index, where the node itself has this seat: what the child is there for. `None` exactly where
/// nodes of the kind have no child there.
pub fn seat_at(seat: Shape, node: &Node, index: usize) -> Option<Shape>
    requires { index < length (out-Node node.now).children }
    ensures { result ≡ seat_at seat node.now index }
{
    match &node.kind {
        Kind::List => Some(item_seat(seat)),
        Kind::SeqExpr => Some(one(Sort::Expr)),
        kind => Some(field_shapes(kind).get(index)?.shape),
    }
}

/// The seat of the nodes that are referred to: it says what they are taken for. An arrow function is an expression.
pub fn root_seat(part: NodeRef<'_>) -> Shape
    ensures { result ≡ root_seat part.entry }
{
    let sort = match part {
        NodeRef::Module(_) => Sort::Module,
        NodeRef::Item(_) | NodeRef::Items(_) => Sort::ModuleItem,
        NodeRef::Stmt(_) | NodeRef::Stmts(_) => Sort::Stmt,
        NodeRef::Expr(_) | NodeRef::Arrow(_) => Sort::Expr,
        NodeRef::Pat(_) => Sort::Pat,
        NodeRef::Function(_) => Sort::Function,
        NodeRef::Class(_) => Sort::Class,
        NodeRef::VarDecl(_) => Sort::Decl,
    };
    one(sort)
}

/// The nodes that are referred to, in order.
pub fn nodes(part: NodeRef<'_>) -> &[Node]
    ensures { result.now ≡ nodes_of part.entry }
{
    match part {
        NodeRef::Items(nodes) | NodeRef::Stmts(nodes) => nodes,
        NodeRef::Module(node)
        | NodeRef::Item(node)
        | NodeRef::Stmt(node)
        | NodeRef::Expr(node)
        | NodeRef::Pat(node)
        | NodeRef::Function(node)
        | NodeRef::Arrow(node)
        | NodeRef::Class(node)
        | NodeRef::VarDecl(node) => slice::from_ref(node),
    }
}

/// Whether expressions sit in a seat of this sort.
fn seats_expressions(sort: Sort) -> bool
    ensures { result ≡ seats_expressions sort }
{
    matches!(
        sort,
        Sort::Expr
            | Sort::ExprOrSpread
            | Sort::Callee
            | Sort::BlockStmtOrExpr
            | Sort::VarDeclOrExpr
            | Sort::ForHead
            | Sort::Pat
    )
}

/// Whether a node of this kind is an expression where it stands: no label, declared name, key, property or plain name that is
/// assigned to, which are asked for as such.
pub fn is_expression(seat: Shape, kind: &Kind) -> bool
    ensures { result ≡ is_expression seat kind.now }
{
    seats_expressions(seat.sort) && belongs(Sort::Expr, kind)
}

fn seats_properties(sort: Sort) -> bool
    ensures { result ≡ seats_properties sort }
{
    matches!(sort, Sort::PropOrSpread | Sort::Prop)
}

/// Whether a node of this kind is a property that is a name alone, as in `{ a }`.
pub fn is_shorthand(seat: Shape, kind: &Kind) -> bool
    ensures { result ≡ is_shorthand seat kind.now }
{
    seats_properties(seat.sort) && matches!(kind, Kind::Ident { .. })
}
