//! The walk.
ghost use Rattle.std.specs.Prelude.{◌≡◌, ◌++◌, IfOk, OnOk, Some, true};
ghost use Rattle.std.specs.Option.{is_some};
ghost use Rattle.ecma_tree.specs.Nodes.{node_of};
ghost use Rattle.ecma_tree.specs.Sorted.{is_list};
ghost use Rattle.ecma_tree.specs.declared.node.Node.{out-Node};
ghost use Rattle.ecma_rewriting.specs.Laws as law;
ghost use Rattle.ecma_rewriting.specs.Rewriting.{becomes};
ghost use Rattle.ecma_rewriter.specs.Seats.{around_or, item_becomes, seat, seat_behind};

use crate::steps::Rewriter;
use ecma_tree::{Kind, NoMemory, Node, Nodes};
use item_list::ItemList;
use std::alloc::Global;

fn is_list(node: &Node) -> bool
    ensures { result ≡ is_list (out-Node node.now).kind }
{
    matches!(node.kind, Kind::List)
}

fn around_or<'a, A>(around: &'a A, own: &'a Option<A>) -> &'a A
    ensures { result.now ≡ around_or around.now own.now }
{
    match own {
        Some(own) => own,
        None => around,
    }
}

/// Puts what an item of a list becomes behind the others, and what it brings around those behind it.
#[cycle(rewriting)]
fn rewrite_item<R: Rewriter>(
    alloc: Global,
    r: &R,
    place: R::Place,
    around: &R::Around,
    own: &mut Option<R::Around>,
    out: &mut Nodes,
    item: Node,
) -> Result<(), NoMemory>
    requires { is_some own.old ≡ R.moves r.now place }
    ensures out { OnOk result (out.new ≡ out.old ++ item_becomes (R.rewriting r.now) (seat place (around_or around.now own.old)) item) }
    ensures seat { OnOk result (seat place (around_or around.now own.new)
        ≡ seat_behind (R.rewriting r.now) (seat place (around_or around.now own.old)) item) }
    ensures moves { OnOk result (is_some own.new ≡ is_some own.old) }
{
    if !r.keeps(&item) {
        out.append(r.unkept(alloc, place, around_or(around, own), item)?)?;
        return Ok(());
    }
    match own {
        Some(own) => {
            let brought = r.brings(alloc, place, &item)?;
            out.append(rewrite(alloc, r, place, own, item)?)?;
            r.bring(own, brought)
        }
        None => {
            out.append(rewrite(alloc, r, place, around, item)?)?;
            Ok(())
        }
    }
}

/// What the items of a list become.
#[cycle(rewriting)]
fn rewrite_items<R: Rewriter>(
    alloc: Global,
    r: &R,
    place: R::Place,
    around: &R::Around,
    list: Node,
) -> Result<Nodes, NoMemory>
    ensures { IfOk result (λ nodes. nodes ≡ law.items (R.rewriting r.now) (seat place around.now) (out-Node list).children) }
{
    let mut parts = list.children;
    let mut own = r.own_around(alloc, place, around)?;
    let mut out = Nodes::new(alloc);
    for i in 0..parts.len() {
        let item = parts.replace(i, Node::absent(alloc));
        rewrite_item(alloc, r, place, around, &mut own, &mut out, item)?;
    }
    Ok(out)
}

/// What a node of this form becomes, with this around its children.
#[cycle(rewriting)]
fn rewrite_over<R: Rewriter>(
    alloc: Global,
    r: &R,
    by: R::Form,
    place: R::Place,
    around: &R::Around,
    inside: &R::Around,
    node: Node,
) -> Result<Nodes, NoMemory>
    ensures { IfOk result (λ nodes. nodes ≡ R.written r.now by (seat place around.now) (out-Node node).span (out-Node node).kind
        (law.children (R.rewriting r.now) (λ i. seat (R.child_place r.now by place (out-Node node).kind i) inside.now) 0 (out-Node node).children)) }
{
    let mut parts = node.children;
    let mut lists = ItemList::new(alloc);
    for i in 0..parts.len() {
        let child = parts.replace(i, Node::absent(alloc));
        let below = r.child_place(&by, place, &node.kind, i);
        lists.push(rewrite(alloc, r, below, inside, child)?)?;
    }
    r.write(alloc, by, place, around, node.span, node.kind, lists)
}

/// What a node becomes in a seat.
#[cycle(rewriting)]
pub fn rewrite<R: Rewriter>(
    alloc: Global,
    r: &R,
    place: R::Place,
    around: &R::Around,
    node: Node,
) -> Result<Nodes, NoMemory>
    ensures { IfOk result (λ nodes. nodes ≡ becomes (R.rewriting r.now) (seat place around.now) node) }
{
    if is_list(&node) {
        let span = node.span;
        let items = rewrite_items(alloc, r, place, around, node)?;
        return Ok(Nodes::from_array(alloc, [Node::new(span, Kind::List, items)])?);
    }
    let Some(by) = r.form(alloc, place, around, &node)? else {
        return Ok(Nodes::from_array(alloc, [node])?);
    };
    let own = r.inside(alloc, place, around, &node)?;
    rewrite_over(alloc, r, by, place, around, around_or(around, &own), node)
}
