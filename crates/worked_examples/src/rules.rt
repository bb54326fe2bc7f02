//! A context rule and a finished tree, by `ecma_rules`.
use ecma_rules::{finish, first_broken};
use ecma_tree::{
    AssignOp, JsWord, Kind, NoMemory, Node, Nodes, Sort, Span, SyntaxContext, has_sort,
};
use std::alloc::Global;
use std::test::Fail;

fn ident(alloc: Global, lo: u32, text: &str) -> Result<Node, NoMemory> {
    let kind = Kind::Ident {
        sym: JsWord::new(alloc, text)?,
        ctxt: SyntaxContext::empty(),
        optional: false,
    };
    Ok(Node::leaf(alloc, Span { lo, hi: lo }, kind))
}

/// `[..a, b] = c`, with the spread first or last
fn assignment(alloc: Global, is_last: bool) -> Result<Node, NoMemory> {
    let name = ident(alloc, 1, "b")?;
    let spread = Node::spread_element(alloc, Span { lo: 4, hi: 8 }, ident(alloc, 7, "a")?)?;
    let items = if is_last {
        [name, spread]
    } else {
        [spread, name]
    };
    let elems = Nodes::from_array(alloc, items)?;
    let left = Node::array_lit(alloc, Span { lo: 0, hi: 9 }, elems)?;
    let right = ident(alloc, 12, "c")?;
    Node::assign_expr(alloc, Span { lo: 0, hi: 13 }, AssignOp::Assign, left, right)
}

// A function that may let go of a node is proved for every kind that it may have: so this one alone does.
fn let_go(_node: Node) {}

fn place(alloc: Global, is_last: bool) -> Result<Option<u32>, NoMemory> {
    let tree = assignment(alloc, is_last)?;
    let at = first_broken(&tree);
    let_go(tree);
    Ok(at)
}

fn is_finished(alloc: Global) -> Result<bool, NoMemory> {
    let mut tree = assignment(alloc, true)?;
    let before = has_sort(&tree, Sort::Expr);
    let done = finish(alloc, &mut tree);
    let answer = done.is_ok() && !before && has_sort(&tree, Sort::Expr);
    let_go(tree);
    Ok(answer)
}

/// `[...a, b] = c` is refused by node and by tsc; tsc tells the rest element.
#[test]
fn rests_stand_last(rt: HostRuntime) -> Result<(), Fail> {
    let alloc = rt.alloc();
    assert_eq!(rt; place(alloc, false)?, Some(4));
    assert_eq!(rt; place(alloc, true)?, None);
    assert!(rt; is_finished(alloc)?);
    Ok(())
}
