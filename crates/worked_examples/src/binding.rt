//! Binding names with types round them, by `ecma_bind`.
use ecma_bind::bind_names;
use ecma_tree::{
    AssignOp, JsWord, Kind, NoMemory, Node, Nodes, Span, SyntaxContext, same_but_for_spans,
};
use std::alloc::Global;
use std::test::Fail;

/// What stands in `[..] = b`.
#[derive(Clone, Copy)]
enum Target {
    /// `a!`
    Typed,
    /// `(a!)`
    Parenthesized,
    /// A name that is bound, `a`.
    Bound,
}

fn ident(alloc: Global, text: &str) -> Result<Node, NoMemory> {
    let kind = Kind::Ident {
        sym: JsWord::new(alloc, text)?,
        ctxt: SyntaxContext::empty(),
        optional: false,
    };
    Ok(Node::leaf(alloc, Span { lo: 1, hi: 2 }, kind))
}

fn element(alloc: Global, target: Target) -> Result<Node, NoMemory> {
    let span = Span { lo: 1, hi: 3 };
    let name = ident(alloc, "a")?;
    match target {
        Target::Typed => Node::ts_non_null_expr(alloc, span, name),
        Target::Parenthesized => {
            Node::paren_expr(alloc, span, Node::ts_non_null_expr(alloc, span, name)?)
        }
        Target::Bound => Node::binding_ident(alloc, span, name, None),
    }
}

fn assignment(alloc: Global, target: Target) -> Result<Node, NoMemory> {
    let span = Span { lo: 0, hi: 9 };
    let elems = Nodes::from_array(alloc, [element(alloc, target)?])?;
    let left = Node::array_pat(alloc, span, false, elems, None)?;
    let right = ident(alloc, "b")?;
    Node::assign_expr(alloc, span, AssignOp::Assign, left, right)
}

// A function that may let go of a node is proved for every kind that it may have: so this one alone does.
fn let_go(_node: Node) {}

/// Whether the one with its names bound is the other.
fn becomes(alloc: Global, target: Target, other: Target) -> Result<bool, NoMemory> {
    let mut tree = assignment(alloc, target)?;
    bind_names(alloc, &mut tree)?;
    let wanted = assignment(alloc, other)?;
    let answer = same_but_for_spans(&tree, &wanted);
    let_go(tree);
    let_go(wanted);
    Ok(answer)
}

#[test]
fn names_with_types_round_them_are_bound(rt: HostRuntime) -> Result<(), Fail> {
    let alloc = rt.alloc();
    assert!(rt; becomes(alloc, Target::Typed, Target::Bound)?);
    assert!(rt; becomes(alloc, Target::Parenthesized, Target::Parenthesized)?);
    Ok(())
}
