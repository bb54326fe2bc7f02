//! Trees in a short notation: the kind with its data, the span, and the children in parentheses.
use crate::data::show_kind;
use ecma_tree::{DUMMY_SP, Kind, Node};
use std::io::{self, Write};

/// What a tree begins with, and what stands around its children.
enum Shape {
    Missing,
    Listed,
    Spanned,
}

fn shape_of(node: &Node) -> Shape {
    if node.span != DUMMY_SP {
        return Shape::Spanned;
    }
    match &node.kind {
        Kind::Absent => Shape::Missing,
        Kind::List => Shape::Listed,
        _ => Shape::Spanned,
    }
}

/// Writes what stands before the children, and tells what stands behind them.
fn open<W: Write>(out: &mut W, node: &Node) -> io::Result<&'static str> {
    match shape_of(node) {
        Shape::Missing => {
            write!(out, "-")?;
            Ok("")
        }
        Shape::Listed => {
            write!(out, "[")?;
            Ok("]")
        }
        Shape::Spanned => {
            show_kind(out, &node.kind)?;
            write!(out, " {}..{}", node.span.lo, node.span.hi)?;
            if node.children.as_slice().is_empty() {
                return Ok("");
            }
            write!(out, "(")?;
            Ok(")")
        }
    }
}

/// Writes a tree: a missing child as `-`, a list in brackets, any other node as its kind, its span and its children.
pub fn show_node<W: Write>(out: &mut W, node: &Node) -> io::Result<()> {
    let closing = open(out, node)?;
    let mut is_first = true;
    for child in node.children.as_slice() {
        if !is_first {
            write!(out, " ")?;
        }
        is_first = false;
        show_node(out, child)?;
    }
    write!(out, "{closing}")
}
