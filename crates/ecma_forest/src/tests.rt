//! Trees go into a forest and come out of it; cursors read them; what becomes of them stands behind them.
ghost use Rattle.std.specs.Prelude.{◌<◌, ◌≡◌, IfOk, length};

use super::*;
use ecma_kind::{copy_kind, same_kind};
use ecma_tree::{DUMMY_SP, JsWord, Kind, NoMemory, Node, Span, SyntaxContext, same_but_for_spans};
use samples::{BeginsWithThis, SampleRule, Unquestioned};
use std::alloc::Global;
use std::test::Fail;

mod every_kind;

const SPAN: Span = Span { lo: 3, hi: 5 };

// A function that may let go of a node is proved for every kind that it may have: so this one alone does.
fn let_go(_node: Node) {}

/// Whether a leaf of the kind is one in a forest, as a node, and in a forest again.
fn goes_there_and_back(alloc: Global, kind: &Kind) -> Result<bool, NoMemory> {
    let mut forest = Forest::new(alloc);
    forest.leaf(SPAN, copy_kind(kind)?)?;
    let at = forest.lay(0)?;
    let tree = to_node(alloc, &forest, at)?;
    let same = same_kind(&tree.kind, kind);
    let pushed = push_node(&mut forest, &tree);
    let_go(tree);
    pushed?;
    let again = forest.lay(0)?;
    let leaf = forest.at(again);
    Ok(same && same_kind(leaf.kind(), kind) && leaf.span() == SPAN && leaf.count() == 0)
}

#[test]
fn every_kind_goes_there_and_back(rt: HostRuntime) -> Result<(), Fail> {
    let mut seen = 0u32;
    for number in 0..every_kind::COUNT {
        if let Some(kind) = every_kind::kind_of(rt.alloc(), number)? {
            assert!(rt; goes_there_and_back(rt.alloc(), &kind)?, "at {number}");
            seen = number + 1;
        }
    }
    assert_eq!(rt; seen, 122);
    Ok(())
}

/// Puts `f?(this, <a type>)` into a forest. Of its place.
fn lay_call(alloc: Global, forest: &mut Forest) -> Result<u32, NoMemory>
    ensures { IfOk result (λ at. at < length forest.new.below) }
{
    let callee = Kind::Ident {
        sym: JsWord::new(alloc, "f")?,
        ctxt: SyntaxContext::empty(),
        optional: true,
    };
    let start = forest.len();
    forest.leaf(SPAN, callee)?;
    let args = forest.len();
    forest.leaf(SPAN, Kind::ThisExpr)?;
    forest.leaf(SPAN, Kind::TsTypeAnn)?;
    forest.wrap(DUMMY_SP, Kind::List, args)?;
    forest.leaf(DUMMY_SP, Kind::Absent)?;
    forest.wrap(SPAN, Kind::CallExpr, start)?;
    let at = forest.lay(start)?;
    if (at as usize) < forest.places() {
        Ok(at)
    } else {
        Err(NoMemory)
    }
}

#[test]
fn a_summary_tells_what_stands_there(rt: HostRuntime) -> Result<(), Fail> {
    let summary = kind_summary(&Kind::ForInStmt).join(kind_summary(&Kind::GetterProp));
    assert!(rt; summary.patterns() && summary.scopes() && summary.functions());
    assert!(rt; !summary.types() && !summary.enums() && !summary.namespaces());
    assert!(rt; !summary.param_props() && !summary.names());
    Ok(())
}

#[test]
fn names_are_collected(rt: HostRuntime) -> Result<(), Fail> {
    let mut forest = Forest::new(rt.alloc());
    let at = lay_call(rt.alloc(), &mut forest)?;
    let names = symbols(rt.alloc(), &forest.at(at))?;
    assert_eq!(rt; names.len(), 1);
    Ok(())
}

#[test]
fn a_root_is_taken_apart(rt: HostRuntime) -> Result<(), Fail> {
    let mut forest = Forest::new(rt.alloc());
    forest.leaf(SPAN, Kind::Null)?;
    forest.leaf(SPAN, Kind::ThisExpr)?;
    forest.leaf(SPAN, Kind::Super)?;
    forest.wrap_like(SPAN, &Kind::ForInStmt, 1)?;
    assert_eq!(rt; forest.len(), 2);
    assert!(rt; matches!(forest.root_kind(1), Kind::ForInStmt));
    assert_eq!(rt; forest.root_span(1), SPAN);
    forest.open()?;
    assert_eq!(rt; forest.len(), 3);
    assert!(rt; matches!(forest.root_kind(0), Kind::Null));
    assert!(rt; matches!(forest.root_kind(2), Kind::Super));
    Ok(())
}

/// The child of an index, if there is one.
fn child<'a>(tree: &Cursor<'a>, i: u32) -> Option<Cursor<'a>> {
    if i < tree.count() {
        Some(tree.child(i))
    } else {
        None
    }
}

#[test]
fn a_cursor_reads_what_stands_there(rt: HostRuntime) -> Result<(), Fail> {
    let mut forest = Forest::new(rt.alloc());
    let at = lay_call(rt.alloc(), &mut forest)?;
    let call = forest.at(at);
    assert!(rt; matches!(call.kind(), Kind::CallExpr));
    assert_eq!(rt; call.count(), 3);
    assert!(rt; call.summary().types());
    assert!(rt; !call.summary().enums());
    assert!(rt; mentions(&call, "f"));
    assert!(rt; !mentions(&call, "g"));
    match child(&call, 1) {
        None => assert!(rt; false),
        Some(args) => {
            assert_eq!(rt; args.count(), 2);
            assert_eq!(rt; args.span(), DUMMY_SP);
            assert!(rt;
                matches!(child(&args, 0), Some(first) if matches!(first.kind(), Kind::ThisExpr))
            );
        }
    }
    Ok(())
}

/// Whether the node is the same once it is pushed and made a node again.
fn goes_and_comes(alloc: Global, forest: &mut Forest, tree: &Node) -> Result<bool, NoMemory> {
    let start = forest.len();
    push_node(forest, tree)?;
    let at = forest.lay(start)?;
    if (at as usize) >= forest.places() {
        return Ok(false);
    }
    let again = to_node(alloc, forest, at)?;
    let same = same_but_for_spans(tree, &again);
    let_go(again);
    Ok(same)
}

/// Whether the tree at a place is one that goes and comes as a node.
fn comes_and_goes(alloc: Global, forest: &mut Forest, at: u32) -> Result<bool, NoMemory>
    requires { at < length forest.old.below }
{
    let tree = to_node(alloc, forest, at)?;
    let same = goes_and_comes(alloc, forest, &tree);
    let_go(tree);
    same
}

#[test]
fn a_tree_goes_there_and_back(rt: HostRuntime) -> Result<(), Fail> {
    let mut forest = Forest::new(rt.alloc());
    let at = lay_call(rt.alloc(), &mut forest)?;
    assert!(rt; comes_and_goes(rt.alloc(), &mut forest, at)?);
    Ok(())
}

/// Whether the tree at a place is one without types whose first child is an identifier without a question mark.
fn has_no_question(forest: &Forest, at: u32) -> bool {
    if (at as usize) >= forest.places() {
        return false;
    }
    let tree = forest.at(at);
    match child(&tree, 0) {
        Some(first) => !tree.summary().types()
            && matches!(
                first.kind(),
                Kind::Ident {
                    optional: false,
                    ..
                }
            ),
        None => false,
    }
}

#[test]
fn what_is_changed_stands_behind(rt: HostRuntime) -> Result<(), Fail> {
    let mut forest = Forest::new(rt.alloc());
    let at = lay_call(rt.alloc(), &mut forest)?;
    let start = forest.len();
    rewrite(&SampleRule {}, &mut forest, at)?;
    let bare = forest.lay(start)?;
    assert!(rt; bare > at);
    assert!(rt; !has_no_question(&forest, bare));
    forest.change(&Unquestioned {});
    assert!(rt; has_no_question(&forest, bare));
    assert!(rt; !has_no_question(&forest, at));
    let begins = forest.scan(rt.alloc(), &BeginsWithThis {})?;
    assert_eq!(rt; begins.as_slice().first(), Some(&true));
    Ok(())
}
