//! Sorts, children by their names, copies and comparisons, of small trees.
use ecma_tree::*;
use std::alloc::Global;
use std::test::Fail;

const SPAN: Span = Span { lo: 3, hi: 5 };

/// `this`
fn this(alloc: Global) -> Expr {
    Node::leaf(alloc, SPAN, Kind::ThisExpr)
}

fn ident(alloc: Global, text: &str) -> Result<Expr, NoMemory> {
    let sym = JsWord::new(alloc, text)?;
    let ident = Ident {
        span: SPAN,
        ctxt: SyntaxContext::empty(),
        sym,
        optional: false,
    };
    Ok(Node::of_ident(alloc, ident))
}

/// `[<elem>]`
fn array_of(alloc: Global, elem: Node) -> Result<Expr, NoMemory> {
    Node::array_lit(alloc, SPAN, Nodes::from_array(alloc, [elem])?)
}

/// `[[<text>]]`
fn arrays(alloc: Global, text: &str) -> Result<Expr, NoMemory> {
    array_of(alloc, array_of(alloc, ident(alloc, text)?)?)
}

/// `this(<arg>)`
fn call_with(alloc: Global, arg: Node) -> Result<Expr, NoMemory> {
    let args = Nodes::from_array(alloc, [arg])?;
    Node::call_expr(alloc, SPAN, this(alloc), args, None)
}

/// `;`
fn empty(alloc: Global) -> Stmt {
    Node::leaf(alloc, SPAN, Kind::EmptyStmt)
}

/// `if (this) <cons>`
fn choice(alloc: Global, cons: Stmt) -> Result<Stmt, NoMemory> {
    Node::if_stmt(alloc, SPAN, this(alloc), cons, None)
}

// A function that may let go of a node is proved for every kind that it may have: so this one alone does.
fn let_go(_node: Node) {}

fn is_of(node: Node, sort: Sort) -> bool {
    let answer = has_sort(&node, sort);
    let_go(node);
    answer
}

#[test]
fn nodes_have_their_sorts(rt: HostRuntime) -> Result<(), Fail> {
    let alloc = rt.alloc();
    assert!(rt; is_of(choice(alloc, empty(alloc))?, Sort::Stmt));
    assert!(rt; is_of(choice(alloc, empty(alloc))?, Sort::ModuleItem));
    assert!(rt; !is_of(choice(alloc, empty(alloc))?, Sort::Expr));
    assert!(rt; !is_of(choice(alloc, this(alloc))?, Sort::Stmt));
    assert!(rt;
        is_of(
            Node::seq_expr(SPAN, Nodes::from_array(alloc, [this(alloc)])?),
            Sort::Expr
        )
    );
    assert!(rt; !is_of(Node::leaf(alloc, SPAN, Kind::SeqExpr), Sort::Expr));
    Ok(())
}

#[test]
fn arrays_alone_have_holes(rt: HostRuntime) -> Result<(), Fail> {
    let alloc = rt.alloc();
    assert!(rt; is_of(array_of(alloc, this(alloc))?, Sort::Expr));
    assert!(rt; is_of(call_with(alloc, this(alloc))?, Sort::Expr));
    assert!(rt; is_of(array_of(alloc, Node::absent(alloc))?, Sort::Expr));
    assert!(rt; !is_of(call_with(alloc, Node::absent(alloc))?, Sort::Expr));
    Ok(())
}

fn has_child(node: Node, field: Field) -> bool {
    let answer = node.child(field).is_some();
    let_go(node);
    answer
}

#[test]
fn children_are_found_by_their_names(rt: HostRuntime) -> Result<(), Fail> {
    let alloc = rt.alloc();
    assert!(rt; has_child(choice(alloc, this(alloc))?, Field::Cons));
    assert!(rt; !has_child(choice(alloc, this(alloc))?, Field::Body));
    Ok(())
}

/// A copy by one of the calls that copy.
fn copy_by(alloc: Global, call: usize, tree: &Node) -> Result<Node, NoMemory> {
    match call {
        0 => copy_node(alloc, tree),
        1 => copy_module(alloc, tree),
        2 => copy_item(alloc, tree),
        3 => copy_stmt(alloc, tree),
        4 => copy_expr(alloc, tree),
        5 => copy_pat(alloc, tree),
        6 => copy_function(alloc, tree),
        _ => copy_class(alloc, tree),
    }
}

fn same_exprs(node: Node, other: &Node) -> bool {
    let answer = eq_ignore_span(NodeRef::Expr(&node), NodeRef::Expr(other));
    let_go(node);
    answer
}

fn is_copied(alloc: Global, call: usize, tree: &Node) -> Result<bool, NoMemory> {
    Ok(same_exprs(copy_by(alloc, call, tree)?, tree))
}

fn are_copied(alloc: Global, tree: &Node) -> Result<bool, NoMemory> {
    let mut equal = true;
    for call in 0..8 {
        equal &= is_copied(alloc, call, tree)?;
    }
    Ok(equal)
}

fn is_copied_by_each(alloc: Global, tree: Node) -> Result<bool, NoMemory> {
    let answer = are_copied(alloc, &tree);
    let_go(tree);
    answer
}

#[test]
fn copies_are_equal_to_their_originals(rt: HostRuntime) -> Result<(), Fail> {
    let alloc = rt.alloc();
    assert!(rt; is_copied_by_each(alloc, arrays(alloc, "größe")?)?);
    Ok(())
}

fn is_like(alloc: Global, tree: &Node, text: &str) -> Result<bool, NoMemory> {
    Ok(same_exprs(arrays(alloc, text)?, tree))
}

fn are_arrays_of(alloc: Global, tree: Node, text: &str) -> Result<bool, NoMemory> {
    let answer = is_like(alloc, &tree, text);
    let_go(tree);
    answer
}

fn is_its_own_pattern(node: Node) -> bool {
    let answer = eq_ignore_span(NodeRef::Expr(&node), NodeRef::Pat(&node));
    let_go(node);
    answer
}

#[test]
fn other_trees_are_told_apart(rt: HostRuntime) -> Result<(), Fail> {
    let alloc = rt.alloc();
    assert!(rt; are_arrays_of(alloc, arrays(alloc, "a")?, "a")?);
    assert!(rt; !are_arrays_of(alloc, arrays(alloc, "a")?, "b")?);
    assert!(rt; !are_arrays_of(alloc, array_of(alloc, this(alloc))?, "a")?);
    assert!(rt; !is_its_own_pattern(this(alloc)));
    Ok(())
}

fn is_without_spans(alloc: Global, tree: &Node) -> Result<bool, NoMemory> {
    let mut bare = copy_node(alloc, tree)?;
    drop_spans(&mut bare);
    let answer = bare.span == DUMMY_SP && same_but_for_spans(&bare, tree);
    let_go(bare);
    Ok(answer)
}

fn loses_its_spans_alone(alloc: Global, tree: Node) -> Result<bool, NoMemory> {
    let answer = is_without_spans(alloc, &tree);
    let_go(tree);
    answer
}

#[test]
fn spans_tell_no_trees_apart(rt: HostRuntime) -> Result<(), Fail> {
    let alloc = rt.alloc();
    assert!(rt; loses_its_spans_alone(alloc, arrays(alloc, "a")?)?);
    Ok(())
}

fn is_mentioned(tree: Node, text: &str) -> bool {
    let answer = mentions(&tree, text);
    let_go(tree);
    answer
}

fn is_only_symbol(alloc: Global, tree: &Node, text: &str) -> Result<bool, NoMemory> {
    let listed = symbols(alloc, tree)?;
    match listed.get(0) {
        Some(symbol) => Ok(listed.len() == 1 && symbol.as_str() == text),
        None => Ok(false),
    }
}

fn is_listed(alloc: Global, tree: Node, text: &str) -> Result<bool, NoMemory> {
    let answer = is_only_symbol(alloc, &tree, text);
    let_go(tree);
    answer
}

#[test]
fn identifiers_are_found_and_listed(rt: HostRuntime) -> Result<(), Fail> {
    let alloc = rt.alloc();
    assert!(rt; is_mentioned(arrays(alloc, "größe")?, "größe"));
    assert!(rt; !is_mentioned(arrays(alloc, "größe")?, "größ"));
    assert!(rt; is_listed(alloc, arrays(alloc, "größe")?, "größe")?);
    Ok(())
}

fn is_made_again(alloc: Global, node: &Node) -> Result<bool, NoMemory> {
    match node.to_ident()? {
        Some(ident) => Ok(same_exprs(Node::of_ident(alloc, ident), node)),
        None => Ok(false),
    }
}

fn is_ident(alloc: Global, node: Node) -> Result<bool, NoMemory> {
    let answer = is_made_again(alloc, &node);
    let_go(node);
    answer
}

#[test]
fn identifiers_are_values_of_their_own(rt: HostRuntime) -> Result<(), Fail> {
    let alloc = rt.alloc();
    assert!(rt; is_ident(alloc, ident(alloc, "größe")?)?);
    assert!(rt; ident(alloc, "größe")?.into_ident().is_some());
    assert!(rt; this(alloc).into_ident().is_none());
    Ok(())
}

fn offered(alloc: Global, text: &str) -> Result<Option<JsWord>, NoMemory> {
    Ok(verify_symbol(alloc, text)?.err())
}

#[test]
fn symbols_are_offered_for_what_is_no_name(rt: HostRuntime) -> Result<(), Fail> {
    let alloc = rt.alloc();
    assert!(rt; offered(alloc, "größe")?.is_none());
    let rows = [("a-b", "ab"), ("class", "_class"), ("1a", "a"), ("", "_")];
    for (text, symbol) in rows {
        let word = offered(alloc, text)?.expect(&rt, "an offer");
        assert_eq!(rt; word.as_str(), symbol);
    }
    Ok(())
}
