//! Final texts of a small module, by `ecma_hygiene`.
use ecma_hygiene::hygiene;
use ecma_tree::{
    JsWord, Kind, NoMemory, Node, Nodes, Session, Span, SyntaxContext, VarDeclKind, symbols,
};
use std::alloc::Global;
use std::test::Fail;

const PLACE: Span = Span { lo: 1, hi: 2 };

fn name(alloc: Global, text: &str, ctxt: SyntaxContext) -> Result<Node, NoMemory> {
    let kind = Kind::Ident {
        sym: JsWord::new(alloc, text)?,
        ctxt,
        optional: false,
    };
    Ok(Node::leaf(alloc, PLACE, kind))
}

/// `let f;`
fn variable(alloc: Global, ctxt: SyntaxContext) -> Result<Node, NoMemory> {
    let pattern = Node::binding_ident(alloc, PLACE, name(alloc, "f", ctxt)?, None)?;
    let declarator = Node::var_declarator(alloc, PLACE, false, pattern, None)?;
    let names = Nodes::from_array(alloc, [declarator])?;
    Node::var_decl(alloc, PLACE, VarDeclKind::Let, false, names)
}

/// `{ f; }`
fn block(alloc: Global, ctxt: SyntaxContext) -> Result<Node, NoMemory> {
    let read = Node::expr_stmt(alloc, PLACE, name(alloc, "f", ctxt)?)?;
    Node::block_stmt(alloc, PLACE, Nodes::from_array(alloc, [read])?)
}

/// `{ f; } let f;`, where the two names have two contexts.
fn module(alloc: Global, inside: SyntaxContext, outside: SyntaxContext) -> Result<Node, NoMemory> {
    let body = [block(alloc, inside)?, variable(alloc, outside)?];
    Node::module(alloc, PLACE, None, Nodes::from_array(alloc, body)?)
}

/// The texts of the identifiers, each with a blank behind it.
fn texts(alloc: Global, tree: &Node) -> Result<String, Fail> {
    let mut all = String::new(alloc);
    for symbol in symbols(alloc, tree)?.as_slice() {
        all.push_str(symbol.as_str())?;
        all.push_str(" ")?;
    }
    Ok(all)
}

// A function that may let go of a node is proved for every kind that it may have: so this one alone does.
fn let_go(_node: Node) {}

/// The texts of the identifiers of a module with its final texts.
fn final_texts(
    alloc: Global,
    inside: SyntaxContext,
    outside: SyntaxContext,
) -> Result<String, Fail> {
    let mut tree = module(alloc, inside, outside)?;
    let done = hygiene(alloc, &mut tree);
    let all = texts(alloc, &tree);
    let_go(tree);
    let all = all?;
    done?;
    Ok(all)
}

#[test]
fn a_free_name_keeps_its_text(rt: HostRuntime) -> Result<(), Fail> {
    let alloc = rt.alloc();
    let mut session = Session::new(2);
    let empty = SyntaxContext::empty();
    let free = empty.apply_mark(session.fresh_mark()?);
    let bound = empty.apply_mark(session.fresh_mark()?);
    assert_eq!(rt; final_texts(alloc, free, bound)?.as_str(), "f f1 ");
    assert_eq!(rt; final_texts(alloc, bound, bound)?.as_str(), "f f ");
    Ok(())
}
