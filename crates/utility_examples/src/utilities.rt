//! What the calls of `ecma_find`, `ecma_utils` and `ecma_renamers` answer: one row a call.
use ecma_find::{StmtExt, collect_decls_with_ctxt};
use ecma_number::JsNumber;
use ecma_print::print_module;
use ecma_renamers::{IdentRenamer, Remapper};
use ecma_text::read_plain;
use ecma_tree::{
    DUMMY_SP, Id, Ident, JsWord, Kind, Module, NoMemory, Node, NodeRef, Nodes, Session, Stmt,
    SyntaxContext,
};
use ecma_utils::{
    ExprFactory, IdentLike, NodeIgnoringSpan, expr_of_ident, id, is_valid_ident,
    is_valid_prop_ident, prop_name_eq,
};
use std::alloc::Global;
use std::collections::{HashMap, HashSet};
use std::test::Fail;

/// The longest text that is read.
const MOST: usize = 0xffff_ffff;

// A function that may let go of a node is proved for every kind that it may have: so this one alone does.
fn let_go(_tree: Module) {}

fn read(alloc: Global, text: &str) -> Option<Module> {
    if MOST < text.len() {
        return None;
    }
    match read_plain(alloc, text, false) {
        Ok(module) => Some(module),
        Err(_) => None,
    }
}

fn first_stmt(module: &Module) -> Option<&Stmt> {
    module.children.get(0)?.children.get(0)
}

fn id_of(alloc: Global, text: &str) -> Result<Id, NoMemory> {
    Ok((JsWord::new(alloc, text)?, SyntaxContext::empty()))
}

fn name(alloc: Global, text: &str) -> Result<Node, NoMemory> {
    let ident = ecma_utils::quote_ident!(alloc, SyntaxContext::empty(), text)?;
    Ok(expr_of_ident(alloc, ident))
}

fn printed(alloc: Global, item: Node) -> Result<Vec<u8>, NoMemory> {
    let items = Nodes::from_array(alloc, [item])?;
    let written = Node::module(alloc, DUMMY_SP, None, items)?;
    let bytes = print_module(alloc, &written);
    let_go(written);
    bytes
}

/// The text of what `var` declares in the first statement.
fn vars_in(alloc: Global, module: &Module) -> Result<Option<Vec<u8>>, NoMemory> {
    let Some(stmt) = first_stmt(module) else {
        return Ok(None);
    };
    match stmt.extract_var_ids_as_var(alloc)? {
        Some(var) => Ok(Some(printed(alloc, var)?)),
        None => Ok(None),
    }
}

fn vars(alloc: Global, text: &str) -> Result<Option<Vec<u8>>, NoMemory> {
    let Some(module) = read(alloc, text) else {
        return Ok(None);
    };
    let found = vars_in(alloc, &module);
    let_go(module);
    found
}

#[test]
fn names_of_var_are_one_declaration(rt: HostRuntime) -> Result<(), Fail> {
    let rows: [&str; 2] = [
        "var { a, b = 1, inner: { c }, ...d } = {};",
        "var [ a, b = 1, [c], ...d ] = [];",
    ];
    for text in rows.iter() {
        match vars(rt.alloc(), text)? {
            Some(found) => assert_eq!(rt; found.as_slice(), b"var a, b, c, d;\n".as_slice()),
            None => assert_eq!(rt; *text, "a declaration"),
        }
    }
    Ok(())
}

/// Whether exactly `a`, `b`, `c` and `d` are declared with the context of a module that was read.
fn declares_four(alloc: Global, text: &str) -> Result<bool, NoMemory> {
    let Some(module) = read(alloc, text) else {
        return Ok(false);
    };
    let part = NodeRef::Module(&module);
    let names: HashSet<JsWord> = collect_decls_with_ctxt(alloc, part, SyntaxContext::empty())?;
    let (a, b) = (JsWord::new(alloc, "a")?, JsWord::new(alloc, "b")?);
    let (c, d) = (JsWord::new(alloc, "c")?, JsWord::new(alloc, "d")?);
    let has_all = names.contains(&a) && names.contains(&b) && names.contains(&c);
    Ok(has_all && names.contains(&d) && names.len() == 4)
}

#[test]
fn names_are_declared_in_the_context_of_the_module(rt: HostRuntime) -> Result<(), Fail> {
    let rows: [&str; 2] = [
        "const { a, b = 1, inner: { c }, ...d } = {};",
        "const [ a, b = 1, [c], ...d ] = [];",
    ];
    for text in rows.iter() {
        assert!(rt; declares_four(rt.alloc(), text)?);
    }
    Ok(())
}

#[test]
fn fresh_names_keep_their_ids(rt: HostRuntime) -> Result<(), Fail> {
    let alloc = rt.alloc();
    let mut session = Session::new(1);
    let fresh = ecma_utils::private_ident!(alloc, &mut session, "a")?;
    let first = id(&fresh)?;
    assert_eq!(rt; first.0.as_str(), "a");
    assert!(rt; first.1 != SyntaxContext::empty());
    let again = Ident::from_ident(alloc, &fresh)?.to_id()?;
    assert_eq!(rt; again.0.as_str(), "a");
    assert!(rt; again.1 == first.1);
    Ok(())
}

#[test]
fn texts_are_names_and_keys(rt: HostRuntime) -> Result<(), Fail> {
    let alloc = rt.alloc();
    let rows: [(&str, bool, bool); 3] = [
        ("a", true, true),
        ("class", false, true),
        ("", false, false),
    ];
    for row in rows.iter() {
        let word = JsWord::new(alloc, row.0)?;
        assert_eq!(rt; is_valid_ident(&word), row.1);
        assert_eq!(rt; is_valid_prop_ident(row.0), row.2);
    }
    let value = Some(JsNumber::from(1i32));
    let key = Node::leaf(alloc, DUMMY_SP, Kind::Number { value, raw: None });
    assert!(rt; prop_name_eq(&key, "1"));
    Ok(())
}

/// Whether nothing behind the first statement of a text is done.
fn ends(alloc: Global, text: &str) -> Option<bool> {
    let module = read(alloc, text)?;
    let found = first_stmt(&module).map(|stmt| stmt.terminates());
    let_go(module);
    found
}

#[test]
fn jumps_end_statements(rt: HostRuntime) -> Result<(), Fail> {
    let rows: [(&str, bool); 3] = [
        ("{ throw a; b(); }", true),
        ("if (a) throw b; else throw c;", true),
        ("if (a) throw b;", false),
    ];
    for row in rows.iter() {
        assert_eq!(rt; ends(rt.alloc(), row.0), Some(row.1));
    }
    Ok(())
}

/// The text with `y` for `x`.
fn rename(alloc: Global, module: &mut Module) -> Result<(), NoMemory> {
    let mut ids: HashMap<Id, Id> = HashMap::new(alloc);
    ids.insert(id_of(alloc, "x")?, id_of(alloc, "y")?)?;
    IdentRenamer::new(&ids).visit_mut_module(alloc, module)
}

fn renamed(alloc: Global, text: &str) -> Result<Option<Vec<u8>>, NoMemory> {
    let Some(mut module) = read(alloc, text) else {
        return Ok(None);
    };
    let done = rename(alloc, &mut module);
    let written = print_module(alloc, &module);
    let_go(module);
    done?;
    Ok(Some(written?))
}

#[test]
fn names_get_other_ids(rt: HostRuntime) -> Result<(), Fail> {
    let rows: [(&str, &str); 4] = [
        ("({ x = 1 } = a);", "({ x: y = 1 } = a);\n"),
        ("let x; export { x };", "let y;\nexport { y as x };\n"),
        ("let x; export { x as z };", "let y;\nexport { y as z };\n"),
        ("import { x } from \"m\";", "import { y } from \"m\";\n"),
    ];
    for row in rows.iter() {
        match renamed(rt.alloc(), row.0)? {
            Some(found) => assert_eq!(rt; found.as_slice(), row.1.as_bytes()),
            None => assert_eq!(rt; row.0, "a module"),
        }
    }
    Ok(())
}

#[test]
fn a_name_gets_another_context(rt: HostRuntime) -> Result<(), Fail> {
    let alloc = rt.alloc();
    let mut session = Session::new(1);
    let fresh = ecma_utils::private_ident!(alloc, &mut session, "x")?;
    let mut contexts: HashMap<Id, SyntaxContext> = HashMap::new(alloc);
    contexts.insert(id_of(alloc, "x")?, fresh.ctxt)?;
    let mut e = name(alloc, "x")?;
    Remapper::new(&contexts).visit_mut_expr(alloc, &mut e)?;
    match e.to_ident()? {
        Some(ident) => assert!(rt; ident.ctxt == fresh.ctxt && ident.sym.as_str() == "x"),
        None => assert_eq!(rt; "nothing", "a name"),
    }
    Ok(())
}

/// What is kept for a node, asked for by another one.
fn kept_at<'a>(alloc: Global, node: &'a Node, asked: &'a Node) -> Result<Option<u8>, NoMemory> {
    let mut kept: HashMap<NodeIgnoringSpan<'a, Node>, u8> = HashMap::new(alloc);
    kept.insert(NodeIgnoringSpan::borrowed(node), 7)?;
    Ok(kept.get(&NodeIgnoringSpan::borrowed(asked)).copied())
}

/// What is kept for the expression of a module, asked for by that of another one.
fn kept_in(alloc: Global, module: &Module, asked: &Module) -> Result<Option<u8>, NoMemory> {
    let (Some(stmt), Some(asked)) = (first_stmt(module), first_stmt(asked)) else {
        return Ok(None);
    };
    match (stmt.children.get(0), asked.children.get(0)) {
        (Some(e), Some(asked)) => kept_at(alloc, e, asked),
        _ => Ok(None),
    }
}

fn kept_beside(alloc: Global, module: &Module, other: &str) -> Result<Option<u8>, NoMemory> {
    let Some(asked) = read(alloc, other) else {
        return Ok(None);
    };
    let kept = kept_in(alloc, module, &asked);
    let_go(asked);
    kept
}

/// What is kept for an expression, asked for by another one.
fn kept_for(alloc: Global, text: &str, other: &str) -> Result<Option<u8>, NoMemory> {
    let Some(module) = read(alloc, text) else {
        return Ok(None);
    };
    let kept = kept_beside(alloc, &module, other);
    let_go(module);
    kept
}

#[test]
fn expressions_are_keys_without_their_spans(rt: HostRuntime) -> Result<(), Fail> {
    let rows: [(&str, &str, Option<u8>); 4] = [
        ("a.b;", " a . b", Some(7)),
        ("f(a, [1]);", "f( a,[ 1 ] )", Some(7)),
        ("a.b;", "a.c", None),
        ("a[b];", "a[c]", None),
    ];
    for row in rows.iter() {
        assert_eq!(rt; kept_for(rt.alloc(), row.0, row.1)?, row.2);
    }
    Ok(())
}
