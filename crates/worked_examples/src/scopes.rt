//! Scopes that are resolved and conflicts that are refused, by `ecma_scope`.
use ecma_scope::{ScopeError, check_scopes, needs, resolve, used_ids};
use ecma_text::{ReadError, read_module};
use ecma_tree::{Kind, NoMemory, Node, PassError, Session, SyntaxContext};
use std::alloc::Global;
use std::test::Fail;

// A function that may let go of a node is proved for every kind that it may have: so this one alone does.
fn let_go(_node: Node) {}

fn read(alloc: Global, text: &str) -> Result<Node, ReadError> {
    if 1000 < text.len() {
        return Err(ReadError::TooDeep { at: 1000 });
    }
    read_module(alloc, text)
}

fn push_contexts(node: &Node, found: &mut Vec<SyntaxContext>) -> Result<(), NoMemory> {
    if let Kind::Ident { ctxt, .. } = &node.kind {
        found.push(*ctxt)?;
    }
    for child in node.children.as_slice() {
        push_contexts(child, found)?;
    }
    Ok(())
}

/// The contexts of the identifiers of a tree, resolved with marks of a session of ten.
fn resolved_contexts(alloc: Global, tree: &mut Node) -> Result<Vec<SyntaxContext>, Fail> {
    let mut session = Session::new(10);
    let unresolved = session.fresh_mark()?;
    let top = session.fresh_mark()?;
    resolve(alloc, &mut session, tree, unresolved, top)?;
    let mut found = Vec::new(alloc);
    push_contexts(tree, &mut found)?;
    Ok(found)
}

/// The contexts of the identifiers of a text.
fn contexts_of(alloc: Global, text: &str) -> Result<Vec<SyntaxContext>, Fail> {
    let mut tree = read(alloc, text)?;
    let found = resolved_contexts(alloc, &mut tree);
    let_go(tree);
    found
}

/// The contexts of the first marks of a session of ten.
fn first_contexts() -> Result<[SyntaxContext; 4], Fail> {
    let mut session = Session::new(10);
    let empty = SyntaxContext::empty();
    Ok([
        empty.apply_mark(session.fresh_mark()?),
        empty.apply_mark(session.fresh_mark()?),
        empty.apply_mark(session.fresh_mark()?),
        empty.apply_mark(session.fresh_mark()?),
    ])
}

#[test]
fn an_ambient_name_hides_and_binds_nothing(rt: HostRuntime) -> Result<(), Fail> {
    let alloc = rt.alloc();
    let [unresolved, top, _, _] = first_contexts()?;
    let found = contexts_of(alloc, "{ declare const f; f; } let f;")?;
    assert_eq!(rt; found.as_slice(), [unresolved, unresolved, top].as_slice());
    Ok(())
}

#[test]
fn a_namespace_of_ambient_functions_has_a_value(rt: HostRuntime) -> Result<(), Fail> {
    let alloc = rt.alloc();
    let [unresolved, top, _, _] = first_contexts()?;
    let text = "namespace O { declare namespace N { function f(); } N; } let N;";
    let found = contexts_of(alloc, text)?;
    let wanted = [top, unresolved, unresolved, unresolved, top];
    assert_eq!(rt; found.as_slice(), wanted.as_slice());
    let text = "namespace O { namespace N { function f(); } N; } let N;";
    let found = contexts_of(alloc, text)?;
    let wanted = [top, top, unresolved, top, top];
    assert_eq!(rt; found.as_slice(), wanted.as_slice());
    Ok(())
}

#[test]
fn a_default_does_not_see_the_body(rt: HostRuntime) -> Result<(), Fail> {
    let alloc = rt.alloc();
    let [unresolved, top, parameters, body] = first_contexts()?;
    let found = contexts_of(alloc, "function g(a = b) { var b; a; b; }")?;
    let wanted = [top, parameters, unresolved, body, parameters, body];
    assert_eq!(rt; found.as_slice(), wanted.as_slice());
    Ok(())
}

#[test]
fn a_var_with_a_parameters_name_is_the_parameter(rt: HostRuntime) -> Result<(), Fail> {
    let alloc = rt.alloc();
    let [unresolved, top, parameters, _] = first_contexts()?;
    let found = contexts_of(alloc, "function g(a = b) { var a; a; b; }")?;
    let wanted = [
        top, parameters, unresolved, parameters, parameters, unresolved,
    ];
    assert_eq!(rt; found.as_slice(), wanted.as_slice());
    Ok(())
}

#[test]
fn a_default_of_a_catch_does_not_see_its_block(rt: HostRuntime) -> Result<(), Fail> {
    let alloc = rt.alloc();
    let mut session = Session::new(10);
    let unresolved = session.fresh_mark()?;
    let top = session.fresh_mark()?;
    let _tried = session.fresh_mark()?;
    let clause = session.fresh_mark()?;
    let block = session.fresh_mark()?;
    let empty = SyntaxContext::empty();
    let found = contexts_of(alloc, "try { } catch ([a = b]) { let b; b; }")?;
    let wanted = [
        empty.apply_mark(clause),
        empty.apply_mark(unresolved),
        empty.apply_mark(block),
        empty.apply_mark(block),
    ];
    assert_eq!(rt; found.as_slice(), wanted.as_slice());
    Ok(())
}

#[test]
fn a_session_without_marks_is_spent(rt: HostRuntime) -> Result<(), Fail> {
    let alloc = rt.alloc();
    let mut session = Session::new(3);
    let unresolved = session.fresh_mark()?;
    let top = session.fresh_mark()?;
    let mut tree = read(alloc, "function g(a = b) { var b; a; b; }")?;
    let answer = resolve(alloc, &mut session, &mut tree, unresolved, top);
    let_go(tree);
    assert_eq!(rt; answer, Err(PassError::Spent));
    Ok(())
}

/// Whether the first name that is declared again has this text, or none is where there is no text.
fn is_told(answer: Result<(), ScopeError>, wanted: Option<&str>) -> Result<bool, NoMemory> {
    match (answer, wanted) {
        (Err(ScopeError::NoMemory), _) => Err(NoMemory),
        (Err(ScopeError::Redeclared { name }), Some(text)) => Ok(name.as_str() == text),
        (Ok(()), None) => Ok(true),
        _ => Ok(false),
    }
}

fn tells(alloc: Global, text: &str, wanted: Option<&str>) -> Result<bool, Fail> {
    let tree = read(alloc, text)?;
    let answer = check_scopes(alloc, &tree);
    let_go(tree);
    Ok(is_told(answer, wanted)?)
}

/// Texts, and what is declared again in them.
const REDECLARED: [(&str, Option<&str>); 12] = [
    ("var a; let a;", Some("a")),
    ("var a; var a;", None),
    ("function g(a = b) { let a; a; b; }", Some("a")),
    ("function g(a = b) { let b; a; b; }", None),
    ("function g(a = b) { var a; a; b; }", None),
    ("try { } catch ([a = b]) { let a; b; }", Some("a")),
    ("try { } catch ([a = b]) { var a; b; }", Some("a")),
    ("try { } catch ([a = b]) { let b; b; }", None),
    ("{ function x(); var x; }", Some("x")),
    ("{ function x(); var y; }", None),
    ("function g(a = b) { declare let a; }", Some("a")),
    ("function g(a = b) { declare let b; }", None),
];

#[test]
fn names_are_not_declared_again(rt: HostRuntime) -> Result<(), Fail> {
    let alloc = rt.alloc();
    for (text, wanted) in REDECLARED {
        assert!(rt; tells(alloc, text, wanted)?, "{text}");
    }
    Ok(())
}

fn needed(alloc: Global, text: &str) -> Result<u64, Fail> {
    let tree = read(alloc, text)?;
    let count = needs(&tree);
    let_go(tree);
    Ok(count)
}

#[test]
fn a_declaration_needs_seventeen_contexts(rt: HostRuntime) -> Result<(), Fail> {
    let alloc = rt.alloc();
    assert_eq!(rt; needed(alloc, "var a; var a;")?, 17);
    assert_eq!(rt; needed(alloc, "{ declare const f; f; } let f;")?, 18);
    assert_eq!(rt; needed(alloc, "try { } catch ([a = b]) { let b; b; }")?, 20);
    Ok(())
}

fn used(alloc: Global, text: &str) -> Result<usize, Fail> {
    let tree = read(alloc, text)?;
    let ids = used_ids(alloc, &tree);
    let_go(tree);
    Ok(ids?.len())
}

#[test]
fn declared_names_are_not_used(rt: HostRuntime) -> Result<(), Fail> {
    let alloc = rt.alloc();
    assert_eq!(rt; used(alloc, "{ declare const f; f; } let f;")?, 1);
    assert_eq!(rt; used(alloc, "function g(a = b) { var b; a; b; }")?, 3);
    Ok(())
}
