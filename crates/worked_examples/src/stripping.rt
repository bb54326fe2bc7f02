//! Types taken out of a small module, by `ecma_strip`.
use ecma_strip::strip_type;
use ecma_tree::{
    JsWord, Kind, NoMemory, Node, NodeRef, Nodes, Span, SyntaxContext, VarDeclKind, eq_ignore_span,
};
use std::alloc::Global;
use std::test::Fail;

const SPAN: Span = Span { lo: 2, hi: 5 };

fn ident(alloc: Global, text: &str) -> Result<Node, NoMemory> {
    let kind = Kind::Ident {
        sym: JsWord::new(alloc, text)?,
        ctxt: SyntaxContext::empty(),
        optional: false,
    };
    Ok(Node::leaf(alloc, SPAN, kind))
}

/// `a: T`
fn typed_name(alloc: Global) -> Result<Node, NoMemory> {
    let type_ann = Node::ts_type_ann(alloc, SPAN, Node::leaf(alloc, SPAN, Kind::TsType))?;
    Node::binding_ident(alloc, SPAN, ident(alloc, "a")?, Some(type_ann))
}

/// `a`
fn plain_name(alloc: Global) -> Result<Node, NoMemory> {
    Node::binding_ident(alloc, SPAN, ident(alloc, "a")?, None)
}

/// `b as T`
fn typed_value(alloc: Global) -> Result<Node, NoMemory> {
    let type_ann = Node::leaf(alloc, SPAN, Kind::TsType);
    Node::ts_as_expr(alloc, SPAN, ident(alloc, "b")?, type_ann)
}

/// `let <name> = <value>`
fn declaration(alloc: Global, name: Node, value: Node) -> Result<Node, NoMemory> {
    let declarator = Node::var_declarator(alloc, SPAN, false, name, Some(value))?;
    let declarators = Nodes::from_array(alloc, [declarator])?;
    Node::var_decl(alloc, SPAN, VarDeclKind::Let, false, declarators)
}

fn typed_declaration(alloc: Global) -> Result<Node, NoMemory> {
    declaration(alloc, typed_name(alloc)?, typed_value(alloc)?)
}

fn plain_declaration(alloc: Global) -> Result<Node, NoMemory> {
    declaration(alloc, plain_name(alloc)?, ident(alloc, "b")?)
}

/// `type T = ..`
fn alias(alloc: Global) -> Result<Node, NoMemory> {
    Node::ts_type_alias_decl(alloc, SPAN, false, ident(alloc, "T")?)
}

fn typed_module(alloc: Global) -> Result<Node, NoMemory> {
    let body = Nodes::from_array(alloc, [alias(alloc)?, typed_declaration(alloc)?])?;
    Node::module(alloc, SPAN, None, body)
}

fn plain_module(alloc: Global) -> Result<Node, NoMemory> {
    let body = Nodes::from_array(alloc, [plain_declaration(alloc)?])?;
    Node::module(alloc, SPAN, None, body)
}

// A function that may let go of a node is proved for every kind that it may have: so this one alone does, where no memory is wanting.
fn let_go(_node: Node) {}

fn is_module(module: &Node, other: Node) -> bool {
    let answer = eq_ignore_span(NodeRef::Module(module), NodeRef::Module(&other));
    let_go(other);
    answer
}

fn is_plain(alloc: Global, module: &Node) -> Result<bool, NoMemory> {
    Ok(is_module(module, plain_module(alloc)?))
}

fn is_plain_once_visited(alloc: Global, mut module: Node) -> Result<bool, NoMemory> {
    let done = strip_type().visit_mut_module(alloc, &mut module);
    let answer = is_plain(alloc, &module);
    let_go(module);
    done?;
    answer
}

#[test]
fn the_pass_takes_types_out(rt: HostRuntime) -> Result<(), Fail> {
    let alloc = rt.alloc();
    assert!(rt; is_plain_once_visited(alloc, typed_module(alloc)?)?);
    assert!(rt; is_plain_once_visited(alloc, plain_module(alloc)?)?);
    Ok(())
}
