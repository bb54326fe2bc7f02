//! Loops, ambient declarations, namespaces, imports by `=`, modules.
ghost use Rattle.std.specs.Prelude.{◌≡◌, IfOk};
ghost use Rattle.ecma_grammar.specs.trees.Parts.{framed, kind_of};
ghost use Rattle.ecma_grammar.specs.trees.Others.{declared, declared_kind, headed, import_equals, module_of, namespace, nested, text_of};

use ecma_nodes_parts::{four, is_present, one, two};
use ecma_tree::{JsWord, Kind, NoMemory, Node, Nodes, Span};
use std::alloc::Global;

/// The head of a loop with its body.
pub fn headed(alloc: Global, span: Span, items: Nodes) -> Result<Node, NoMemory>
    ensures { IfOk result (λ x. x ≡ framed 2 (headed span) items) }
{
    let Some((head, body)) = two(items) else {
        return Ok(Node::absent(alloc));
    };
    let Node {
        kind,
        mut children,
        ..
    } = head;
    children.push(body)?;
    Ok(Node::new(span, kind, children))
}

fn declared_kind(kind: Kind) -> Kind
    ensures { result ≡ declared_kind kind }
{
    match kind {
        Kind::FnDecl { .. } => Kind::FnDecl { declare: true },
        Kind::ClassDecl { .. } => Kind::ClassDecl { declare: true },
        Kind::VarDecl { kind, .. } => Kind::VarDecl {
            kind,
            declare: true,
        },
        Kind::TsInterfaceDecl { .. } => Kind::TsInterfaceDecl { declare: true },
        Kind::TsTypeAliasDecl { .. } => Kind::TsTypeAliasDecl { declare: true },
        Kind::TsEnumDecl { is_const, .. } => Kind::TsEnumDecl {
            declare: true,
            is_const,
        },
        Kind::TsModuleDecl { global, .. } => Kind::TsModuleDecl {
            declare: true,
            global,
        },
        other => other,
    }
}

/// A declaration behind `declare`.
pub fn declared(alloc: Global, span: Span, items: Nodes) -> Node
    ensures { result ≡ framed 1 (declared span) items }
{
    match one(items) {
        Some(declaration) => {
            let Node { kind, children, .. } = declaration;
            Node::new(span, declared_kind(kind), children)
        }
        None => Node::absent(alloc),
    }
}

/// A namespace inside another.
fn nested(alloc: Global, hi: u32, name: Node, body: Node) -> Result<Node, NoMemory>
    ensures { IfOk result (λ x. x ≡ nested hi name body) }
{
    let span = Span {
        lo: name.span.lo,
        hi,
    };
    let kind = Kind::TsNamespaceDecl {
        declare: false,
        global: false,
    };
    Node::of(alloc, span, kind, [name, body])
}

/// The names of a namespace and its body: a name behind a point is a namespace inside.
#[tactic(auto, using(crate::proofs::Namespaces::nesting))]
pub fn namespace(alloc: Global, span: Span, items: Nodes) -> Result<Node, NoMemory>
    ensures { IfOk result (λ x. x ≡ namespace span items) }
{
    let mut names = items;
    let Some(mut body) = names.pop() else {
        return Ok(Node::absent(alloc));
    };
    let count = names.len();
    for i in 1..count {
        match names.pop() {
            Some(name) => body = nested(alloc, span.hi, name, body)?,
            None => return Ok(Node::absent(alloc)),
        }
    }
    let kind = Kind::TsModuleDecl {
        declare: false,
        global: false,
    };
    match names.pop() {
        Some(name) => Node::of(alloc, span, kind, [name, body]),
        None => Ok(Node::absent(alloc)),
    }
}

/// `import a = ..`.
pub fn import_equals(alloc: Global, span: Span, items: Nodes) -> Result<Node, NoMemory>
    ensures { IfOk result (λ x. x ≡ framed 4 (import_equals span) items) }
{
    let Some((is_export, is_type_only, name, reference)) = four(items) else {
        return Ok(Node::absent(alloc));
    };
    let kind = Kind::TsImportEqualsDecl {
        is_export: is_present(&is_export),
        is_type_only: is_present(&is_type_only),
    };
    Node::of(alloc, span, kind, [name, reference])
}

/// The text of a name.
fn text_of(node: Node) -> Option<JsWord>
    ensures { result ≡ text_of (kind_of node) }
{
    let Node { kind, .. } = node;
    match kind {
        Kind::IdentName { sym } => Some(sym),
        _ => None,
    }
}

/// A module of its hashbang and its items.
pub fn module_of(alloc: Global, span: Span, items: Nodes) -> Result<Node, NoMemory>
    ensures { IfOk result (λ x. x ≡ framed 2 (module_of span) items) }
{
    let Some((hashbang, body)) = two(items) else {
        return Ok(Node::absent(alloc));
    };
    let kind = Kind::Module {
        shebang: text_of(hashbang),
    };
    Node::of(alloc, span, kind, [body])
}
