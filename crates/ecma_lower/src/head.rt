//! The head of a module that makes its `require`.
ghost use Rattle.std.specs.Prelude.{◌≡◌, IfOk, OnOk, []};
ghost use Rattle.ecma_lower.specs.Heads.{behind_directives, create_import, create_specifier, require_constant, url_of_module, with_head};

use crate::items::{put_items, take_items};
use ecma_tree::{
    DUMMY_SP, Expr, Ident, Kind, MetaPropKind, Module, ModuleItem, NoMemory, Node, Nodes,
    SyntaxContext, VarDeclKind,
};
use ecma_utils::{ExprFactory, prepend_stmt};
use std::alloc::Global;

/// The names of the function that makes a `require`, and of the one that it makes.
#[derive(Debug, Drop)]
pub struct Head {
    pub create: Ident,
    pub required: Ident,
}

/// `createRequire as _createRequire`
fn create_specifier(alloc: Global, create: Ident) -> Result<Node, NoMemory>
    ensures { IfOk result (λ node. node ≡ create_specifier create) }
{
    let local = Node::of_ident(alloc, create);
    let empty = SyntaxContext::empty();
    let imported = ecma_utils::member_expr!(alloc, empty, DUMMY_SP, createRequire)?;
    Node::import_named_specifier(alloc, DUMMY_SP, false, local, Some(imported))
}

/// `import { createRequire as _createRequire } from "module";`
fn create_import(alloc: Global, create: Ident) -> Result<ModuleItem, NoMemory>
    ensures { IfOk result (λ node. node ≡ create_import create) }
{
    let specifiers = Nodes::from_array(alloc, [create_specifier(alloc, create)?])?;
    let source = ecma_utils::quote_str!(alloc, "module")?;
    Node::import_decl(alloc, DUMMY_SP, false, specifiers, source, None)
}

/// `import.meta.url`
fn url_of_module(alloc: Global) -> Result<Expr, NoMemory>
    ensures { IfOk result (λ node. node ≡ url_of_module) }
{
    let kind = Kind::MetaPropExpr {
        kind: MetaPropKind::ImportMeta,
    };
    let key = ecma_utils::quote_ident!(alloc, "url")?;
    Node::leaf(alloc, DUMMY_SP, kind).make_member(alloc, key)
}

/// `const __require = _createRequire(import.meta.url);`
fn require_constant(alloc: Global, head: Head) -> Result<ModuleItem, NoMemory>
    ensures { IfOk result (λ node. node ≡ require_constant head) }
{
    let args = Nodes::from_array(alloc, [url_of_module(alloc)?])?;
    let call = Node::of_ident(alloc, head.create).as_call(alloc, DUMMY_SP, args)?;
    let name = Node::of_ident(alloc, head.required);
    let pattern = Node::binding_ident(alloc, DUMMY_SP, name, None)?;
    call.into_var_decl(alloc, VarDeclKind::Const, pattern)
}

/// Puts the head of a module behind its directives: the import, then the constant.
#[tactic(auto, using(crate::proofs::Putting::putting))]
pub(crate) fn put_head(alloc: Global, head: Head, tree: &mut Module) -> Result<(), NoMemory>
    ensures { OnOk result (tree.new ≡ with_head head tree.old) }
{
    let import = create_import(alloc, head.create.clone()?)?;
    let constant = require_constant(alloc, head)?;
    let mut items = take_items(alloc, tree).into_vec();
    prepend_stmt(&mut items, constant)?;
    prepend_stmt(&mut items, import)?;
    put_items(tree, Nodes::from_vec(items));
    Ok(())
}
