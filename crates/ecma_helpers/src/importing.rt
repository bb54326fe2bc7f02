//! The imports of the helpers that are used.
ghost use Rattle.std.specs.Prelude.{◌≡◌, ◌≤◌, ◌++◌, IfOk, OnErr, OnOk, length};
ghost use Rattle.ecma_helpers.specs.Importing.{behind_directives, import_of, imports_for, imports_of, specifier_of, with_imports};
ghost use Rattle.ecma_helpers.specs.Slots.{with_all_unused};
ghost use Rattle.ecma_utils.specs.Directives.{front_length, is_text_stmt};

use crate::name::{HelperName, source_of, text_of};
use crate::slots::{kept_of, set_helpers_unused};
use ecma_tree::{DUMMY_SP, Module, ModuleItem, NoMemory, Node, Nodes, Session, SyntaxContext};
use ecma_utils::is_maybe_branch_directive;
use std::alloc::Global;
use std::mem;

/// `_ as _get`
fn specifier_of(alloc: Global, name: HelperName, ctxt: SyntaxContext) -> Result<Node, NoMemory>
    ensures { IfOk result (λ node. node ≡ specifier_of name ctxt) }
{
    let local = ecma_utils::name_of_text(alloc, ctxt, DUMMY_SP, text_of(name))?;
    let imported = ecma_utils::name_of_text(alloc, SyntaxContext::empty(), DUMMY_SP, "_")?;
    Node::import_named_specifier(alloc, DUMMY_SP, false, local, Some(imported))
}

/// `import { _ as _get } from "@swc/helpers/_/_get";`
fn import_of(alloc: Global, name: HelperName, ctxt: SyntaxContext) -> Result<ModuleItem, NoMemory>
    ensures { IfOk result (λ node. node ≡ import_of name ctxt) }
{
    let specifiers = Nodes::from_array(alloc, [specifier_of(alloc, name, ctxt)?])?;
    let source = ecma_utils::literal_of_text(alloc, DUMMY_SP, source_of(name))?;
    Node::import_decl(alloc, DUMMY_SP, false, specifiers, source, None)
}

/// Puts the import of a helper behind the others, if it is used.
fn push_import(
    alloc: Global,
    session: &Session,
    name: HelperName,
    to: &mut Nodes,
) -> Result<(), NoMemory>
    ensures { OnOk result (to.new ≡ to.old ++ imports_for name session.now) }
{
    if let Some((ctxt, true)) = kept_of(session, name) {
        to.push(import_of(alloc, name, ctxt)?)?;
    }
    Ok(())
}

/// The imports of the helpers that are used.
fn imports_of(alloc: Global, session: &Session) -> Result<Nodes, NoMemory>
    ensures { IfOk result (λ nodes. nodes ≡ imports_of session.now) }
{
    let mut imports = Nodes::new(alloc);
    push_import(alloc, session, HelperName::Get, &mut imports)?;
    push_import(alloc, session, HelperName::GetPrototypeOf, &mut imports)?;
    push_import(alloc, session, HelperName::Set, &mut imports)?;
    push_import(alloc, session, HelperName::Update, &mut imports)?;
    push_import(
        alloc,
        session,
        HelperName::AssertThisInitialized,
        &mut imports,
    )?;
    Ok(imports)
}

/// How many items stand in front: the directives.
#[tactic(auto, using(ecma_utils::proofs::Fronts::fronts))]
fn front_length(items: &[ModuleItem]) -> usize
    ensures value { result ≡ front_length is_text_stmt items.now }
    ensures within { result ≤ length items.now }
{
    for i in 0..items.len() {
        if !is_maybe_branch_directive(&items[i]) {
            return i;
        }
    }
    items.len()
}

/// Items behind the directives of others.
fn behind_directives(more: Nodes, items: Nodes) -> Result<Nodes, NoMemory>
    ensures { IfOk result (λ nodes. nodes ≡ behind_directives more items) }
{
    let mut items = items.into_vec();
    let mut more = more.into_vec();
    let front = front_length(items.as_slice());
    let count = more.len();
    items.append(&mut more)?;
    items[front..].rotate_right(count);
    Ok(Nodes::from_vec(items))
}

/// A module with items behind its directives.
#[tactic(auto, using(crate::proofs::Firsts::firsts))]
fn with_imports(alloc: Global, imports: Nodes, tree: Module) -> Result<Module, NoMemory>
    ensures { IfOk result (λ new. new ≡ with_imports imports tree) }
{
    let Node {
        span,
        kind,
        mut children,
    } = tree;
    if children.is_empty() {
        return Ok(Node::new(span, kind, children));
    }
    let list = children.replace(0, Node::absent(alloc));
    let items = behind_directives(imports, list.children)?;
    children.set(0, Node::new(list.span, list.kind, items));
    Ok(Node::new(span, kind, children))
}

/// Writes the imports of the helpers that are used, behind the directives of a module; then no helper is used. Its only refusal is want of memory, after which
/// the session is as it was.
pub fn inject_helpers(
    alloc: Global,
    session: &mut Session,
    tree: &mut Module,
) -> Result<(), NoMemory>
    ensures tree { OnOk result (tree.new ≡ with_imports (imports_of session.old) tree.old) }
    ensures session { OnOk result (session.new ≡ with_all_unused session.old) }
    ensures refused { OnErr result (session.new ≡ session.old) }
{
    let imports = imports_of(alloc, session)?;
    let old = mem::replace(tree, Node::absent(alloc));
    *tree = with_imports(alloc, imports, old)?;
    set_helpers_unused(session);
    Ok(())
}
