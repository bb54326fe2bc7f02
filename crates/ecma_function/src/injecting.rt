//! Expressions behind each `super(..)` of a tree.
ghost use Rattle.std.specs.Prelude.{◌≡◌, ◌+◌, ◌<◌, Err, IfOk, OnOk, map};
ghost use Rattle.ecma_kind.specs.declared.error.PassError.TheVariants as pass_error;
ghost use Rattle.ecma_scope.specs.Drawing.{HasGivenAtMost};
ghost use Rattle.ecma_tree.specs.declared.node.Node.{out-Node};
ghost use Rattle.ecma_utils.specs.Expressions.{expr_stmt_of};
ghost use Rattle.ecma_function.specs.Injecting.{as_item, as_it_is, as_named, as_other, in_sequence, is_named, joined, nothing, role_of, temp_of, var_of, writing, written_as};

use crate::call::{is_super_call, is_super_stmt};
use crate::place::{Place, is_outside, place_in};
use ecma_function_parts::draw_if;
use ecma_tree::{
    AssignOp, DUMMY_SP, Expr, Kind, NoMemory, Node, Nodes, PassError, Session, Stmt, SyntaxContext,
    VarDeclKind, copy_node,
};
use ecma_utils::ExprFactory;
use item_list::ItemList;
use std::alloc::Global;

/// What nodes became.
#[derive(Drop)]
pub(crate) struct Written {
    pub nodes: Nodes,
    /// The contexts of the names that are to be declared before the statement around them.
    pub temps: ItemList<SyntaxContext>,
    /// Whether a `super(..)` is in them.
    pub found: bool,
}

/// `_temp`
fn temp_of(alloc: Global, ctxt: SyntaxContext) -> Result<Expr, NoMemory>
    ensures { IfOk result (λ node. node ≡ temp_of ctxt) }
{
    ecma_utils::name_of_text(alloc, ctxt, DUMMY_SP, "_temp")
}

/// `var _temp;`
fn var_of(alloc: Global, ctxt: SyntaxContext) -> Result<Stmt, NoMemory>
    ensures { IfOk result (λ node. node ≡ var_of ctxt) }
{
    let name = Node::binding_ident(alloc, DUMMY_SP, temp_of(alloc, ctxt)?, None)?;
    let declarator = Node::var_declarator(alloc, DUMMY_SP, false, name, None)?;
    let decls = Nodes::from_array(alloc, [declarator])?;
    Node::var_decl(alloc, DUMMY_SP, VarDeclKind::Var, false, decls)
}

#[tactic(auto, using(ecma_function_parts::proofs::Mapping::mapping))]
fn vars_of(alloc: Global, temps: ItemList<SyntaxContext>) -> Result<Nodes, NoMemory>
    ensures { IfOk result (λ nodes. nodes ≡ map var_of temps) }
{
    let mut vars = Nodes::new(alloc);
    for ctxt in temps.into_vec() {
        vars.push(var_of(alloc, ctxt)?)?;
    }
    Ok(vars)
}

/// Copies of the expressions.
#[tactic(auto, using(ecma_function_parts::proofs::Mapping::mapping))]
fn copies_of(alloc: Global, exprs: &[Expr]) -> Result<Nodes, NoMemory>
    ensures { IfOk result (λ nodes. nodes ≡ exprs.now) }
{
    let mut copies = Nodes::new(alloc);
    for e in exprs {
        copies.push(copy_node(alloc, e)?)?;
    }
    Ok(copies)
}

/// The expressions as statements.
#[tactic(auto, using(ecma_function_parts::proofs::Mapping::mapping))]
pub(crate) fn stmts_of(alloc: Global, exprs: Nodes) -> Result<Nodes, NoMemory>
    ensures { IfOk result (λ nodes. nodes ≡ map expr_stmt_of exprs) }
{
    let mut stmts = Nodes::new(alloc);
    for e in exprs.into_vec() {
        stmts.push(e.into_stmt(alloc)?)?;
    }
    Ok(stmts)
}

/// `_temp = call, exprs, _temp`
fn in_sequence(
    alloc: Global,
    exprs: &[Expr],
    ctxt: SyntaxContext,
    call: Expr,
) -> Result<Expr, NoMemory>
    ensures { IfOk result (λ node. node ≡ in_sequence exprs.now ctxt call) }
{
    let set = call.make_assign_to(alloc, AssignOp::Assign, temp_of(alloc, ctxt)?)?;
    let mut all = Nodes::from_array(alloc, [set])?;
    all.append(copies_of(alloc, exprs)?)?;
    all.push(temp_of(alloc, ctxt)?)?;
    Ok(Node::new(DUMMY_SP, Kind::SeqExpr, all))
}

fn nothing(alloc: Global) -> Written
    ensures { result ≡ nothing }
{
    Written {
        nodes: Nodes::new(alloc),
        temps: ItemList::new(alloc),
        found: false,
    }
}

fn as_it_is(alloc: Global, node: Node) -> Result<Written, NoMemory>
    ensures { IfOk result (λ written. written ≡ as_it_is node) }
{
    Ok(Written {
        nodes: Nodes::from_array(alloc, [node])?,
        temps: ItemList::new(alloc),
        found: false,
    })
}

/// One behind the other.
fn joined(before: Written, more: Written) -> Result<Written, NoMemory>
    ensures { IfOk result (λ written. written ≡ joined before more) }
{
    let Written {
        mut nodes,
        mut temps,
        found,
    } = before;
    nodes.append(more.nodes)?;
    temps.append(more.temps)?;
    Ok(Written {
        nodes,
        temps,
        found: found || more.found,
    })
}

/// What a node is there for.
#[derive(Clone, Copy, Debug)]
pub(crate) enum Role {
    /// A statement `super(..);` of a list.
    SuperStmt,
    /// Another statement of a list.
    Stmt,
    /// A `super(..)` whose value gets a name.
    Named,
    /// A `super(..)` that is a statement of a list.
    Alone,
    Other,
}

fn role_of(place: Place, node: &Node) -> Role
    ensures { result ≡ role_of place node.now }
{
    match place {
        Place::Item => {
            if is_super_stmt(node) {
                Role::SuperStmt
            } else {
                Role::Stmt
            }
        }
        Place::Inside => {
            if is_super_call(node) {
                Role::Named
            } else {
                Role::Other
            }
        }
        _ => {
            if is_super_call(node) {
                Role::Alone
            } else {
                Role::Other
            }
        }
    }
}

fn as_item(
    alloc: Global,
    node: Stmt,
    behind: Nodes,
    temps: ItemList<SyntaxContext>,
    found: bool,
) -> Result<Written, NoMemory>
    ensures { IfOk result (λ written. written ≡ as_item node behind temps found) }
{
    let mut nodes = vars_of(alloc, temps)?;
    nodes.push(node)?;
    nodes.append(behind)?;
    let temps = ItemList::new(alloc);
    Ok(Written {
        nodes,
        temps,
        found,
    })
}

fn as_named(
    alloc: Global,
    node: Expr,
    ctxt: SyntaxContext,
    temps: ItemList<SyntaxContext>,
) -> Result<Written, NoMemory>
    ensures { IfOk result (λ written. written ≡ as_named node ctxt temps) }
{
    let nodes = Nodes::from_array(alloc, [node])?;
    let mut all = ItemList::from_array(alloc, [ctxt])?;
    all.append(temps)?;
    Ok(Written {
        nodes,
        temps: all,
        found: true,
    })
}

fn as_other(
    alloc: Global,
    node: Node,
    temps: ItemList<SyntaxContext>,
    found: bool,
) -> Result<Written, NoMemory>
    ensures { IfOk result (λ written. written ≡ as_other node temps found) }
{
    let nodes = Nodes::from_array(alloc, [node])?;
    Ok(Written {
        nodes,
        temps,
        found,
    })
}

/// A node, over what its children became, by what it is there for.
fn write_as(
    alloc: Global,
    exprs: &[Expr],
    role: Role,
    ctxt: SyntaxContext,
    node: Node,
    temps: ItemList<SyntaxContext>,
    found: bool,
) -> Result<Written, NoMemory>
    ensures { IfOk result (λ written. written ≡ written_as exprs.now role ctxt node temps found) }
{
    match role {
        Role::SuperStmt => {
            let behind = stmts_of(alloc, copies_of(alloc, exprs)?)?;
            as_item(alloc, node, behind, temps, found)
        }
        Role::Stmt => as_item(alloc, node, Nodes::new(alloc), temps, found),
        Role::Named => {
            let sequence = in_sequence(alloc, exprs, ctxt, node)?;
            as_named(alloc, sequence, ctxt, temps)
        }
        Role::Alone => as_other(alloc, node, temps, true),
        Role::Other => as_other(alloc, node, temps, found),
    }
}

/// Whether a context is drawn.
fn is_named(role: Role) -> bool
    ensures { result ≡ is_named role }
{
    matches!(role, Role::Named)
}

/// Writes the expressions behind each `super(..)` of a node.
pub(crate) fn write(
    alloc: Global,
    session: &mut Session,
    exprs: &[Expr],
    place: Place,
    node: Node,
) -> Result<Written, PassError>
    ensures written { IfOk result (λ written. written ≡ (writing exprs.now node place session.old.left).written) }
    ensures left { OnOk result (session.new.left + (writing exprs.now node place session.old.left).draws ≡ session.old.left) }
    ensures spent { result ≡ Err pass_error.Spent → session.old.left < (writing exprs.now node place session.old.left).draws }
    ensures session { HasGivenAtMost ((writing exprs.now node place session.old.left).draws) session.old session.new }
{
    if is_outside(place) {
        return Ok(as_it_is(alloc, node)?);
    }
    let role = role_of(place, &node);
    let ctxt = draw_if(session, is_named(role))?;
    let Node {
        span,
        kind,
        mut children,
    } = node;
    let mut inside = nothing(alloc);
    for i in 0..children.len() {
        let child = children.replace(i, Node::absent(alloc));
        let more = write(alloc, session, exprs, place_in(place, &kind, i), child)?;
        inside = joined(inside, more)?;
    }
    let Written {
        nodes,
        temps,
        found,
    } = inside;
    let node = Node::new(span, kind, nodes);
    Ok(write_as(alloc, exprs, role, ctxt, node, temps, found)?)
}
