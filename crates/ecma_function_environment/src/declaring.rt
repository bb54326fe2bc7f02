//! How the names of what is needed are declared.
ghost use Rattle.std.specs.Prelude.{◌≡◌, ◌+◌, ◌<◌, ◌++◌, ◌∷◌, [], Err, IfOk, OnOk, slice_get};
ghost use Rattle.ecma_utils.specs.Expressions.{assign_of, block_of};
ghost use Rattle.ecma_kind.specs.declared.error.PassError.TheVariants as pass_error;
ghost use Rattle.ecma_scope.specs.Drawing.{HasGivenAtMost};
ghost use Rattle.ecma_function_parts.specs.Written.{binding_of};
ghost use Rattle.ecma_function_environment.specs.Declaring.{accessors, declarator, declarator_draws, declarator_of, declarators, declared, declared_draws, draws_of, entry_at, getter, getting, has_prop, has_value, in_rank_order, init_of, key_args, key_params, member_key, new_target_node, of_rank, prop_name, rank_of, setter, setter_body, setting, stands_for, super_member, updating, value_name, var_by};

use crate::hoisting::{access_call, key_named};
use crate::need::{Access, Names, Need, copy_need, copy_of, ident_of_need};
use ecma_function_parts::{arguments_node, binding_of, draw_if, this_node};
use ecma_tree::{
    AssignOp, DUMMY_SP, Expr, JsWord, Kind, MetaPropKind, NoMemory, Node, Nodes, PassError,
    Session, Stmt, SyntaxContext, VarDeclKind,
};
use ecma_utils::ExprFactory;
use item_list::ItemList;
use std::alloc::Global;

fn has_prop(need: &Need) -> bool
    ensures { result ≡ has_prop need.now }
{
    matches!(need, Need::Super { key: None, .. })
}

fn has_value(need: &Need) -> bool
    ensures { result ≡ has_value need.now }
{
    matches!(
        need,
        Need::Super {
            access: Access::Set | Access::Update,
            ..
        }
    )
}

fn prop_name(alloc: Global, ctxt: SyntaxContext) -> Result<Expr, NoMemory>
    ensures { IfOk result (λ node. node ≡ prop_name ctxt) }
{
    ecma_utils::name_of_text(alloc, ctxt, DUMMY_SP, "_prop")
}

fn value_name(alloc: Global, ctxt: SyntaxContext) -> Result<Expr, NoMemory>
    ensures { IfOk result (λ node. node ≡ value_name ctxt) }
{
    ecma_utils::name_of_text(alloc, ctxt, DUMMY_SP, "_value")
}

fn key_args(alloc: Global, key: &Option<JsWord>, prop: SyntaxContext) -> Result<Nodes, NoMemory>
    ensures { IfOk result (λ nodes. nodes ≡ key_args key.now prop) }
{
    match key {
        Some(_) => Ok(Nodes::new(alloc)),
        None => Ok(Nodes::from_array(alloc, [prop_name(alloc, prop)?])?),
    }
}

fn key_params(alloc: Global, key: &Option<JsWord>, prop: SyntaxContext) -> Result<Nodes, NoMemory>
    ensures { IfOk result (λ nodes. nodes ≡ key_params key.now prop) }
{
    match key {
        Some(_) => Ok(Nodes::new(alloc)),
        None => {
            let name = binding_of(alloc, prop_name(alloc, prop)?)?;
            Ok(Nodes::from_array(alloc, [name])?)
        }
    }
}

fn member_key(alloc: Global, key: &Option<JsWord>, prop: SyntaxContext) -> Result<Node, NoMemory>
    ensures { IfOk result (λ node. node ≡ member_key key.now prop) }
{
    match key {
        Some(key) => ecma_utils::key_of_text(alloc, DUMMY_SP, key.as_str()),
        None => Node::computed_prop_name(alloc, DUMMY_SP, prop_name(alloc, prop)?),
    }
}

/// `super.f`, `super[_prop]`
fn super_member(alloc: Global, key: &Option<JsWord>, prop: SyntaxContext) -> Result<Expr, NoMemory>
    ensures { IfOk result (λ node. node ≡ super_member key.now prop) }
{
    let object = Node::leaf(alloc, DUMMY_SP, Kind::Super);
    let key = member_key(alloc, key, prop)?;
    Node::super_prop_expr(alloc, DUMMY_SP, object, key)
}

/// `(_prop) => super[_prop]`
fn getting(alloc: Global, key: &Option<JsWord>, prop: SyntaxContext) -> Result<Expr, NoMemory>
    ensures { IfOk result (λ node. node ≡ getting key.now prop) }
{
    let member = super_member(alloc, key, prop)?;
    member.into_lazy_arrow(alloc, key_params(alloc, key, prop)?)
}

/// `_value`, as a parameter
fn value_param(alloc: Global, value: SyntaxContext) -> Result<Node, NoMemory>
    ensures { IfOk result (λ node. node ≡ binding_of (value_name value)) }
{
    binding_of(alloc, value_name(alloc, value)?)
}

/// `_prop, _value`, as parameters
fn set_params(
    alloc: Global,
    key: &Option<JsWord>,
    prop: SyntaxContext,
    value: SyntaxContext,
) -> Result<Nodes, NoMemory>
    ensures { IfOk result (λ nodes. nodes ≡ key_params key.now prop ++ binding_of (value_name value) ∷ []) }
{
    let mut params = key_params(alloc, key, prop)?;
    params.push(value_param(alloc, value)?)?;
    Ok(params)
}

/// `super[_prop] = _value`
fn set_member(
    alloc: Global,
    key: &Option<JsWord>,
    prop: SyntaxContext,
    value: SyntaxContext,
) -> Result<Expr, NoMemory>
    ensures { IfOk result (λ node. node ≡ assign_of AssignOp.Assign (super_member key.now prop) (value_name value)) }
{
    let target = super_member(alloc, key, prop)?;
    value_name(alloc, value)?.make_assign_to(alloc, AssignOp::Assign, target)
}

/// `(_prop, _value) => super[_prop] = _value`
fn setting(
    alloc: Global,
    key: &Option<JsWord>,
    prop: SyntaxContext,
    value: SyntaxContext,
) -> Result<Expr, NoMemory>
    ensures { IfOk result (λ node. node ≡ setting key.now prop value) }
{
    let set = set_member(alloc, key, prop, value)?;
    set.into_lazy_arrow(alloc, set_params(alloc, key, prop, value)?)
}

fn block_of(alloc: Global, stmt: Stmt) -> Result<Node, NoMemory>
    ensures { IfOk result (λ node. node ≡ block_of (stmt ∷ [])) }
{
    let stmts = Nodes::from_array(alloc, [stmt])?;
    Node::block_stmt(alloc, DUMMY_SP, stmts)
}

/// `get _() { return _superprop_get(_prop); }`
fn getter(
    alloc: Global,
    names: &Names,
    key: &Option<JsWord>,
    prop: SyntaxContext,
) -> Result<Node, NoMemory>
    ensures { IfOk result (λ node. node ≡ getter names.now.entries key.now prop) }
{
    let args = key_args(alloc, key, prop)?;
    let read = access_call(alloc, names, Access::Get, copy_of(key)?, DUMMY_SP, args)?;
    let body = block_of(alloc, read.into_return_stmt(alloc)?)?;
    Node::getter_prop(alloc, DUMMY_SP, key_named(alloc, "_")?, None, Some(body))
}

/// `_prop, _value`
fn set_args(
    alloc: Global,
    key: &Option<JsWord>,
    prop: SyntaxContext,
    value: SyntaxContext,
) -> Result<Nodes, NoMemory>
    ensures { IfOk result (λ nodes. nodes ≡ key_args key.now prop ++ value_name value ∷ []) }
{
    let mut args = key_args(alloc, key, prop)?;
    args.push(value_name(alloc, value)?)?;
    Ok(args)
}

/// `{ _superprop_set(_prop, _value); }`
fn setter_body(
    alloc: Global,
    names: &Names,
    key: &Option<JsWord>,
    prop: SyntaxContext,
    value: SyntaxContext,
) -> Result<Node, NoMemory>
    ensures { IfOk result (λ node. node ≡ setter_body names.now.entries key.now prop value) }
{
    let args = set_args(alloc, key, prop, value)?;
    let write = access_call(alloc, names, Access::Set, copy_of(key)?, DUMMY_SP, args)?;
    block_of(alloc, write.into_stmt(alloc)?)
}

/// `set _(_value) { _superprop_set(_prop, _value); }`
fn setter(
    alloc: Global,
    names: &Names,
    key: &Option<JsWord>,
    prop: SyntaxContext,
    value: SyntaxContext,
) -> Result<Node, NoMemory>
    ensures { IfOk result (λ node. node ≡ setter names.now.entries key.now prop value) }
{
    let body = setter_body(alloc, names, key, prop, value)?;
    let param = value_param(alloc, value)?;
    Node::setter_prop(
        alloc,
        DUMMY_SP,
        key_named(alloc, "_")?,
        None,
        param,
        Some(body),
    )
}

fn accessors(
    alloc: Global,
    names: &Names,
    key: &Option<JsWord>,
    prop: SyntaxContext,
    value: SyntaxContext,
) -> Result<Expr, NoMemory>
    ensures { IfOk result (λ node. node ≡ accessors names.now.entries key.now prop value) }
{
    let getter = getter(alloc, names, key, prop)?;
    let setter = setter(alloc, names, key, prop, value)?;
    let props = Nodes::from_array(alloc, [getter, setter])?;
    Node::object_lit(alloc, DUMMY_SP, props)
}

fn updating(
    alloc: Global,
    names: &Names,
    key: &Option<JsWord>,
    prop: SyntaxContext,
    value: SyntaxContext,
) -> Result<Expr, NoMemory>
    ensures { IfOk result (λ node. node ≡ updating names.now.entries key.now prop value) }
{
    let object = accessors(alloc, names, key, prop, value)?;
    match key {
        Some(_) => Ok(object),
        None => object.into_lazy_arrow(alloc, key_params(alloc, &None, prop)?),
    }
}

fn new_target_node(alloc: Global) -> Expr
    ensures { result ≡ new_target_node }
{
    let kind = MetaPropKind::NewTarget;
    Node::leaf(alloc, DUMMY_SP, Kind::MetaPropExpr { kind })
}

/// What a name stands for.
fn stands_for(
    alloc: Global,
    names: &Names,
    need: &Need,
    prop: SyntaxContext,
    value: SyntaxContext,
) -> Result<Expr, NoMemory>
    ensures { IfOk result (λ node. node ≡ stands_for names.now.entries need.now prop value) }
{
    match need {
        Need::This => Ok(this_node(alloc)),
        Need::Arguments => arguments_node(alloc),
        Need::NewTarget => Ok(new_target_node(alloc)),
        Need::Super { access, key } => match access {
            Access::Get => getting(alloc, key, prop),
            Access::Set => setting(alloc, key, prop, value),
            Access::Update => updating(alloc, names, key, prop, value),
        },
    }
}

fn init_of(
    alloc: Global,
    in_subclass: bool,
    names: &Names,
    need: &Need,
    prop: SyntaxContext,
    value: SyntaxContext,
) -> Result<Node, NoMemory>
    ensures { IfOk result (λ node. node ≡ init_of in_subclass names.now.entries need.now prop value) }
{
    match need {
        Need::This => {
            if in_subclass {
                return Ok(Node::absent(alloc));
            }
            Ok(this_node(alloc))
        }
        _ => stands_for(alloc, names, need, prop, value),
    }
}

fn declarator_of(
    alloc: Global,
    need: &Need,
    ctxt: SyntaxContext,
    init: Node,
) -> Result<Node, NoMemory>
    ensures { IfOk result (λ node. node ≡ declarator_of need.now ctxt init) }
{
    let name = Node::of_ident(alloc, ident_of_need(alloc, need, ctxt)?);
    let name = binding_of(alloc, name)?;
    let kind = Kind::VarDeclarator { definite: false };
    Node::of(alloc, DUMMY_SP, kind, [name, init])
}

/// The declarator of a name, whose parameters are drawn.
fn declarator(
    alloc: Global,
    session: &mut Session,
    in_subclass: bool,
    names: &Names,
    need: &Need,
    ctxt: SyntaxContext,
) -> Result<Node, PassError>
    ensures node { IfOk result (λ node. node ≡ declarator in_subclass names.now.entries need.now ctxt session.old.left) }
    ensures left { OnOk result (session.new.left + draws_of need.now ≡ session.old.left) }
    ensures spent { result ≡ Err pass_error.Spent → session.old.left < draws_of need.now }
    ensures session { HasGivenAtMost (draws_of need.now) session.old session.new }
{
    let prop = draw_if(session, has_prop(need))?;
    let value = draw_if(session, has_value(need))?;
    let init = init_of(alloc, in_subclass, names, need, prop, value)?;
    Ok(declarator_of(alloc, need, ctxt, init)?)
}

fn rank_of(need: &Need) -> usize
    ensures { result ≡ rank_of need.now }
{
    match need {
        Need::This => 0,
        Need::Arguments => 1,
        Need::NewTarget => 2,
        Need::Super { access, key } => match (access, key) {
            (Access::Update, Some(_)) => 3,
            (Access::Update, None) => 4,
            (Access::Get, Some(_)) => 5,
            (Access::Get, None) => 6,
            (Access::Set, Some(_)) => 7,
            (Access::Set, None) => 8,
        },
    }
}

/// Puts a name behind the others, if it has the rank.
fn push_if(
    rank: usize,
    need: &Need,
    ctxt: SyntaxContext,
    to: &mut ItemList<(Need, SyntaxContext)>,
) -> Result<(), NoMemory>
    ensures { OnOk result (to.new ≡ to.old ++ of_rank rank ((need.now, ctxt) ∷ [])) }
{
    if rank_of(need) == rank {
        to.push((copy_need(need)?, ctxt))?;
    }
    Ok(())
}

/// Puts the name at an index behind the others, if it has the rank.
fn push_at(
    names: &Names,
    index: usize,
    rank: usize,
    to: &mut ItemList<(Need, SyntaxContext)>,
) -> Result<(), NoMemory>
    ensures { OnOk result (to.new ≡ to.old ++ of_rank rank (entry_at (slice_get names.now.entries index))) }
{
    match names.get_index(index) {
        Some((need, ctxt)) => push_if(rank, need, *ctxt, to),
        None => Ok(()),
    }
}

/// Puts the names of one rank behind the others.
#[tactic(auto, using(crate::proofs::Ranks::ranking))]
fn push_rank(
    names: &Names,
    rank: usize,
    to: &mut ItemList<(Need, SyntaxContext)>,
) -> Result<(), NoMemory>
    ensures { OnOk result (to.new ≡ to.old ++ of_rank rank names.now.entries) }
{
    for i in 0..names.len() {
        push_at(names, i, rank, to)?;
    }
    Ok(())
}

/// The names, in the order of their declarations.
#[tactic(auto, using(crate::proofs::Ranks::ranking))]
fn in_rank_order(alloc: Global, names: &Names) -> Result<ItemList<(Need, SyntaxContext)>, NoMemory>
    ensures { IfOk result (λ all. all ≡ in_rank_order names.now.entries) }
{
    let mut all = ItemList::new(alloc);
    for rank in 0..9 {
        push_rank(names, rank, &mut all)?;
    }
    Ok(all)
}

/// The declarators of all names.
pub(crate) fn declared(
    alloc: Global,
    session: &mut Session,
    in_subclass: bool,
    names: &Names,
) -> Result<Nodes, PassError>
    ensures nodes { IfOk result (λ nodes. nodes ≡ declared in_subclass names.now.entries session.old.left) }
    ensures left { OnOk result (session.new.left + declared_draws names.now.entries ≡ session.old.left) }
    ensures spent { result ≡ Err pass_error.Spent → session.old.left < declared_draws names.now.entries }
    ensures session { HasGivenAtMost (declared_draws names.now.entries) session.old session.new }
{
    let entries = in_rank_order(alloc, names)?;
    let mut decls = Nodes::new(alloc);
    for i in 0..entries.len() {
        let (need, ctxt) = entries.at(i);
        decls.push(declarator(alloc, session, in_subclass, names, need, *ctxt)?)?;
    }
    Ok(decls)
}

/// One `var` of declarators, if there are any.
pub(crate) fn var_by(alloc: Global, decls: Nodes) -> Result<Option<Stmt>, NoMemory>
    ensures { IfOk result (λ stmt. stmt ≡ var_by decls) }
{
    if decls.is_empty() {
        return Ok(None);
    }
    let stmt = Node::var_decl(alloc, DUMMY_SP, VarDeclKind::Var, false, decls)?;
    Ok(Some(stmt))
}
