//! Names in the places of what a function takes of its surroundings, and how they are declared.
use crate::reading::{laid_out, let_go, read};
use ecma_function_environment::FnEnvHoister;
use ecma_print::print_module;
use ecma_tree::{
    DUMMY_SP, Module, Node, Nodes, PassError, Session, Stmt, SyntaxContext, VarDeclKind,
};
use ecma_utils::ExprFactory;
use std::alloc::Global;
use std::mem;
use std::test::Fail;

/// Which call hoists, of the expression statements of a module: the pattern is that of an assignment.
#[derive(Clone, Copy, Debug)]
enum Of {
    Expr,
    Pat,
    Stmts,
}

/// What is disabled.
#[derive(Clone, Copy, Debug)]
enum Off {
    Nothing,
    Arguments,
    This,
    Super,
}

/// Which call declares the names.
#[derive(Clone, Copy, Debug)]
enum As {
    Decl,
    Stmt,
    InSubclass,
}

/// Hoists what the expression of a statement needs.
fn visit_expr(
    session: &mut Session,
    hoister: &mut FnEnvHoister,
    stmt: &mut Stmt,
) -> Result<(), PassError> {
    if stmt.children.is_empty() {
        return Ok(());
    }
    hoister.visit_mut_expr(session, stmt.children.get_mut(0))
}

/// Hoists what the pattern of an assignment needs.
fn visit_pat(
    session: &mut Session,
    hoister: &mut FnEnvHoister,
    stmt: &mut Stmt,
) -> Result<(), PassError> {
    if stmt.children.is_empty() {
        return Ok(());
    }
    let e = stmt.children.get_mut(0);
    if e.children.is_empty() {
        return Ok(());
    }
    hoister.visit_mut_pat(session, e.children.get_mut(0))
}

fn visit(
    alloc: Global,
    session: &mut Session,
    hoister: &mut FnEnvHoister,
    of: Of,
    list: &mut Node,
) -> Result<(), PassError> {
    let mut stmts = mem::replace(&mut list.children, Nodes::new(alloc)).into_vec();
    match of {
        Of::Stmts => hoister.visit_mut_stmts(session, &mut stmts)?,
        Of::Expr => {
            for i in 0..stmts.len() {
                visit_expr(session, hoister, &mut stmts[i])?;
            }
        }
        Of::Pat => {
            for i in 0..stmts.len() {
                visit_pat(session, hoister, &mut stmts[i])?;
            }
        }
    }
    list.children = Nodes::from_vec(stmts);
    Ok(())
}

/// Declares the names behind the statements, and puts the name of `this` behind that, where it is told.
fn declare(
    alloc: Global,
    session: &mut Session,
    hoister: FnEnvHoister,
    by: As,
    list: &mut Node,
) -> Result<(), PassError> {
    match by {
        As::Decl => {
            let decls = hoister.to_decl(session)?;
            let stmt = Node::var_decl(alloc, DUMMY_SP, VarDeclKind::Var, false, decls)?;
            list.children.push(stmt)?;
        }
        As::Stmt => {
            if let Some(stmt) = hoister.to_stmt(session)? {
                list.children.push(stmt)?;
            }
        }
        As::InSubclass => {
            let (stmt, name) = hoister.to_stmt_in_subclass(session)?;
            if let Some(stmt) = stmt {
                list.children.push(stmt)?;
            }
            if let Some(name) = name {
                list.children
                    .push(Node::of_ident(alloc, name).into_stmt(alloc)?)?;
            }
        }
    }
    Ok(())
}

fn hoister_without(alloc: Global, off: Off) -> FnEnvHoister {
    let mut hoister = FnEnvHoister::new(alloc, SyntaxContext::empty());
    match off {
        Off::Nothing => {}
        Off::Arguments => hoister.disable_arguments(),
        Off::This => hoister.disable_this(),
        Off::Super => hoister.disable_super(),
    }
    hoister
}

/// Hoists, and declares what is taken out of the hoister, which has nothing left to declare.
fn hoist(alloc: Global, off: Off, of: Of, by: As, tree: &mut Module) -> Result<(), PassError> {
    if tree.children.is_empty() {
        return Ok(());
    }
    let list = tree.children.get_mut(0);
    let mut session = Session::new(99);
    let mut hoister = hoister_without(alloc, off);
    visit(alloc, &mut session, &mut hoister, of, list)?;
    let taken = hoister.take();
    declare(alloc, &mut session, taken, by, list)?;
    declare(alloc, &mut session, hoister, As::Stmt, list)
}

fn hoisted(alloc: Global, off: Off, of: Of, by: As, text: &str) -> Result<Vec<u8>, PassError> {
    let mut tree = read(alloc, text)?;
    let done = hoist(alloc, off, of, by, &mut tree);
    let text = print_module(alloc, &tree);
    let_go(tree);
    done?;
    Ok(text?)
}

/// Expressions, and what is written of them with the declaration behind it.
const HOISTED: [(&str, &str); 16] = [
    (
        "this.a + super.f(1);",
        "_this.a + _superprop_get_f().call(_this, 1); var _this = this, _superprop_get_f = () => super.f;",
    ),
    ("a;", "a;"),
    (
        "[arguments, new.target, this];",
        "[_arguments, _newtarget, _this]; var _this = this, _arguments = arguments, _newtarget = new.target;",
    ),
    (
        "super.f; super[k]; super.f;",
        "_superprop_get_f(); _superprop_get(k); _superprop_get_f(); var _superprop_get_f = () => super.f, _superprop_get = (_prop) => super[_prop];",
    ),
    (
        "super.f = v; super[k] = v;",
        "_superprop_set_f(v); _superprop_set(k, v); var _superprop_set_f = (_value) => super.f = _value, _superprop_set = (_prop, _value) => super[_prop] = _value;",
    ),
    (
        "super.f += v;",
        "_superprop_update_f._ += v; var _superprop_update_f = { get _() { return _superprop_get_f(); }, set _(_value) { _superprop_set_f(_value); } }, _superprop_get_f = () => super.f, _superprop_set_f = (_value) => super.f = _value;",
    ),
    (
        "super[this]++;",
        "_superprop_update(_this)._++; var _this = this, _superprop_update = (_prop) => ({ get _() { return _superprop_get(_prop); }, set _(_value) { _superprop_set(_prop, _value); } }), _superprop_get = (_prop) => super[_prop], _superprop_set = (_prop, _value) => super[_prop] = _value;",
    ),
    (
        "(super.f)(a); super.g?.(b); super.h`t`;",
        "_superprop_get_f().call(_this, a); _superprop_get_g()?.call(_this, b); _superprop_get_h().bind(_this)`t`; var _this = this, _superprop_get_f = () => super.f, _superprop_get_g = () => super.g, _superprop_get_h = () => super.h;",
    ),
    (
        "[super.f] = a;",
        "[_superprop_update_f._] = a; var _superprop_update_f = { get _() { return _superprop_get_f(); }, set _(_value) { _superprop_set_f(_value); } }, _superprop_get_f = () => super.f, _superprop_set_f = (_value) => super.f = _value;",
    ),
    (
        "[super.g.h] = [super.k];",
        "[_superprop_get_g().h] = [_superprop_get_k()]; var _superprop_get_g = () => super.g, _superprop_get_k = () => super.k;",
    ),
    (
        "f(() => this, function g() { this.a; }, class { [this.b] = this; });",
        "f(() => _this, function g() { this.a; }, class { [this.b] = this; }); var _this = this;",
    ),
    (
        "({ get [this.a]() { return this; }, [this.b](c = this) {}, d: this });",
        "({ get [_this.a]() { return this; }, [_this.b](c = this) {}, d: _this }); var _this = this;",
    ),
    (
        "super.f.g(a); new super.C(b); delete super.d;",
        "_superprop_get_f().g(a); new (_superprop_get_C())(b); delete _superprop_get_d(); var _superprop_get_f = () => super.f, _superprop_get_C = () => super.C, _superprop_get_d = () => super.d;",
    ),
    (
        "super.f(a)?.b; super.g?.b;",
        "_superprop_get_f().call(_this, a)?.b; _superprop_get_g()?.b; var _this = this, _superprop_get_f = () => super.f, _superprop_get_g = () => super.g;",
    ),
    (
        "(super.f) = v;",
        "_superprop_set_f(v); var _superprop_set_f = (_value) => super.f = _value;",
    ),
    (
        "super[super.g](super.h);",
        "_superprop_get(_superprop_get_g()).call(_this, _superprop_get_h()); var _this = this, _superprop_get_g = () => super.g, _superprop_get_h = () => super.h, _superprop_get = (_prop) => super[_prop];",
    ),
];

#[test]
fn names_stand_for_what_is_needed(rt: HostRuntime) -> Result<(), Fail> {
    let alloc = rt.alloc();
    for (text, want) in HOISTED.iter() {
        let found = hoisted(alloc, Off::Nothing, Of::Expr, As::Stmt, text)?;
        let wanted = laid_out(alloc, want)?;
        assert_eq!(rt; found.as_slice(), wanted.as_slice(), "at {text}");
    }
    Ok(())
}

/// What is disabled, the calls, statements, and what is written of them with the declaration behind it.
const BY_CALLS: [(Off, Of, As, &str, &str); 8] = [
    (
        Off::Nothing,
        Of::Stmts,
        As::Stmt,
        "this.a;",
        "_this.a; var _this = this;",
    ),
    (
        Off::Nothing,
        Of::Pat,
        As::Stmt,
        "[b = this] = c;",
        "[b = _this] = c; var _this = this;",
    ),
    (
        Off::Nothing,
        Of::Expr,
        As::Decl,
        "this.a + super.f(1);",
        "_this.a + _superprop_get_f().call(_this, 1); var _this = this, _superprop_get_f = () => super.f;",
    ),
    (
        Off::Nothing,
        Of::Expr,
        As::InSubclass,
        "this.a + super.f(1);",
        "_this.a + _superprop_get_f().call(_this, 1); var _this, _superprop_get_f = () => super.f; _this;",
    ),
    (Off::Nothing, Of::Stmts, As::InSubclass, "a;", "a;"),
    (
        Off::Arguments,
        Of::Expr,
        As::Stmt,
        "[arguments, this];",
        "[arguments, _this]; var _this = this;",
    ),
    (
        Off::This,
        Of::Expr,
        As::Stmt,
        "this.a + super.f(1);",
        "this.a + _superprop_get_f().call(this, 1); var _superprop_get_f = () => super.f;",
    ),
    (
        Off::Super,
        Of::Expr,
        As::Stmt,
        "super.f(this);",
        "super.f(_this); var _this = this;",
    ),
];

#[test]
fn each_call_hoists_and_declares(rt: HostRuntime) -> Result<(), Fail> {
    let alloc = rt.alloc();
    for (off, of, by, text, want) in BY_CALLS.iter() {
        let found = hoisted(alloc, *off, *of, *by, text)?;
        let wanted = laid_out(alloc, want)?;
        assert_eq!(rt; found.as_slice(), wanted.as_slice(), "at {text}");
    }
    Ok(())
}
