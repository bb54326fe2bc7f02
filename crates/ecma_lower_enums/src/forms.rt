//! What is written for an enum.
ghost use Rattle.std.specs.Prelude.{◌≡◌, ◌∷◌, [], IfOk, None, Some, false, true};
ghost use Rattle.std.specs.Option.{option_and_then};
ghost use Rattle.ecma_kind.specs.declared.operators.AssignOp.TheVariants as assign_op;
ghost use Rattle.ecma_tree.specs.Nodes.{list_node};
ghost use Rattle.ecma_enums.specs.Declarations as declaration;
ghost use Rattle.ecma_enums.specs.Values.{expression, text_literal, undefined};
ghost use Rattle.ecma_lower_enums.specs.Forms as form;
ghost use Rattle.ecma_lower_enums.specs.Forms.{as_it_stands, at_text, call, calls, declarations, function_of, is_exported_here, is_known, is_known_text, is_nil, known_value, is_this, member_by, member_of_enum, member_statements, object_by, or_new, parameters, part_statements, set_member, set_other, set_text, value_of, value_or, variable};

use crate::known::{Around, KnownEnums, Part, has_id, skips};
use crate::parts::is_absent;
use ecma_enums::{TsEnumRecordValue, known_read};
use ecma_number::JsNumber;
use ecma_tree::{
    AssignOp, BinaryOp, DUMMY_SP, Expr, Ident, JsWord, Kind, NoMemory, Node, Nodes, Span, Stmt,
    UnaryOp, VarDeclKind,
};
use ecma_utils::{ExprFactory, FunctionFactory};
use short_texts::is_same;
use std::alloc::Global;

/// `E.A`
pub(crate) fn member(alloc: Global, of: Ident, sym: &str) -> Result<Expr, NoMemory>
    ensures { IfOk result (λ node. node ≡ form.member of sym.now) }
{
    let key = ecma_utils::key_of_text(alloc, DUMMY_SP, sym)?;
    Node::of_ident(alloc, of).make_member(alloc, key)
}

/// `"A"`
fn text_literal(alloc: Global, sym: &str) -> Result<Expr, NoMemory>
    ensures { IfOk result (λ node. node ≡ text_literal sym.now) }
{
    ecma_utils::literal_of_text(alloc, DUMMY_SP, sym)
}

/// `E["A"]`
fn at_text(alloc: Global, of: Ident, sym: &str) -> Result<Expr, NoMemory>
    ensures { IfOk result (λ node. node ≡ at_text of sym.now) }
{
    let key = text_literal(alloc, sym)?;
    Node::of_ident(alloc, of).computed_member(alloc, key)
}

/// `E["A"] = v`
fn set_text(alloc: Global, of: Ident, sym: &str, v: Expr) -> Result<Expr, NoMemory>
    ensures { IfOk result (λ node. node ≡ set_text of sym.now v) }
{
    let target = at_text(alloc, of, sym)?;
    v.make_assign_to(alloc, AssignOp::Assign, target)
}

/// `E[E["A"] = v] = "A"`
fn set_other(alloc: Global, of: Ident, sym: &str, v: Expr) -> Result<Expr, NoMemory>
    ensures { IfOk result (λ node. node ≡ set_other of sym.now v) }
{
    let object = Node::of_ident(alloc, of.clone()?);
    let inside = set_text(alloc, of, sym, v)?;
    let target = object.computed_member(alloc, inside)?;
    text_literal(alloc, sym)?.make_assign_to(alloc, AssignOp::Assign, target)
}

fn is_known(value: &Option<TsEnumRecordValue>) -> bool
    ensures { result ≡ is_known value.now }
{
    match value {
        Some(value) => value.is_const(),
        None => false,
    }
}

fn is_known_text(value: &Option<TsEnumRecordValue>) -> bool
    ensures { result ≡ is_known_text value.now }
{
    match value {
        Some(value) => value.is_string(),
        None => false,
    }
}

/// `void 0`
fn undefined(alloc: Global) -> Result<Expr, NoMemory>
    ensures { IfOk result (λ node. node ≡ undefined) }
{
    let kind = Kind::Number {
        value: Some(JsNumber::from(0u32)),
        raw: None,
    };
    let zero = Node::leaf(alloc, DUMMY_SP, kind);
    Node::unary_expr(alloc, DUMMY_SP, UnaryOp::Void, zero)
}

fn as_it_stands(alloc: Global, init: Expr) -> Result<Expr, NoMemory>
    ensures { IfOk result (λ node. node ≡ as_it_stands init) }
{
    if is_absent(&init) {
        return undefined(alloc);
    }
    Ok(init)
}

fn expression_of(alloc: Global, value: Option<TsEnumRecordValue>) -> Result<Option<Expr>, NoMemory>
    ensures { IfOk result (λ e. e ≡ option_and_then expression value) }
{
    match value {
        Some(value) => value.into_expr(alloc),
        None => Ok(None),
    }
}

/// What is known of a member's value, or else its initialiser.
fn value_of(alloc: Global, value: Option<TsEnumRecordValue>, init: Expr) -> Result<Expr, NoMemory>
    ensures { IfOk result (λ node. node ≡ value_of value init) }
{
    match expression_of(alloc, value)? {
        Some(e) => Ok(e),
        None => as_it_stands(alloc, init),
    }
}

fn set_member(
    alloc: Global,
    of: Ident,
    sym: &str,
    value: Option<TsEnumRecordValue>,
    init: Expr,
) -> Result<Expr, NoMemory>
    ensures { IfOk result (λ node. node ≡ set_member of sym.now value init) }
{
    let is_text = is_known_text(&value);
    let v = value_of(alloc, value, init)?;
    if is_text {
        set_text(alloc, of, sym, v)
    } else {
        set_other(alloc, of, sym, v)
    }
}

fn member_by(
    alloc: Global,
    skips: bool,
    of: Ident,
    span: Span,
    sym: &str,
    value: Option<TsEnumRecordValue>,
    init: Expr,
) -> Result<Nodes, NoMemory>
    ensures { IfOk result (λ nodes. nodes ≡ member_by skips of span sym.now value init) }
{
    if skips && is_known(&value) {
        return Ok(Nodes::new(alloc));
    }
    let e = set_member(alloc, of, sym, value, init)?;
    Ok(Nodes::from_array(alloc, [Node::expr_stmt(alloc, span, e)?])?)
}

/// What is known of the value of a member.
fn known_value(
    alloc: Global,
    enums: &KnownEnums,
    of: &Ident,
    sym: &str,
) -> Result<Option<TsEnumRecordValue>, NoMemory>
    ensures { IfOk result (λ value. value ≡ known_value enums.now of.now sym.now) }
{
    let read = member(alloc, of.clone()?, sym)?;
    known_read(&enums.members, false, &read)
}

fn member_of_enum(
    alloc: Global,
    enums: &KnownEnums,
    skips: bool,
    of: Ident,
    span: Span,
    sym: &str,
    init: Expr,
) -> Result<Nodes, NoMemory>
    ensures { IfOk result (λ nodes. nodes ≡ member_of_enum enums.now skips of span sym.now init) }
{
    let value = known_value(alloc, enums, &of, sym)?;
    member_by(alloc, skips, of, span, sym, value, init)
}

/// The name of a member.
pub(crate) fn member_name(alloc: Global, member: &Node) -> Result<JsWord, NoMemory>
    ensures { IfOk result (λ name. name ≡ declaration.member_name member.now) }
{
    let Some(name) = member.children.get(0) else {
        return JsWord::new(alloc, "");
    };
    match &name.kind {
        Kind::Ident { sym, .. } => Ok(sym.clone()?),
        Kind::Str { value, .. } => Ok(value.clone()?),
        _ => JsWord::new(alloc, ""),
    }
}

/// The statements that a member of an enum becomes: one, or none.
pub(crate) fn member_statements(
    alloc: Global,
    enums: &KnownEnums,
    skips: bool,
    of: &Option<Ident>,
    span: Span,
    sym: &str,
    init: Expr,
) -> Result<Nodes, NoMemory>
    ensures { IfOk result (λ nodes. nodes ≡ form.member_in enums.now skips of.now span sym.now init) }
{
    match of {
        Some(of) => member_of_enum(alloc, enums, skips, of.clone()?, span, sym, init),
        None => Ok(Nodes::new(alloc)),
    }
}

fn declared(alloc: Global, name: &Ident) -> Result<Node, NoMemory>
    ensures { IfOk result (λ node. node ≡ form.declared name.now) }
{
    let ident = Node::of_ident(alloc, name.clone()?);
    Node::binding_ident(alloc, name.span, ident, None)
}

fn word_of(at_top: bool) -> VarDeclKind
    ensures { result ≡ form.word_of at_top }
{
    if at_top {
        VarDeclKind::Var
    } else {
        VarDeclKind::Let
    }
}

/// `var E` or `let E`
fn variable(alloc: Global, part: &Part) -> Result<Stmt, NoMemory>
    ensures { IfOk result (λ node. node ≡ variable part.now) }
{
    let span = part.name.span;
    let pattern = declared(alloc, &part.name)?;
    let declarator = Node::var_declarator(alloc, span, false, pattern, None)?;
    let declarators = Nodes::from_array(alloc, [declarator])?;
    Node::var_decl(alloc, span, word_of(part.at_top), false, declarators)
}

fn is_exported_here(part: &Part, around: &Around) -> bool
    ensures { result ≡ is_exported_here part.now around.now }
{
    part.exported && around.name.is_none()
}

fn declaration(alloc: Global, part: &Part, around: &Around) -> Result<Stmt, NoMemory>
    ensures { IfOk result (λ node. node ≡ form.declaration part.now around.now) }
{
    let variable = variable(alloc, part)?;
    if is_exported_here(part, around) {
        return Node::export_decl(alloc, part.name.span, variable);
    }
    Ok(variable)
}

fn declarations(alloc: Global, part: &Part, around: &Around) -> Result<Nodes, NoMemory>
    ensures { IfOk result (λ nodes. nodes ≡ declarations part.now around.now) }
{
    if has_id(around.before.as_slice(), &part.name) {
        return Ok(Nodes::new(alloc));
    }
    Ok(Nodes::from_array(alloc, [declaration(alloc, part, around)?])?)
}

/// `t || (t = {})`, of a target and the same as it is read.
fn or_new(alloc: Global, read: Expr, target: Expr) -> Result<Expr, NoMemory>
    requires { read ≡ target }
    ensures { IfOk result (λ node. node ≡ or_new target) }
{
    let object = Node::object_lit(alloc, DUMMY_SP, Nodes::new(alloc))?;
    let set = object.make_assign_to(alloc, AssignOp::Assign, target)?;
    read.make_bin(alloc, BinaryOp::LogicalOr, set)
}

/// `E || (E = {})`
fn own_object(alloc: Global, of: &Ident) -> Result<Expr, NoMemory>
    ensures { IfOk result (λ node. node ≡ object_by false None of.now) }
{
    let read = Node::of_ident(alloc, of.clone()?);
    let target = Node::of_ident(alloc, of.clone()?);
    or_new(alloc, read, target)
}

/// `E = N.E || (N.E = {})`
fn exported_object(alloc: Global, outer: &Ident, of: &Ident) -> Result<Expr, NoMemory>
    ensures { IfOk result (λ node. node ≡ object_by true (Some outer.now) of.now) }
{
    let read = member(alloc, outer.clone()?, of.sym.as_str())?;
    let target = member(alloc, outer.clone()?, of.sym.as_str())?;
    let object = or_new(alloc, read, target)?;
    let name = Node::of_ident(alloc, of.clone()?);
    object.make_assign_to(alloc, AssignOp::Assign, name)
}

fn object_by(
    alloc: Global,
    exported: bool,
    outer: &Option<Ident>,
    of: &Ident,
) -> Result<Expr, NoMemory>
    ensures { IfOk result (λ node. node ≡ object_by exported outer.now of.now) }
{
    if !exported {
        return own_object(alloc, of);
    }
    match outer {
        Some(outer) => exported_object(alloc, outer, of),
        None => own_object(alloc, of),
    }
}

fn is_this(of: &Ident) -> bool
    ensures { result ≡ is_this of.now }
{
    is_same(of.sym.as_str(), "this")
}

fn parameters(alloc: Global, of: &Ident) -> Result<Nodes, NoMemory>
    ensures { IfOk result (λ nodes. nodes ≡ parameters of.now) }
{
    if is_this(of) {
        return Ok(Nodes::new(alloc));
    }
    let pattern = declared(alloc, of)?;
    Ok(Nodes::from_array(alloc, [Node::param(alloc, of.span, pattern)?])?)
}

/// `function(E) { .. }`
fn function_of(alloc: Global, of: &Ident, list: Node) -> Result<Expr, NoMemory>
    ensures { IfOk result (λ node. node ≡ function_of of.now list) }
{
    let params = parameters(alloc, of)?;
    let block = Node::of(alloc, DUMMY_SP, Kind::BlockStmt, [list])?;
    let function = Node::function(
        alloc,
        DUMMY_SP,
        false,
        false,
        params,
        Some(block),
        None,
        None,
    )?;
    function.into_fn_expr(alloc, None)
}

/// `(function(E) { .. })(E || (E = {}));`
fn call(
    alloc: Global,
    span: Span,
    part: &Part,
    around: &Around,
    list: Node,
) -> Result<Stmt, NoMemory>
    ensures { IfOk result (λ node. node ≡ call span part.now around.now list) }
{
    let function = function_of(alloc, &part.name, list)?;
    let object = object_by(alloc, part.exported, &around.name, &part.name)?;
    let args = Nodes::from_array(alloc, [object])?;
    let e = function.as_call(alloc, DUMMY_SP, args)?;
    Node::expr_stmt(alloc, span, e)
}

fn is_nil(nodes: &Nodes) -> bool
    ensures { result ≡ is_nil nodes.now }
{
    nodes.is_empty()
}

fn calls(
    alloc: Global,
    enums: &KnownEnums,
    span: Span,
    part: &Part,
    around: &Around,
    list: Node,
) -> Result<Nodes, NoMemory>
    ensures { IfOk result (λ nodes. nodes ≡ calls enums.now span part.now around.now list) }
{
    if skips(enums, part) && is_nil(&list.children) {
        return Ok(Nodes::new(alloc));
    }
    Ok(Nodes::from_array(alloc, [call(alloc, span, part, around, list)?])?)
}

/// The statements that a part of an enum becomes, with the list of what its members became.
pub(crate) fn part_statements(
    alloc: Global,
    enums: &KnownEnums,
    span: Span,
    part: &Part,
    around: &Around,
    list: Node,
) -> Result<Nodes, NoMemory>
    ensures { IfOk result (λ nodes. nodes ≡ part_statements enums.now span part.now around.now list) }
{
    let mut nodes = declarations(alloc, part, around)?;
    nodes.append(calls(alloc, enums, span, part, around, list)?)?;
    Ok(nodes)
}
