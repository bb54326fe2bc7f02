//! The parameters that count in the length of a function, and what stands for them.
ghost use Rattle.std.specs.Prelude.{◌≡◌, ◌+◌, ◌<◌, Err, IfOk, OnOk, count_by};
ghost use Rattle.ecma_kind.specs.declared.error.PassError.TheVariants as pass_error;
ghost use Rattle.ecma_scope.specs.Drawing.{HasGivenAtMost};
ghost use Rattle.ecma_function_parts.specs.Drawing.{count};
ghost use Rattle.ecma_function_wrappers.specs.Counting.{counted, counted_draws, counts, has_parts, is_name, placeholder, stand_in, stand_ins, takes_apart, that_count};

use ecma_function_parts::{binding_of, draw_if};
use ecma_tree::{
    DUMMY_SP, Kind, NoMemory, Node, Nodes, PassError, Session, Span, SyntaxContext, copy_node,
};
use std::alloc::Global;

fn is_name(kind: &Kind) -> bool
    ensures { result ≡ is_name kind.now }
{
    matches!(kind, Kind::BindingIdent)
}

fn takes_apart(kind: &Kind) -> bool
    ensures { result ≡ takes_apart kind.now }
{
    matches!(kind, Kind::ArrayPat { .. } | Kind::ObjectPat { .. })
}

/// Whether a parameter is an array or object pattern.
fn has_parts(param: &Node) -> bool
    ensures { result ≡ has_parts param.now }
{
    match param.children.get(0) {
        Some(pattern) => takes_apart(&pattern.kind),
        None => false,
    }
}

/// Whether a parameter is a name or such a pattern, without a default and without `...`.
fn counts(param: &Node) -> bool
    ensures { result ≡ counts param.now }
{
    match param.children.get(0) {
        Some(pattern) => is_name(&pattern.kind) || takes_apart(&pattern.kind),
        None => false,
    }
}

/// The parameters before the first default or rest.
fn that_count(params: &[Node]) -> &[Node]
    ensures { result.now ≡ that_count params.now }
{
    for i in 0..params.len() {
        if !counts(&params[i]) {
            return &params[..i];
        }
    }
    params
}

/// `_`
fn placeholder(alloc: Global, span: Span, ctxt: SyntaxContext) -> Result<Node, NoMemory>
    ensures { IfOk result (λ node. node ≡ placeholder span ctxt) }
{
    let name = ecma_utils::name_of_text(alloc, ctxt, DUMMY_SP, "_")?;
    Node::param(alloc, span, binding_of(alloc, name)?)
}

/// What stands for a parameter.
fn stand_in(alloc: Global, session: &mut Session, param: &Node) -> Result<Node, PassError>
    ensures node { IfOk result (λ node. node ≡ stand_in param.now session.old.left) }
    ensures left { OnOk result (session.new.left + count (has_parts param.now) ≡ session.old.left) }
    ensures spent { result ≡ Err pass_error.Spent → session.old.left < count (has_parts param.now) }
    ensures session { HasGivenAtMost (count (has_parts param.now)) session.old session.new }
{
    let is_pattern = has_parts(param);
    let ctxt = draw_if(session, is_pattern)?;
    if is_pattern {
        return Ok(placeholder(alloc, param.span, ctxt)?);
    }
    Ok(copy_node(alloc, param)?)
}

fn stand_ins(alloc: Global, session: &mut Session, params: &[Node]) -> Result<Nodes, PassError>
    ensures nodes { IfOk result (λ nodes. nodes ≡ stand_ins params.now session.old.left) }
    ensures left { OnOk result (session.new.left + count_by has_parts params.now ≡ session.old.left) }
    ensures spent { result ≡ Err pass_error.Spent → session.old.left < count_by has_parts params.now }
    ensures session { HasGivenAtMost (count_by has_parts params.now) session.old session.new }
{
    let mut all = Nodes::new(alloc);
    for i in 0..params.len() {
        all.push(stand_in(alloc, session, &params[i])?)?;
    }
    Ok(all)
}

/// What stands for the parameters of a function in one that is as long.
pub(crate) fn counted(
    alloc: Global,
    session: &mut Session,
    params: &[Node],
) -> Result<Nodes, PassError>
    ensures nodes { IfOk result (λ nodes. nodes ≡ counted params.now session.old.left) }
    ensures left { OnOk result (session.new.left + counted_draws params.now ≡ session.old.left) }
    ensures spent { result ≡ Err pass_error.Spent → session.old.left < counted_draws params.now }
    ensures session { HasGivenAtMost (counted_draws params.now) session.old session.new }
{
    stand_ins(alloc, session, that_count(params))
}
