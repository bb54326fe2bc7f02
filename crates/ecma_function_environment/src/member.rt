//! The member of `super` that a node is about.
ghost use Rattle.std.specs.Prelude.{◌≡◌, IfOk};
ghost use Rattle.std.specs.Option.{option_copied};
ghost use Rattle.ecma_tree.specs.declared.node.Node.{out-Node};
ghost use Rattle.ecma_function_environment.specs.Members.{about, first_called, first_under, is_round, key_at, key_of, super_under};

use ecma_tree::{AssignOp, JsWord, Kind, NoMemory, Node};

/// Parentheses, or a type round an expression.
pub(crate) fn is_round(kind: &Kind) -> bool
    ensures { result ≡ is_round kind.now }
{
    matches!(
        kind,
        Kind::ParenExpr
            | Kind::TsTypeAssertion
            | Kind::TsConstAssertion
            | Kind::TsNonNullExpr
            | Kind::TsAsExpr
            | Kind::TsInstantiation
            | Kind::TsSatisfiesExpr
    )
}

/// The member of `super` that a node is, in parentheses too.
#[tactic(auto, using(crate::proofs::Under::under), unfolding(crate::specs::Members::under_by))]
fn super_under(node: &Node) -> Option<&Node>
    ensures { option_copied result ≡ super_under node.now }
{
    match &node.kind {
        Kind::SuperPropExpr => Some(node),
        Kind::ParenExpr
        | Kind::TsTypeAssertion
        | Kind::TsConstAssertion
        | Kind::TsNonNullExpr
        | Kind::TsAsExpr
        | Kind::TsInstantiation
        | Kind::TsSatisfiesExpr => super_under(node.children.get(0)?),
        _ => None,
    }
}

fn first_under(node: &Node) -> Option<&Node>
    ensures { option_copied result ≡ first_under (out-Node node.now).children }
{
    super_under(node.children.get(0)?)
}

fn first_called(node: &Node) -> Option<&Node>
    ensures { option_copied result ≡ first_called (out-Node node.now).children }
{
    let call = node.children.get(0)?;
    match &call.kind {
        Kind::OptCall => first_under(call),
        _ => None,
    }
}

/// The member of `super` that a node is, has in parentheses, calls, assigns to by `=` or updates.
fn about(node: &Node) -> Option<&Node>
    ensures { option_copied result ≡ about node.now }
{
    match &node.kind {
        Kind::SuperPropExpr => Some(node),
        Kind::CallExpr
        | Kind::OptCall
        | Kind::TaggedTpl
        | Kind::UpdateExpr { .. }
        | Kind::AssignExpr {
            op: AssignOp::Assign,
        } => first_under(node),
        Kind::OptChainExpr { optional: true } => first_called(node),
        kind => {
            if is_round(kind) {
                first_under(node)
            } else {
                None
            }
        }
    }
}

/// The key of a member of `super`, none where it stands in brackets.
fn key_of(member: &Node) -> Result<Option<JsWord>, NoMemory>
    ensures { IfOk result (λ key. key ≡ key_of member.now) }
{
    match member.children.get(1) {
        Some(key) => match &key.kind {
            Kind::IdentName { sym } => Ok(Some(sym.clone()?)),
            _ => Ok(None),
        },
        None => Ok(None),
    }
}

/// The key of the member of `super` that a node is about, where `super` is looked for.
pub(crate) fn key_at(disabled: bool, node: &Node) -> Result<Option<Option<JsWord>>, NoMemory>
    ensures { IfOk result (λ key. key ≡ key_at disabled node.now) }
{
    if disabled {
        return Ok(None);
    }
    match about(node) {
        Some(member) => Ok(Some(key_of(member)?)),
        None => Ok(None),
    }
}
