//! The text that a node is as the key of a member.
ghost use Rattle.std.specs.Prelude.{◌≡◌, IfOk};
ghost use Rattle.ecma_enums.specs.Keys as table;
ghost use Rattle.ecma_enums.specs.Keys.{is_plain, part_text, plain_text};

use ecma_tree::{JsWord, Kind, NoMemory, Node};

/// The items of the list that is the child at an index.
fn items_at(node: &Node, index: usize) -> &[Node]
    ensures { result.now ≡ table.items_at node.now index }
{
    match node.children.get(index) {
        Some(list) => list.children.as_slice(),
        None => &[],
    }
}

/// Whether a template with so many expressions and text parts is one part alone.
fn is_plain(expressions: usize, parts: usize) -> bool
    ensures { result ≡ is_plain expressions parts }
{
    expressions == 0 && parts == 1
}

fn cooked_text(kind: &Kind) -> Result<Option<JsWord>, NoMemory>
    ensures { IfOk result (λ text. text ≡ table.cooked_text kind.now) }
{
    match kind {
        Kind::TplElement {
            cooked: Some(text),
            ..
        } => Ok(Some(text.clone()?)),
        _ => Ok(None),
    }
}

/// The text of a template without expressions.
fn plain_text(expressions: &[Node], parts: &[Node]) -> Result<Option<JsWord>, NoMemory>
    ensures { IfOk result (λ text. text ≡ plain_text expressions.now parts.now) }
{
    if !is_plain(expressions.len(), parts.len()) {
        return Ok(None);
    }
    match parts.get(0) {
        Some(part) => cooked_text(&part.kind),
        None => Ok(None),
    }
}

/// The same of the child at an index.
#[cycle(keys)]
#[tactic(auto, using(crate::proofs::Keying::keying))]
pub(crate) fn key_at(node: &Node, index: usize) -> Result<Option<JsWord>, NoMemory>
    ensures { IfOk result (λ key. key ≡ table.key_at node.now index) }
{
    match node.children.get(index) {
        Some(child) => key_under(child),
        None => Ok(None),
    }
}

/// The text that a node is as the key of a member, also with types round it.
#[cycle(keys)]
#[tactic(auto, using(crate::proofs::Keying::keying), unfolding(crate::specs::Keys::key_by))]
fn key_under(node: &Node) -> Result<Option<JsWord>, NoMemory>
    ensures { IfOk result (λ key. key ≡ table.key_under node.now) }
{
    match &node.kind {
        Kind::IdentName { sym } => Ok(Some(sym.clone()?)),
        Kind::ComputedPropName => key_at(node, 0),
        Kind::Str { value, .. } => Ok(Some(value.clone()?)),
        Kind::Tpl => plain_text(items_at(node, 0), items_at(node, 1)),
        Kind::TsTypeAssertion => key_at(node, 0),
        Kind::TsConstAssertion => key_at(node, 0),
        Kind::TsNonNullExpr => key_at(node, 0),
        Kind::TsAsExpr => key_at(node, 0),
        Kind::TsInstantiation => key_at(node, 0),
        Kind::TsSatisfiesExpr => key_at(node, 0),
        _ => Ok(None),
    }
}
