//! Folding an expression: what is known of its value before the program runs.
ghost use Rattle.std.specs.Prelude.{◌≡◌, [], IfOk, get_or};
ghost use Rattle.ecma_tree.specs.declared.node.Node.{out-Node};
ghost use Rattle.ecma_enums.specs.declared.folded.Folded.TheVariants as folded;
ghost use Rattle.ecma_enums.specs.Folded.{binary_by, template, unary_by};
ghost use Rattle.ecma_enums.specs.Folding as table;
ghost use Rattle.ecma_enums.specs.Folding.{count_at, folding, free_value, kid, kids_of, name_value, own_member, read, read_by};
ghost use Rattle.ecma_enums.specs.Keys.{key_at};
ghost use Rattle.ecma_enums.specs.Names.{name_at};

use crate::computer::EnumValueComputer;
use crate::folded::{Folded, known, number_or_beyond};
use crate::joined::Joined;
use crate::keys::key_at;
use crate::names::name_at;
use crate::operators::{complement, is_arithmetic, minus, plus, sides};
use crate::record::recorded;
use crate::value::TsEnumRecordValue;
use ecma_number::JsNumber;
use ecma_tree::{BinaryOp, Id, JsWord, Kind, Mark, NoMemory, Node, SyntaxContext, UnaryOp};
use short_texts::is_same;
use std::alloc::Global;

/// What is recorded of the member of this name that stands before in the enum itself.
fn own_member(
    computer: &EnumValueComputer,
    sym: &str,
) -> Result<Option<TsEnumRecordValue>, NoMemory>
    ensures { IfOk result (λ value. value ≡ own_member computer.now sym.now) }
{
    let id = &computer.enum_id;
    recorded(computer.members.as_slice(), id.0.as_str(), id.1, sym)
}

/// What is known of a name that no member has.
fn free_value(unresolved: Mark, sym: &str, ctxt: SyntaxContext) -> Folded
    ensures { result ≡ free_value unresolved sym.now ctxt }
{
    let is_free = ctxt == SyntaxContext::empty().apply_mark(unresolved);
    if is_free && is_same(sym, "NaN") {
        return Folded::Number(JsNumber::NaN);
    }
    if is_free && is_same(sym, "Infinity") {
        return Folded::Number(JsNumber::Infinity);
    }
    Folded::Opaque
}

/// What is known of a name.
fn name_value(
    computer: &EnumValueComputer,
    sym: &str,
    ctxt: SyntaxContext,
) -> Result<Folded, NoMemory>
    ensures { IfOk result (λ known. known ≡ name_value computer.now sym.now ctxt) }
{
    match own_member(computer, sym)? {
        Some(value) => Ok(known(Some(value))),
        None => Ok(free_value(computer.unresolved_mark, sym, ctxt)),
    }
}

/// What is known of the member of this name of what a name stands for.
fn read(computer: &EnumValueComputer, name: &Id, key: &str) -> Result<Folded, NoMemory>
    ensures { IfOk result (λ known. known ≡ read computer.now name.now key.now (own_member computer.now name.now.0)) }
{
    if own_member(computer, name.0.as_str())?.is_some() {
        return Ok(Folded::Opaque);
    }
    let value = recorded(computer.members.as_slice(), name.0.as_str(), name.1, key)?;
    Ok(known(value))
}

/// A member of what a name stands for.
fn member(computer: &EnumValueComputer, node: &Node) -> Result<Folded, NoMemory>
    ensures { IfOk result (λ known. known ≡ read_by computer.now (name_at node.now 0) (key_at node.now 1)) }
{
    let Some(name) = name_at(node, 0)? else {
        return Ok(Folded::Opaque);
    };
    match key_at(node, 1)? {
        Some(key) => read(computer, &name, key.as_str()),
        None => Ok(Folded::Opaque),
    }
}

fn text_or_opaque(text: &Option<JsWord>) -> Result<Folded, NoMemory>
    ensures { IfOk result (λ known. known ≡ table.text_or_opaque text.now) }
{
    match text {
        Some(text) => Ok(Folded::Text(text.clone()?)),
        None => Ok(Folded::Opaque),
    }
}

/// How many items the list has that is the child at an index.
fn count_at(node: &Node, index: usize) -> usize
    ensures { result ≡ count_at node.now index }
{
    match node.children.get(index) {
        Some(list) => list.children.len(),
        None => 0,
    }
}

/// What is known of the child at an index.
#[cycle(folding)]
#[tactic(auto, using(crate::proofs::Kids::kids))]
fn fold_at(
    alloc: Global,
    computer: &EnumValueComputer,
    node: &Node,
    index: usize,
) -> Result<Folded, NoMemory>
    ensures { IfOk result (λ known. known ≡ (kid (kids_of computer.now node.now) index).value) }
{
    match node.children.get(index) {
        Some(child) => fold(alloc, computer, child),
        None => Ok(Folded::Opaque),
    }
}

/// What is known of an item of the list that is the child at an index.
#[cycle(folding)]
#[tactic(auto, using(crate::proofs::Kids::kids))]
fn item_at(
    alloc: Global,
    computer: &EnumValueComputer,
    node: &Node,
    list: usize,
    index: usize,
) -> Result<Folded, NoMemory>
    ensures { IfOk result (λ known. known
        ≡ get_or (kid (kids_of computer.now node.now) list).items index folded.Opaque) }
{
    match node.children.get(list) {
        Some(list) => fold_at(alloc, computer, list, index),
        None => Ok(Folded::Opaque),
    }
}

/// A unary operator and its operand, which is looked at behind `+`, `-` and `~` alone.
#[cycle(folding)]
#[tactic(auto, using(crate::proofs::Kids::kids))]
fn unary(
    alloc: Global,
    computer: &EnumValueComputer,
    op: UnaryOp,
    node: &Node,
) -> Result<Folded, NoMemory>
    ensures { IfOk result (λ known. known ≡ unary_by op (kid (kids_of computer.now node.now) 0).value) }
{
    match op {
        UnaryOp::Plus => Ok(plus(&fold_at(alloc, computer, node, 0)?)),
        UnaryOp::Minus => Ok(minus(&fold_at(alloc, computer, node, 0)?)),
        UnaryOp::Tilde => Ok(complement(&fold_at(alloc, computer, node, 0)?)),
        _ => Ok(Folded::Opaque),
    }
}

/// A binary operator and its sides, which are looked at beside arithmetic alone.
#[cycle(folding)]
#[tactic(auto, using(crate::proofs::Kids::kids))]
fn binary(
    alloc: Global,
    computer: &EnumValueComputer,
    op: BinaryOp,
    node: &Node,
) -> Result<Folded, NoMemory>
    ensures { IfOk result (λ known. known ≡ binary_by (out-Node node.now).span.lo op
        (kid (kids_of computer.now node.now) 0).value (kid (kids_of computer.now node.now) 1).value) }
{
    if !is_arithmetic(op) {
        return Ok(Folded::Opaque);
    }
    let left = fold_at(alloc, computer, node, 0)?;
    let right = fold_at(alloc, computer, node, 1)?;
    sides(alloc, node.span.lo, op, &left, &right)
}

/// What stands behind a text part of a template: an expression, and nothing behind the last.
#[cycle(folding)]
#[tactic(auto, using(crate::proofs::Kids::kids, crate::proofs::Joining::joining))]
fn value_behind(
    alloc: Global,
    computer: &EnumValueComputer,
    node: &Node,
    index: usize,
) -> Result<Folded, NoMemory>
    ensures { IfOk result (λ known. known
        ≡ get_or (kid (kids_of computer.now node.now) 0).items index (folded.Text [])) }
{
    if index < count_at(node, 0) {
        return item_at(alloc, computer, node, 0, index);
    }
    Ok(Folded::Text(JsWord::new(alloc, "")?))
}

/// A template: its text parts with its expressions between them.
#[cycle(folding)]
#[tactic(auto, using(crate::proofs::Kids::kids, crate::proofs::Joining::joining))]
fn template(alloc: Global, computer: &EnumValueComputer, node: &Node) -> Result<Folded, NoMemory>
    ensures { IfOk result (λ known. known
        ≡ template (kid (kids_of computer.now node.now) 1).items (kid (kids_of computer.now node.now) 0).items) }
{
    let parts = count_at(node, 1);
    let mut text = Joined::new(alloc);
    for i in 0..parts {
        let part = item_at(alloc, computer, node, 1, i)?;
        let value = value_behind(alloc, computer, node, i)?;
        text = text.with(alloc, &part)?.with(alloc, &value)?;
    }
    text.into_folded(alloc)
}

/// What is known of an expression.
#[cycle(folding)]
#[tactic(auto, using(crate::proofs::Kids::kids), unfolding(crate::specs::Folding::value_by))]
pub(crate) fn fold(
    alloc: Global,
    computer: &EnumValueComputer,
    node: &Node,
) -> Result<Folded, NoMemory>
    ensures { IfOk result (λ known. known ≡ (folding computer.now node.now).value) }
{
    match &node.kind {
        Kind::Str { value, .. } => Ok(Folded::Text(value.clone()?)),
        Kind::Number { value, .. } => Ok(number_or_beyond(node.span.lo, *value)),
        Kind::Ident { sym, ctxt, .. } => name_value(computer, sym.as_str(), *ctxt),
        Kind::MemberExpr => member(computer, node),
        Kind::UnaryExpr { op } => unary(alloc, computer, *op, node),
        Kind::BinExpr { op } => binary(alloc, computer, *op, node),
        Kind::Tpl => template(alloc, computer, node),
        Kind::TplElement { cooked, .. } => text_or_opaque(cooked),
        Kind::ParenExpr => fold_at(alloc, computer, node, 0),
        Kind::TsTypeAssertion => fold_at(alloc, computer, node, 0),
        Kind::TsConstAssertion => fold_at(alloc, computer, node, 0),
        Kind::TsNonNullExpr => fold_at(alloc, computer, node, 0),
        Kind::TsAsExpr => fold_at(alloc, computer, node, 0),
        Kind::TsInstantiation => fold_at(alloc, computer, node, 0),
        Kind::TsSatisfiesExpr => fold_at(alloc, computer, node, 0),
        _ => Ok(Folded::Opaque),
    }
}
