//! Literals, and what it costs to write them.
ghost use Rattle.std.specs.Prelude.{◌≡◌, ◌+◌, ◌&&◌, false, get_or, is_some, length, map, true};
ghost use Rattle.std.specs.List.{list_all};
ghost use Rattle.ecma_tree.specs.declared.node.Node.{out-Node};
ghost use Rattle.ecma_judge.specs.Literals as table;
ghost use Rattle.ecma_judge.specs.Literals.{cost, cut, is_literal_part, is_plain_key, total};
ghost use Rattle.ecma_judge.specs.Parts.{has_kind, has_no_items, passes_at};

use crate::parts::has_no_items;
use ecma_tree::{Kind, Node, NodeRef, Sort, belongs};

fn is_plain_key(beyond_json: bool, kind: &Kind) -> bool
    ensures { result ≡ is_plain_key beyond_json kind.now }
{
    match kind {
        Kind::IdentName { .. } => true,
        Kind::Str { .. } => true,
        Kind::Number { value, .. } => beyond_json || value.is_some(),
        _ => false,
    }
}

fn has_plain_key(beyond_json: bool, property: &Node) -> bool
    ensures { result ≡ passes_at (has_kind (is_plain_key beyond_json)) 0 property.now }
{
    match property.children.get(0) {
        Some(key) => is_plain_key(beyond_json, &key.kind),
        None => false,
    }
}

fn has_no_parts(template: &Node) -> bool
    ensures { result ≡ passes_at has_no_items 0 template.now }
{
    match template.children.get(0) {
        Some(exprs) => has_no_items(exprs),
        None => false,
    }
}

#[cycle(literals)]
#[tactic(auto, using(crate::proofs::Costs::literals))]
fn is_literal_at(beyond_json: bool, node: &Node, index: usize) -> bool
    ensures { result ≡ get_or (map (is_literal_part beyond_json) (out-Node node.now).children) index false }
{
    match node.children.get(index) {
        Some(child) => is_literal_part(beyond_json, child),
        None => false,
    }
}

#[cycle(literals)]
#[tactic(auto, using(crate::proofs::Costs::literals))]
fn all_are_literals(beyond_json: bool, list: &Node) -> bool
    ensures { result ≡ list_all (λ b. b) (map (is_literal_part beyond_json) (out-Node list.now).children) }
{
    for item in list.children.as_slice() {
        if !is_literal_part(beyond_json, item) {
            return false;
        }
    }
    true
}

/// Whether a node is a literal, or what stands in one.
#[cycle(literals)]
#[tactic(auto, using(crate::proofs::Costs::literals), unfolding(crate::specs::Literals::is_literal_by))]
fn is_literal_part(beyond_json: bool, node: &Node) -> bool
    ensures { result ≡ is_literal_part beyond_json node.now }
{
    match &node.kind {
        Kind::Str { .. } => true,
        Kind::Bool { .. } => true,
        Kind::Null => true,
        Kind::BigInt { .. } => true,
        Kind::Number { value, .. } => beyond_json || value.is_some(),
        Kind::Tpl => has_no_parts(node),
        Kind::ParenExpr => is_literal_at(beyond_json, node, 0),
        Kind::ArrayLit => is_literal_at(beyond_json, node, 0),
        Kind::ObjectLit => is_literal_at(beyond_json, node, 0),
        Kind::KeyValueProp => {
            has_plain_key(beyond_json, node) && is_literal_at(beyond_json, node, 1)
        }
        Kind::List => all_are_literals(beyond_json, node),
        Kind::Absent => beyond_json,
        _ => false,
    }
}

fn is_literal_node(beyond_json: bool, node: &Node) -> bool
    ensures { result ≡ table.is_literal_node beyond_json node.now }
{
    belongs(Sort::Expr, &node.kind) && is_literal_part(beyond_json, node)
}

fn is_literal_ref(beyond_json: bool, part: NodeRef<'_>) -> bool
    ensures { result ≡ table.is_literal beyond_json part.entry }
{
    match part {
        NodeRef::Expr(node) => is_literal_node(beyond_json, node),
        _ => false,
    }
}

fn key_cost(kind: &Kind) -> usize
    ensures { result ≡ cut (table.key_cost kind.now) }
{
    match kind {
        Kind::IdentName { sym } => sym.as_str().len().saturating_add(2),
        Kind::Str { value, .. } => value.as_str().len().saturating_add(2),
        Kind::Number { .. } => 5,
        _ => 0,
    }
}

fn key_cost_of(property: &Node) -> usize
    ensures { result ≡ cut (table.key_cost_of property.now) }
{
    match property.children.get(0) {
        Some(key) => key_cost(&key.kind),
        None => 0,
    }
}

fn count_of(array: &Node) -> usize
    ensures { result ≡ table.count_of array.now }
{
    match array.children.get(0) {
        Some(list) => list.children.len(),
        None => 0,
    }
}

/// The sum, or the greatest number.
fn sum(first: usize, second: usize) -> usize
    ensures { result ≡ cut (first + second) }
{
    first.saturating_add(second)
}

#[cycle(costs)]
#[tactic(auto, using(crate::proofs::Costs::costs))]
fn cost_at(node: &Node, index: usize) -> usize
    ensures { result ≡ cut (get_or (map cost (out-Node node.now).children) index 0) }
{
    match node.children.get(index) {
        Some(child) => cost(child),
        None => 0,
    }
}

#[cycle(costs)]
#[tactic(auto, using(crate::proofs::Costs::costs))]
fn total_cost(list: &Node) -> usize
    ensures { result ≡ cut (total (map cost (out-Node list.now).children)) }
{
    let mut all = 0usize;
    for i in 0..list.children.len() {
        let more = cost(list.children.at(i));
        all = sum(all, more);
    }
    all
}

/// What it costs to write a literal, or the greatest number.
#[cycle(costs)]
#[tactic(auto, using(crate::proofs::Costs::costs), unfolding(crate::specs::Literals::cost_by))]
fn cost(node: &Node) -> usize
    ensures { result ≡ cut (cost node.now) }
{
    match &node.kind {
        Kind::ArrayLit => sum(sum(2, count_of(node)), cost_at(node, 0)),
        Kind::ObjectLit => cost_at(node, 0),
        Kind::KeyValueProp => sum(sum(1, key_cost_of(node)), cost_at(node, 1)),
        Kind::List => total_cost(node),
        Kind::ParenExpr => cost_at(node, 0),
        _ => 0,
    }
}

fn cost_of_ref(part: NodeRef<'_>) -> usize
    ensures { result ≡ table.cost_of part.entry }
{
    match part {
        NodeRef::Expr(node) => cost(node),
        _ => 0,
    }
}

/// Whether an expression is a literal: a tree of arrays, objects with plain keys, texts, numbers, truth values, `null`, BigInts, templates without
/// parts, and parentheses. A part that is no expression is none. It takes no memory.
pub fn is_literal(part: NodeRef<'_>) -> bool
    ensures { result ≡ table.is_literal true part.entry }
{
    is_literal_ref(true, part)
}

/// Whether an expression is a literal, and what it costs to write it: 2 and the number of elements for an array, 1 for a property, 2 and its bytes
/// for a key that is a name or a text, 5 for one that is a number, and nothing for all else. What is no literal costs nothing, and no cost is above
/// the greatest number. Where only values of JSON are allowed, no hole is a literal, and no number without a value. It takes no memory.
pub fn calc_literal_cost(part: NodeRef<'_>, allow_non_json_value: bool) -> (bool, usize)
    ensures { result ≡ table.literal_cost allow_non_json_value part.entry }
{
    if is_literal_ref(allow_non_json_value, part) {
        return (true, cost_of_ref(part));
    }
    (false, 0)
}

/// Asks of several parts, one after another, whether each is a literal, and adds up what they cost, as [`calc_literal_cost`] does of one.
#[derive(Clone, Copy, Debug)]
pub struct LiteralVisitor {
    /// Whether all so far are literals.
    pub is_lit: bool,
    /// What they cost.
    pub cost: usize,
    /// Whether what JSON has not is a literal too: a hole, and a number without a value.
    pub allow_non_json_value: bool,
}

impl LiteralVisitor {
    pub fn new(allow_non_json_value: bool) -> LiteralVisitor
        ensures { result ≡ table.nothing_visited allow_non_json_value }
    {
        LiteralVisitor {
            is_lit: true,
            cost: 0,
            allow_non_json_value,
        }
    }

    pub fn visit_node(&mut self, part: NodeRef<'_>)
        ensures literal { self.new.is_lit
            ≡ (self.old.is_lit && table.is_literal self.old.allow_non_json_value part.entry) }
        ensures cost { self.new.cost ≡ cut (self.old.cost + table.cost_of part.entry) }
        ensures allowed { self.new.allow_non_json_value ≡ self.old.allow_non_json_value }
    {
        self.is_lit = self.is_lit && is_literal_ref(self.allow_non_json_value, part);
        self.cost = sum(self.cost, cost_of_ref(part));
    }

    /// Whether all are literals, and what they cost; 0 where one is none.
    pub fn result(self) -> (bool, usize)
        ensures { result ≡ table.visited self }
    {
        if self.is_lit {
            return (true, self.cost);
        }
        (false, 0)
    }
}
