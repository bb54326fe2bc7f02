//! A forest, and how trees grow in it.
ghost use Rattle.std.specs.Prelude.{◌<◌, ◌+◌, IfOk, Some, slice_get, ◌≡◌, ◌≤◌, OnOk, OnErr, ◌++◌, ◌∷◌, [], length, take, drop};
ghost use Rattle.ecma_tree.specs.Nodes.{node_of};
ghost use Rattle.ecma_tree.specs.declared.node.Node.{out-Node};
ghost use Rattle.ecma_forest.specs.Summaries.{tree_summary};
ghost use Rattle.ecma_forest.specs.Trees.{node, opened, root, wrapped};
ghost use Rattle.ecma_forest.specs.Slots.{slots_summary, slot_over};

use crate::kinds::KindTable;
use crate::summary::{Summary, kind_summary};
use ecma_tree::{Kind, NoMemory, Span};
use std::alloc::Global;
use std::marker::Model;

/// A node in the array: the number of its kind, and its children, which stand side by side in front of it.
#[derive(Clone, Copy, Debug)]
pub struct Slot {
    pub(crate) span: Span,
    pub(crate) kind: u32,
    pub(crate) first: u32,
    pub(crate) count: u32,
    pub(crate) summary: Summary,
}

/// Trees that stand one behind the other: their kinds, their roots, and all that stands below them.
#[derive(Drop)]
pub struct Forest {
    pub(crate) kinds: KindTable,
    pub(crate) below: Vec<Slot>,
    pub(crate) roots: Vec<Slot>,
}

impl Model for Forest {
    ghost use Rattle.ecma_tree.specs.declared.node.Node.{Node};
    ghost use Rattle.ecma_tree.specs.contracts.node.Node as e;
    ghost use Rattle.std.specs.Prelude.{refl};
    ghost use Rattle.std.specs.Coded.{code_by, coded×, coded_list};
    ghost use Rattle.ecma_forest.specs.Trees.{Trees};

    ghost Value = { Trees };

    ghost coded = { code_by _ (coded× (coded_list e.the_row.coded) (coded_list e.the_row.coded)) (λ t. (t.below, t.roots)) (λ p. record { below = p.0; roots = p.1 }) (λ _. refl) };

    ghost use Rattle.ecma_forest.specs.Slots.{grown, trees_over, AreRooted};

    ghost view = { λ f. record { below = grown f.kinds f.below.items; roots = trees_over f.kinds f.below.items f.roots.items } };

    ghost invariant = { λ f. AreRooted f.kinds f.below.items f.roots.items };
}

fn joined_summary(slots: &[Slot]) -> Summary
    ensures { result ≡ slots_summary slots.now }
{
    let mut summary = Summary::empty();
    for slot in slots {
        summary = summary.join(slot.summary);
    }
    summary
}

/// Moves the roots from start on below.
fn move_below(below: &mut Vec<Slot>, roots: &mut Vec<Slot>, start: usize) -> Result<(), NoMemory>
    requires { start ≤ length roots.old.items }
    ensures below { OnOk result (below.new.items ≡ below.old.items ++ drop start roots.old.items) }
    ensures roots { OnOk result (roots.new.items ≡ take start roots.old.items) }
    ensures err { OnErr result ((below.new.items ≡ below.old.items) × (roots.new.items ≡ roots.old.items)) }
{
    below.extend_from_slice(&roots[start..])?;
    roots.truncate(start);
    Ok(())
}

/// Moves the roots from start on below, and puts a root over them.
fn put_over(
    below: &mut Vec<Slot>,
    roots: &mut Vec<Slot>,
    span: Span,
    kind: u32,
    own: Summary,
    start: usize,
) -> Result<(), NoMemory>
    requires { start ≤ length roots.old.items }
    ensures below { OnOk result (below.new.items ≡ below.old.items ++ drop start roots.old.items) }
    ensures roots { OnOk result (roots.new.items ≡ take start roots.old.items ++ slot_over span kind own (length below.old.items) (drop start roots.old.items) ∷ []) }
    ensures err { OnErr result ((below.new.items ≡ below.old.items) × (roots.new.items ≡ roots.old.items)) }
{
    let first = below.len();
    let count = roots.len() - start;
    if first > 4294967295 || count > 4294967295 {
        return Err(NoMemory);
    }
    let summary = own.join(joined_summary(&roots[start..]));
    roots.reserve(1)?;
    below.extend_from_slice(&roots[start..])?;
    roots.truncate(start);
    roots.push_reserved(Slot {
        span,
        kind,
        first: first as u32,
        count: count as u32,
        summary,
    });
    Ok(())
}

/// Puts slots in the place of the last.
fn replace_last(slots: &mut Vec<Slot>, last: usize, others: &[Slot]) -> Result<(), NoMemory>
    requires { length slots.old.items ≡ last + 1 }
    ensures ok { OnOk result (slots.new.items ≡ take last slots.old.items ++ others.now) }
    ensures err { OnErr result (slots.new.items ≡ slots.old.items) }
{
    slots.extend_from_slice(others)?;
    slots.remove(last);
    Ok(())
}

impl Forest {
    /// A forest without trees. It takes no memory.
    pub fn new(alloc: Global) -> Forest
        ensures below { result.below ≡ [] }
        ensures roots { result.roots ≡ [] }
    {
        Forest {
            kinds: KindTable::new(alloc),
            below: Vec::new(alloc),
            roots: Vec::new(alloc),
        }
    }

    /// How many roots there are.
    pub fn len(&self) -> usize
        ensures { result ≡ length self.now.roots }
    {
        self.roots.len()
    }

    /// How many trees have a place: each number below is one.
    pub fn places(&self) -> usize
        ensures { result ≡ length self.now.below }
    {
        self.below.len()
    }

    /// The span of the tree at a place.
    pub fn span(&self, at: u32) -> Span
        requires { at < length self.now.below }
        ensures { result ≡ (out-Node (node self.now at)).span }
    {
        self.below[at as usize].span
    }

    /// The kind of the tree at a place.
    pub fn kind(&self, at: u32) -> &Kind
        requires { at < length self.now.below }
        ensures { result.now ≡ (out-Node (node self.now at)).kind }
    {
        self.kinds.at(self.below[at as usize].kind)
    }

    /// How many children the tree at a place has.
    pub fn count(&self, at: u32) -> u32
        requires { at < length self.now.below }
        ensures { result ≡ length (out-Node (node self.now at)).children }
    {
        self.below[at as usize].count
    }

    /// What stands somewhere in the tree at a place. It does not look below.
    pub fn summary(&self, at: u32) -> Summary
        requires { at < length self.now.below }
        ensures { result ≡ tree_summary (node self.now at) }
    {
        self.below[at as usize].summary
    }

    /// The place of a child.
    pub fn child(&self, at: u32, i: u32) -> u32
        requires at { at < length self.now.below }
        requires i { i < length (out-Node (node self.now at)).children }
        ensures within { result < length self.now.below }
        ensures node { slice_get (out-Node (node self.now at)).children i ≡ Some (node self.now result) }
    {
        self.below[at as usize].first + i
    }

    /// Puts the tree at a place behind the roots as it is. It is shared, and not copied.
    pub fn keep(&mut self, at: u32) -> Result<(), NoMemory>
        requires { at < length self.old.below }
        ensures below { self.new.below ≡ self.old.below }
        ensures ok { OnOk result (self.new.roots ≡ self.old.roots ++ node self.old at ∷ []) }
        ensures err { OnErr result (self.new ≡ self.old) }
    {
        let slot = self.below[at as usize];
        self.roots.push(slot)?;
        Ok(())
    }

    /// Gives the roots from start on their places, one behind the other, of which it answers the first.
    pub fn lay(&mut self, start: usize) -> Result<u32, NoMemory>
        requires { start ≤ length self.old.roots }
        ensures first { IfOk result (λ first. first ≡ length self.old.below) }
        ensures below { OnOk result (self.new.below ≡ self.old.below ++ drop start self.old.roots) }
        ensures roots { OnOk result (self.new.roots ≡ take start self.old.roots) }
        ensures err { OnErr result (self.new ≡ self.old) }
    {
        let first = self.below.len();
        if first > 4294967295 {
            return Err(NoMemory);
        }
        move_below(&mut self.below, &mut self.roots, start)?;
        Ok(first as u32)
    }

    /// Takes the roots from start on away.
    pub fn cut(&mut self, start: usize)
        requires { start ≤ length self.old.roots }
        ensures below { self.new.below ≡ self.old.below }
        ensures roots { self.new.roots ≡ take start self.old.roots }
    {
        self.roots.truncate(start);
    }

    /// Makes the roots from start on the children of a new one, of the same span and kind as the tree at a place.
    pub fn wrap_same(&mut self, at: u32, start: usize) -> Result<(), NoMemory>
        requires at { at < length self.old.below }
        requires start { start ≤ length self.old.roots }
        ensures below { OnOk result (self.new.below ≡ self.old.below ++ drop start self.old.roots) }
        ensures roots { OnOk result (self.new.roots ≡ wrapped (out-Node (node self.old at)).span (out-Node (node self.old at)).kind start self.old.roots) }
        ensures err { OnErr result (self.new ≡ self.old) }
    {
        let slot = self.below[at as usize];
        let own = kind_summary(self.kinds.at(slot.kind));
        put_over(
            &mut self.below,
            &mut self.roots,
            slot.span,
            slot.kind,
            own,
            start,
        )?;
        Ok(())
    }

    /// Makes the roots from start on the children of a new one. Without memory they stay.
    pub fn wrap(&mut self, span: Span, kind: Kind, start: usize) -> Result<(), NoMemory>
        requires { start ≤ length self.old.roots }
        ensures below { OnOk result (self.new.below ≡ self.old.below ++ drop start self.old.roots) }
        ensures roots { OnOk result (self.new.roots ≡ wrapped span kind start self.old.roots) }
        ensures err { OnErr result (self.new ≡ self.old) }
    {
        let own = kind_summary(&kind);
        let number = self.kinds.number_of(kind)?;
        put_over(&mut self.below, &mut self.roots, span, number, own, start)?;
        Ok(())
    }

    /// The same with a kind that is lent: it is copied where the forest has none such yet.
    pub fn wrap_like(&mut self, span: Span, kind: &Kind, start: usize) -> Result<(), NoMemory>
        requires { start ≤ length self.old.roots }
        ensures below { OnOk result (self.new.below ≡ self.old.below ++ drop start self.old.roots) }
        ensures roots { OnOk result (self.new.roots ≡ wrapped span kind.now start self.old.roots) }
        ensures err { OnErr result (self.new ≡ self.old) }
    {
        let own = kind_summary(kind);
        let number = self.kinds.number_like(kind)?;
        put_over(&mut self.below, &mut self.roots, span, number, own, start)?;
        Ok(())
    }

    /// The span of a root.
    pub fn root_span(&self, i: usize) -> Span
        requires { i < length self.now.roots }
        ensures { result ≡ (out-Node (root self.now i)).span }
    {
        self.roots[i].span
    }

    /// The kind of a root.
    pub fn root_kind(&self, i: usize) -> &Kind
        requires { i < length self.now.roots }
        ensures { result.now ≡ (out-Node (root self.now i)).kind }
    {
        self.kinds.at(self.roots[i].kind)
    }

    /// Takes the last root apart: its children are roots in its place, as they were before they were wrapped. They keep their
    /// places too. Without memory it stays.
    pub fn open(&mut self) -> Result<(), NoMemory>
        requires { 0 < length self.old.roots }
        ensures below { self.new.below ≡ self.old.below }
        ensures roots { OnOk result (self.new.roots ≡ opened self.old.roots) }
        ensures err { OnErr result (self.new ≡ self.old) }
    {
        let last = self.roots.len() - 1;
        let slot = self.roots[last];
        let first = slot.first as usize;
        let end = first + slot.count as usize;
        replace_last(&mut self.roots, last, &self.below[first..end])?;
        Ok(())
    }

    /// Puts a root without children behind the others.
    pub fn leaf(&mut self, span: Span, kind: Kind) -> Result<(), NoMemory>
        ensures below { self.new.below ≡ self.old.below }
        ensures roots { OnOk result (self.new.roots ≡ self.old.roots ++ node_of span kind [] ∷ []) }
        ensures err { OnErr result (self.new ≡ self.old) }
    {
        let start = self.len();
        self.wrap(span, kind, start)
    }
}
