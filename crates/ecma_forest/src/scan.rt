//! What is made of every tree, in one walk along the array.
ghost use Rattle.std.specs.Prelude.{◌≡◌, ◌<◌, ◌≤◌, ◌+◌, IfOk, List, map, take, drop, length};
ghost use Rattle.ecma_kind.specs.declared.kind.Kind.{Kind};
ghost use Rattle.ecma_kind.specs.declared.span.Span.{Span};
ghost use Rattle.ecma_forest.specs.Scanning.{scanned};
ghost use Rattle.ecma_forest.specs.Slots.{kind_at};

use crate::forest::{Forest, Slot};
use crate::kinds::KindTable;
use ecma_tree::{Kind, NoMemory, Span};
use std::alloc::Global;

/// What is made of a tree: of the span and the kind of its root, and of what was made of its children.
pub trait Scan<A> {
    ghost step: { Self → Span → Kind → List A → A };

    /// What is made of a node of whose children this was made.
    fn step(&self, span: Span, kind: &Kind, children: &[A]) -> A
        ensures { result ≡ step self.now span kind.now children.now };
}

fn scan_slot<A, S: Scan<A>>(scan: &S, kinds: &KindTable, slot: &Slot, made: &[A]) -> A
    requires kind { slot.now.kind < length kinds.now }
    requires front { slot.now.first + slot.now.count ≤ length made.now }
    ensures { result ≡ S.step scan.now slot.now.span (kind_at kinds.now slot.now.kind) (take slot.now.count (drop slot.now.first made.now)) }
{
    let first = slot.first as usize;
    let end = first + slot.count as usize;
    scan.step(slot.span, kinds.at(slot.kind), &made[first..end])
}

impl Forest {
    /// What is made of the tree at each place: one walk along the array, with no recursion.
    pub fn scan<A: Drop, S: Scan<A>>(&self, alloc: Global, scan: &S) -> Result<Vec<A>, NoMemory>
        ensures { IfOk result (λ made. made.items ≡ map (scanned (S.step scan.now)) self.now.below) }
    {
        let mut made = Vec::new(alloc);
        for slot in self.below.as_slice() {
            let next = scan_slot(scan, &self.kinds, slot, made.as_slice());
            made.push(next)?;
        }
        Ok(made)
    }
}
