//! The table of kinds: a kind is a number there, and one that is there is found again.
ghost use Rattle.std.specs.Prelude.{◌≡◌, ◌<◌, [], IfOk, IfSome, IsTrue, Some, length, map, slice_get};
ghost use Rattle.ecma_forest.specs.Slots.{Extends};

use crate::change::Change;
use crate::hash::kind_hash;
use ecma_kind::{copy_kind, same_kind};
use ecma_tree::{Kind, NoMemory};
use std::alloc::Global;
use std::marker::Model;

/// How many places there are for the kinds of one hash.
const PROBES: u32 = 8;

/// What stands where no number does.
const NOTHING: u32 = 4294967295;

/// Kinds by number. Contracts see the list of them. Where one of a hash may stand is remembered beside it, of which no clause
/// speaks: what is remembered is tried, and [`same_kind`] decides.
#[derive(Drop)]
pub(crate) struct KindTable {
    kinds: Vec<Kind>,
    hints: Vec<u32>,
    /// One less than there are hints, which are a power of two.
    mask: u32,
}

impl Model for KindTable {
    ghost use Rattle.std.specs.Prelude.{List};
    ghost use Rattle.ecma_kind.specs.declared.kind.Kind.{Kind};

    ghost Value = { List Kind };

    ghost view = { λ table. table.kinds.items };
}

/// Whether the kind of a number is this one.
fn is_at(kinds: &[Kind], number: u32, kind: &Kind) -> bool
    ensures { IsTrue result → slice_get kinds.now number ≡ Some kind.now }
{
    match kinds.get(number as usize) {
        Some(there) => same_kind(there, kind),
        None => false,
    }
}

/// Remembers the number of a kind by its hash: in the first of the hash's places that is free, and else in place of the first.
fn remember(hints: &mut Vec<u32>, mask: u32, hash: u32, number: u32) {
    for probe in 0..PROBES {
        let place = (hash.wrapping_add(probe) & mask) as usize;
        if place < hints.len() && hints[place] == NOTHING {
            hints[place] = number;
            return;
        }
    }
    let place = (hash & mask) as usize;
    if place < hints.len() {
        hints[place] = number;
    }
}

/// Remembers the numbers of all kinds.
fn remember_all(hints: &mut Vec<u32>, mask: u32, kinds: &[Kind]) {
    let mut number = 0u32;
    for kind in kinds {
        remember(hints, mask, kind_hash(kind), number);
        number = number.wrapping_add(1);
    }
}

fn forget(hints: &mut Vec<u32>) {
    for place in 0..hints.len() {
        hints[place] = NOTHING;
    }
}

fn change_kinds<C: Change>(change: &C, kinds: &mut Vec<Kind>)
    ensures { kinds.new.items ≡ map (C.kind_to change.now) kinds.old.items }
{
    for i in 0..kinds.len() {
        change.change(&mut kinds[i]);
    }
}

impl KindTable {
    /// A table without kinds. It takes no memory.
    pub(crate) fn new(alloc: Global) -> KindTable
        ensures { result ≡ [] }
    {
        KindTable {
            kinds: Vec::new(alloc),
            hints: Vec::new(alloc),
            mask: 0,
        }
    }

    /// The kind of a number.
    pub(crate) fn at(&self, number: u32) -> &Kind
        requires { number < length self.now }
        ensures { slice_get self.now number ≡ Some result.now }
    {
        &self.kinds[number as usize]
    }

    /// A number of a kind that is remembered by its hash.
    fn find(&self, hash: u32, kind: &Kind) -> Option<u32>
        ensures { IfSome result (λ number. slice_get self.now number ≡ Some kind.now) }
    {
        for probe in 0..PROBES {
            let place = (hash.wrapping_add(probe) & self.mask) as usize;
            match self.hints.as_slice().get(place) {
                None => return None,
                Some(number) => {
                    if is_at(self.kinds.as_slice(), *number, kind) {
                        return Some(*number);
                    }
                    if *number == NOTHING {
                        return None;
                    }
                }
            }
        }
        None
    }

    /// Makes room for four times as many hints, where half of them are taken.
    fn make_room(&mut self) -> Result<(), NoMemory>
        ensures { self.new ≡ self.old }
    {
        if self.kinds.len() < self.hints.len() / 2 || self.mask > 536870911 {
            return Ok(());
        }
        self.mask = self.mask * 4 + 3;
        self.hints.clear();
        self.hints.resize(self.mask as usize + 1, NOTHING)?;
        remember_all(&mut self.hints, self.mask, self.kinds.as_slice());
        Ok(())
    }

    /// Puts a kind of this hash behind the others.
    fn push(&mut self, hash: u32, kind: Kind) -> Result<u32, NoMemory>
        ensures more { Extends self.old self.new }
        ensures ok { IfOk result (λ number. slice_get self.new number ≡ Some kind) }
    {
        self.make_room()?;
        let number = self.kinds.len();
        if number > 4294967295 {
            return Err(NoMemory);
        }
        self.kinds.push(kind)?;
        remember(&mut self.hints, self.mask, hash, number as u32);
        Ok(number as u32)
    }

    /// A number of a kind, which the table has then.
    pub(crate) fn number_of(&mut self, kind: Kind) -> Result<u32, NoMemory>
        ensures more { Extends self.old self.new }
        ensures ok { IfOk result (λ number. slice_get self.new number ≡ Some kind) }
    {
        let hash = kind_hash(&kind);
        match self.find(hash, &kind) {
            Some(number) => Ok(number),
            None => self.push(hash, kind),
        }
    }

    /// The same of a kind that is lent. It is copied only where the table has none such.
    pub(crate) fn number_like(&mut self, kind: &Kind) -> Result<u32, NoMemory>
        ensures more { Extends self.old self.new }
        ensures ok { IfOk result (λ number. slice_get self.new number ≡ Some kind.now) }
    {
        let hash = kind_hash(kind);
        match self.find(hash, kind) {
            Some(number) => Ok(number),
            None => self.push(hash, copy_kind(kind)?),
        }
    }

    /// Changes each kind.
    pub(crate) fn change<C: Change>(&mut self, change: &C)
        ensures { self.new ≡ map (C.kind_to change.now) self.old }
    {
        change_kinds(change, &mut self.kinds);
        forget(&mut self.hints);
        remember_all(&mut self.hints, self.mask, self.kinds.as_slice());
    }
}
