//! A list that owns its items, which contracts see as the list of them.
ghost use Rattle.std.specs.Prelude.{◌≡◌, [], ◌∷◌, ◌++◌, ◌<◌, length, slice_get, slice_set, remove, ◌↔◌, IsTrue, IfOk, MatchOption, OnOk, OnErr, OnSome};
ghost use Rattle.std.specs.Option.{option_copied};
ghost use Rattle.std.specs.Fn.{CalledAt};
ghost use Rattle.std.specs.List.Retain.{IsFiltered};

use std::alloc::{AllocError, Global};
use std::marker::Model;
use std::mem;

/// A list that owns its items; contracts see it as the list of them.
#[derive(Debug, Drop)]
pub struct ItemList<T> {
    items: Vec<T>,
}

impl<T> Model for ItemList<T> {
    ghost use Rattle.std.specs.Prelude.{List};
    ghost use Rattle.std.specs.Coded.{coded_list};

    ghost Value = { List T };

    ghost coded = { coded_list T.code };

    ghost view = { λ list. list.items.items };
}

impl<T> ItemList<T> {
    ghost use Rattle.std.specs.Borrow.{Lends, sem};
    ghost use Rattle.item_list.specs.contracts.list.ItemList.{the_row};

    /// The list of no items. It takes no memory.
    pub fn new(alloc: Global) -> ItemList<T>
        ensures { result ≡ [] }
    {
        ItemList {
            items: Vec::new(alloc),
        }
    }

    /// The items of `items`, in their order. It takes no memory.
    pub fn from_vec(items: Vec<T>) -> ItemList<T>
        ensures { result ≡ items.items }
    {
        ItemList { items }
    }

    /// The items, in their order. It takes no memory.
    pub fn into_vec(self) -> Vec<T>
        ensures { result.items ≡ self }
    {
        let ItemList { items } = self;
        items
    }

    pub fn as_slice(&self) -> &[T]
        ensures { result.now ≡ self.now }
    {
        self.items.as_slice()
    }

    pub fn len(&self) -> usize
        ensures { result ≡ length self.now }
    {
        self.items.len()
    }

    pub fn is_empty(&self) -> bool
        ensures { IsTrue result ↔ (self.now ≡ []) }
    {
        self.items.is_empty()
    }

    /// The item at an index, counted from 0; none past the end.
    pub fn get(&self, index: usize) -> Option<&T>
        ensures value { option_copied result ≡ slice_get self.now index }
        ensures within { OnSome result (index < length self.now) }
    {
        self.items.get(index)
    }

    /// The item at an index that is known to lie in the list.
    pub fn at(&self, index: usize) -> &T
        requires { index < length self.now }
        ensures { slice_get self.now index ≡ Some result.now }
    {
        &self.items[index]
    }

    /// The item at an index, to be written.
    pub fn get_mut(&mut self, index: usize) -> &mut T
        requires { index < length self.old }
        ensures* writes_back { sem 𝓛 (Lends (the_row T.row) T.row self.entry result (slice_set self.entry.now index)) }
        ensures value { slice_get self.old index ≡ Some result.now }
    {
        &mut self.items[index]
    }

    /// Takes the last item off.
    pub fn pop(&mut self) -> Option<T>
        ensures { MatchOption result ((self.old ≡ []) × (self.new ≡ [])) (λ last. self.old ≡ self.new ++ last ∷ []) }
    {
        self.items.pop()
    }
}

impl<T: Drop> ItemList<T> {
    /// The items of an array, in their order.
    pub fn from_array<const N: usize>(
        alloc: Global,
        items: [T; N],
    ) -> Result<ItemList<T>, AllocError>
        ensures { IfOk result (λ list. list ≡ items) }
    {
        let items = Vec::from_array(alloc, items)?;
        Ok(ItemList { items })
    }

    /// Puts an item behind the others. Without memory the list is as before.
    pub fn push(&mut self, item: T) -> Result<(), AllocError>
        ensures ok { OnOk result (self.new ≡ self.old ++ item ∷ []) }
        ensures err { OnErr result (self.new ≡ self.old) }
    {
        self.items.push(item)?;
        Ok(())
    }

    /// Moves the items of `more` behind the others. Without memory the list is as before.
    pub fn append(&mut self, more: ItemList<T>) -> Result<(), AllocError>
        ensures ok { OnOk result (self.new ≡ self.old ++ more) }
        ensures err { OnErr result (self.new ≡ self.old) }
    {
        let ItemList { mut items } = more;
        self.items.append(&mut items)
    }

    /// Keeps the items of which `keeps` says so, in their order, and lets go of the others. It takes no memory.
    pub fn retain<F: FnMut(&T) -> bool>(&mut self, keeps: F)
        requires { F.IsAlwaysCallable keeps }
        ensures { IsFiltered (CalledAt F.FnMut) keeps self.old self.new }
    {
        self.items.retain(keeps)
    }

    /// Writes an item in the place of another.
    pub fn set(&mut self, index: usize, item: T)
        requires { index < length self.old }
        ensures { self.new ≡ slice_set self.old index item }
    {
        self.items[index] = item;
    }

    /// Writes an item in the place of another, which it hands out.
    pub fn replace(&mut self, index: usize, item: T) -> T
        requires { index < length self.old }
        ensures item { slice_get self.old index ≡ Some result }
        ensures rest { self.new ≡ slice_set self.old index item }
    {
        mem::replace(&mut self.items[index], item)
    }
}
