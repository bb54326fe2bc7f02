//! A table that gives each distinct text a number.
ghost use Rattle.std.specs.Prelude.{◌≡◌, ◌++◌, ◌∷◌, [], ℕ, Contains, IfOk, OnErr, OnOk, Ok, Some, length, slice_get};
ghost use Rattle.std.specs.Option.{option_map};
ghost use Rattle.symbol_table.specs.Texts.{AreDistinct};

use ecma_number::NoMemory;
use indexmap::IndexSet;
use std::alloc::Global;
use std::marker::Model;
use std::rc::RcStr;

/// Distinct texts, of which each has a number: its place among them. Contracts see the list of them.
#[derive(Drop)]
pub struct SymbolTable {
    texts: IndexSet<RcStr>,
}

impl Model for SymbolTable {
    ghost use Rattle.std.specs.Prelude.{ℕ, List, ◌≤◌, length, map};
    ghost use Rattle.std.specs.Rc.{rc_str_bytes};
    ghost use Rattle.symbol_table.specs.Texts.{AreDistinct};

    ghost Value = { List (List ℕ) };

    ghost view = { λ table. map rc_str_bytes table.texts.keys };

    ghost invariant = { λ table. AreDistinct (map rc_str_bytes table.texts.keys) × (length table.texts.keys ≤ 4294967296) };
}

impl SymbolTable {
    /// A table of no texts. It takes no memory.
    pub fn new(alloc: Global) -> SymbolTable
        ensures { result ≡ [] }
    {
        SymbolTable {
            texts: IndexSet::new(alloc),
        }
    }

    /// How many texts there are.
    pub fn len(&self) -> usize
        ensures len { result ≡ length self.now }
        ensures distinct { AreDistinct self.now }
    {
        self.texts.len()
    }

    /// The text of a number, none where no text has it.
    pub fn text(&self, n: u32) -> Option<&str>
        ensures { option_map (λ text. text.now) result ≡ slice_get self.now n }
    {
        match self.texts.get_index(n as usize) {
            Some(text) => Some(text.as_str()),
            None => None,
        }
    }

    /// The number of a text. A text that is there keeps its own, with no need of memory; another one becomes the last.
    pub fn intern(&mut self, text: &str) -> Result<u32, NoMemory>
        ensures there { (n : ℕ) → slice_get self.old n ≡ Some text.now → (result ≡ Ok n) × (self.new ≡ self.old) }
        ensures number { ¬ Contains self.old text.now → IfOk result (λ n. n ≡ length self.old) }
        ensures appended { ¬ Contains self.old text.now → OnOk result (self.new ≡ self.old ++ text.now ∷ []) }
        ensures err { OnErr result (self.new ≡ self.old) }
    {
        if let Some(n) = self.texts.get_index_of(text) {
            return Ok(n as u32);
        }
        let n = self.texts.len();
        if n > 4294967295 {
            return Err(NoMemory);
        }
        let word = RcStr::from_str(*self.texts.allocator(), text)?;
        self.texts.insert(word)?;
        Ok(n as u32)
    }
}
