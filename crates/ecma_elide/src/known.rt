//! What is known of the names of a module, so that each question is answered by one look.
ghost use Rattle.std.specs.Prelude.{◌≡◌, ℕ, List, Bool, true, IfOk, OnOk, Some, None, bytes_eq, nat_eq, cond};
ghost use Rattle.std.specs.HashMap.{get};
ghost use Rattle.std.specs.HashSet.{contains};
ghost use Rattle.std.specs.List.{list_any};
ghost use Rattle.ecma_scope.specs.Uses.{UsedId};
ghost use Rattle.ecma_elide.specs.Elision.{is_among, known_of, same_id};
ghost use Rattle.ecma_elide.specs.Sets.{has_text, is_used_by, known_by};

use crate::declared::{type_names, value_names};
use ecma_scope::used_ids;
use ecma_tree::{Id, JsWord, Module, NoMemory, SyntaxContext};
use item_list::ItemList;
use std::alloc::Global;
use std::collections::{HashMap, HashSet};

/// The ids that are used: for each context the texts.
#[derive(Drop)]
pub(crate) struct Used {
    texts: HashMap<SyntaxContext, HashSet<JsWord>>,
}

/// What is known of the names of a module.
#[derive(Drop)]
pub(crate) struct Names {
    used: Used,
    values: HashSet<JsWord>,
    types: HashSet<JsWord>,
    keeps_imports: bool,
}

impl Names {
    /// Whether an id is used.
    pub(crate) fn is_used(&self, sym: &JsWord, ctxt: SyntaxContext) -> bool
        ensures { result ≡ (known_by self.now).is_used (sym.now, ctxt) }
    {
        match self.used.texts.get(&ctxt) {
            Some(texts) => texts.contains(sym),
            None => false,
        }
    }

    /// Whether the module declares a value of this name.
    pub(crate) fn is_value(&self, sym: &JsWord) -> bool
        ensures { result ≡ (known_by self.now).is_value sym.now }
    {
        self.values.contains(sym)
    }

    /// Whether the module declares a type of this name.
    pub(crate) fn is_type(&self, sym: &JsWord) -> bool
        ensures { result ≡ (known_by self.now).is_type sym.now }
    {
        self.types.contains(sym)
    }

    /// Whether an import that is left without names is kept.
    pub(crate) fn keeps_imports(&self) -> bool
        ensures { result ≡ (known_by self.now).keeps_imports }
    {
        self.keeps_imports
    }
}

fn add_text(texts: &mut HashSet<JsWord>, text: &JsWord) -> Result<(), NoMemory>
    ensures { OnOk result ((other : List ℕ) → contains bytes_eq texts.new other
        ≡ cond (bytes_eq text.now other) true (contains bytes_eq texts.old other)) }
{
    texts.insert(text.clone()?)?;
    Ok(())
}

fn text_set(alloc: Global, texts: &ItemList<JsWord>) -> Result<HashSet<JsWord>, NoMemory>
    ensures { IfOk result (λ set. (text : List ℕ) → contains bytes_eq set text ≡ is_among texts.now text) }
{
    let mut set = HashSet::new(alloc);
    for i in 0..texts.len() {
        add_text(&mut set, texts.at(i))?;
    }
    Ok(set)
}

/// Takes the texts of a context out; none, where there are none.
fn take_texts(alloc: Global, used: &mut Used, ctxt: SyntaxContext) -> HashSet<JsWord>
    ensures texts { (text : List ℕ) → contains bytes_eq result text ≡ has_text (get nat_eq used.old.texts ctxt) text }
    ensures others { (other : ℕ) → get nat_eq used.new.texts other
        ≡ cond (nat_eq ctxt other) None (get nat_eq used.old.texts other) }
{
    match used.texts.remove(&ctxt) {
        Some(texts) => texts,
        None => HashSet::new(alloc),
    }
}

fn put_texts(used: &mut Used, ctxt: SyntaxContext, texts: HashSet<JsWord>) -> Result<(), NoMemory>
    ensures { OnOk result ((other : ℕ) → get nat_eq used.new.texts other
        ≡ cond (nat_eq ctxt other) (Some texts) (get nat_eq used.old.texts other)) }
{
    used.texts.insert(ctxt, texts)?;
    Ok(())
}

fn add_used(alloc: Global, used: &mut Used, id: &Id) -> Result<(), NoMemory>
    ensures { OnOk result ((other : UsedId) → is_used_by used.new other
        ≡ cond (same_id id.now other) true (is_used_by used.old other)) }
{
    let mut texts = take_texts(alloc, used, id.1);
    add_text(&mut texts, &id.0)?;
    put_texts(used, id.1, texts)?;
    Ok(())
}

fn used_of(alloc: Global, ids: &ItemList<Id>) -> Result<Used, NoMemory>
    ensures { IfOk result (λ used. (id : UsedId) → is_used_by used id ≡ list_any (λ u. same_id u id) ids.now) }
{
    let mut used = Used {
        texts: HashMap::new(alloc),
    };
    for i in 0..ids.len() {
        add_used(alloc, &mut used, ids.at(i))?;
    }
    Ok(used)
}

/// What is known of the names of a resolved module.
pub(crate) fn names_of(alloc: Global, keeps_imports: bool, tree: &Module) -> Result<Names, NoMemory>
    ensures { IfOk result (λ names. known_by names ≡ known_of keeps_imports tree.now) }
{
    let ids = used_ids(alloc, tree)?;
    let used = used_of(alloc, &ids)?;
    let value_texts = value_names(alloc, tree)?;
    let values = text_set(alloc, &value_texts)?;
    let type_texts = type_names(alloc, tree)?;
    let types = text_set(alloc, &type_texts)?;
    Ok(Names {
        used,
        values,
        types,
        keeps_imports,
    })
}
