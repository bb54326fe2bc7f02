//! Shared texts, such as the symbols of identifiers.
ghost use Rattle.std.specs.Prelude.{◌≡◌, ℕ, List, IfOk, nat_eq};
ghost use Rattle.std.specs.Rc.{rc_str_bytes};
ghost use Rattle.std.specs.Str.{IsUtf8};
ghost use Rattle.std.specs.Cmp.Lexicographic.{pointwise, nat_list_eq_equiv};
ghost use Rattle.std.specs.Cmp;
ghost use Rattle.std.specs.Cmp.Rules.{hashing};
ghost use Rattle.std.specs.Hash as fed;
ghost use Rattle.std.proofs.Common.{rules};

use ecma_number::NoMemory;
use short_texts::is_same;
use std::alloc::{AllocError, Global};
use std::hash::{Hash, Hasher};
use std::marker::Model;
use std::rc::RcStr;

/// A shared text, such as the symbol of an identifier. Contracts see it as its bytes, which are UTF-8.
#[derive(Debug, Drop)]
pub struct JsWord {
    text: RcStr,
}

impl Model for JsWord {
    ghost Value = { List ℕ };

    ghost view = { λ word. rc_str_bytes word.text };

    ghost invariant = { λ word. IsUtf8 (rc_str_bytes word.text) };
}

impl JsWord {
    pub fn new(alloc: Global, text: &str) -> Result<JsWord, NoMemory>
        ensures { IfOk result (λ word. word ≡ text.now) }
    {
        Ok(JsWord {
            text: RcStr::from_str(alloc, text)?,
        })
    }

    /// The text that [`JsWord::new`] took.
    pub fn as_str(&self) -> &str
        ensures value { result.now ≡ self.now }
        ensures utf8 { IsUtf8 self.now }
    {
        self.text.as_str()
    }
}

/// A clone equals what it was cloned from; its only refusal is want of memory.
impl Clone for JsWord {
    ghost is_clone = { λ word copy. copy ≡ word };

    fn clone(&self) -> Result<JsWord, AllocError> {
        Ok(JsWord {
            text: self.text.clone()?,
        })
    }
}

impl PartialEq for JsWord {
    ghost eq = { pointwise nat_eq };

    ghost laws = { Cmp.partial_equiv_from_equiv nat_list_eq_equiv };

    fn eq(&self, other: &JsWord) -> bool {
        is_same(self.text.as_str(), other.text.as_str())
    }
}

impl Eq for JsWord {
    ghost laws = { nat_list_eq_equiv };
}

/// Equal words feed a hasher the same.
impl Hash for JsWord {
    ghost hash_input = { fed.str };

    ghost respects_eq = { Prim.search (hashing, rules) };

    fn hash<H: Hasher>(&self, state: &mut H) {
        self.as_str().hash(state);
    }
}
