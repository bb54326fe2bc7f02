//! What was read is kept, and made into nodes.
ghost use Rattle.std.specs.Prelude.{◌≡◌, ℕ, [], ◌∷◌, IsTrue};
ghost use Rattle.ecma_tree.specs.declared.node.Node.{Node};
ghost use Rattle.ecma_grammar.specs.Made.{made_with_types};

use super::Reader;
use crate::failure::Failure;
use ecma_grammar::{Flag, Form, Leaf};
use ecma_nodes::{flag_node, made};
use ecma_tree::{NoMemory, Node, Nodes};

/// A node that was begun.
#[derive(Clone, Copy, Debug)]
pub(crate) struct Opened {
    pub form: &'static Form,
    /// Where it begins.
    pub lo: u32,
    /// How many nodes were kept before it.
    pub count: usize,
}

impl Reader<'_> {
    ghost use Rattle.std.specs.Prelude.{◌≡◌, ◌≤◌, [], ◌∷◌, ◌++◌, take, length, OnOk};
    ghost use Rattle.ecma_grammar.specs.trees.Parts.{flag_node};
    ghost use Rattle.ecma_grammar.specs.Reads.{kept_leaf, next_start};
    ghost use Rattle.ecma_reader.specs.Agreement.{position, kept, SameText, Keeps};
    ghost use Rattle.ecma_reader.specs.Opening.{built, closed, Within};

    /// Keeps a node behind the others.
    pub(crate) fn keep(&mut self, node: Node) -> Result<(), NoMemory>
        ensures text { SameText self.old self.new }
        ensures position { position self.new ≡ position self.old }
        ensures kept { OnOk result (kept self.new ≡ kept self.old ++ node ∷ []) }
    {
        self.kept.push(node)?;
        Ok(())
    }

    #[inline(never)]
    pub(crate) fn put(&mut self, flag: Flag) -> Result<(), NoMemory>
        ensures text { SameText self.old self.new }
        ensures position { position self.new ≡ position self.old }
        ensures kept { OnOk result (kept self.new ≡ kept self.old ++ flag_node flag ∷ []) }
    {
        let node = flag_node(self.alloc, flag);
        self.keep(node)
    }

    #[inline(never)]
    pub(crate) fn keep_leaf(&mut self, leaf: Leaf) -> Result<(), Failure>
        ensures { Keeps self.old self.new result (kept_leaf self.old.text.now leaf) }
    {
        let node = self.leaf(leaf)?;
        self.keep(node)?;
        Ok(())
    }

    /// How many nodes are kept.
    pub(crate) fn count(&self) -> usize
        ensures { result ≡ length (kept self.now) }
    {
        self.kept.len()
    }

    /// Goes back to a place, and to where so many nodes were kept.
    pub(crate) fn go_back(&mut self, place: u32, count: usize)
        ensures text { SameText self.old self.new }
        ensures position { position self.new ≡ record { place = place; failed = self.old.failed } }
        ensures kept { kept self.new ≡ take count (kept self.old) }
    {
        self.place = place;
        if count < self.kept.len() {
            self.let_go(count);
        }
    }

    #[inline(never)]
    fn let_go(&mut self, count: usize)
        ensures text { SameText self.old self.new }
        ensures position { position self.new ≡ position self.old }
        ensures kept { kept self.new ≡ take count (kept self.old) }
    {
        self.kept.truncate(count);
    }

    /// Begins a node that is made of what will be kept from here on.
    #[inline(never)]
    pub(crate) fn open(&mut self, form: &'static Form) -> Opened
        ensures text { SameText self.old self.new }
        ensures position { position self.new ≡ position self.old }
        ensures kept { kept self.new ≡ kept self.old }
        ensures form { result.form.now ≡ form.now }
        ensures lo { result.lo ≡ next_start self.old.text.now (position self.old) }
        ensures count { result.count ≡ length (kept self.old) }
    {
        Opened {
            form,
            lo: self.next_start(),
            count: self.kept.len(),
        }
    }

    fn make(&mut self, opened: Opened) -> Result<(), NoMemory>
        requires { opened.count ≤ length (kept self.old) }
        ensures text { SameText self.old self.new }
        ensures position { position self.new ≡ position self.old }
        ensures kept { OnOk result (kept self.new ≡ built opened self.old.place (kept self.old)) }
    {
        let items = Nodes::from_vec(self.kept.split_off(opened.count)?);
        let node = made(self.alloc, *opened.form, opened.lo, self.place, items)?;
        self.keep(node)
    }

    /// Makes a node of what was kept since it was begun; it ends where the reading stands.
    #[tactic(auto, using(crate::proofs::Readings::alone))]
    #[inline(never)]
    pub(crate) fn build(&mut self, opened: Opened) -> Result<(), NoMemory>
        requires { opened.count ≤ length (kept self.old) }
        ensures text { SameText self.old self.new }
        ensures position { position self.new ≡ position self.old }
        ensures kept { OnOk result (kept self.new ≡ built opened self.old.place (kept self.old)) }
    {
        if opened.count + 1 == self.kept.len() && is_that_one(opened.form) {
            return Ok(());
        }
        self.make(opened)
    }

    /// Makes the node that was begun, if one was.
    pub(crate) fn close(&mut self, opened: Option<Opened>) -> Result<(), NoMemory>
        requires { Within (length (kept self.old)) opened }
        ensures text { SameText self.old self.new }
        ensures position { position self.new ≡ position self.old }
        ensures kept { OnOk result (kept self.new ≡ closed opened self.old.place (kept self.old)) }
    {
        match opened {
            Some(opened) => self.build(opened),
            None => Ok(()),
        }
    }
}

/// Whether a form makes of one node that node.
fn is_that_one(form: &Form) -> bool
    ensures { IsTrue result → (lo hi : ℕ) (node : Node) → made_with_types form.now lo hi (node ∷ []) ≡ node }
{
    matches!(
        form,
        Form::Chain | Form::Links | Form::Logical | Form::Sequence
    )
}
