//! Templates (ECMAScript, 13.2.8).
ghost use Rattle.std.specs.Prelude.{◌≡◌, ◌<◌, Some, length, slice_get};
ghost use Rattle.ecma_tree.specs.declared.node.Node.{out-Node, size-Node};

use super::Inside;
use crate::out::Out;
use crate::place::{Place, Spot};
use ecma_tree::{NoMemory, Node};

/// A child of a node.
fn item_of(list: &Node, index: usize) -> &Node
    requires { index < length (out-Node list.now).children }
    ensures item { slice_get (out-Node list.now).children index ≡ Some result.now }
    ensures inside { size-Node result.now < size-Node list.now }
{
    &list.children.as_slice()[index]
}

impl<'f, 'n, F: Fn(&mut Out, &Node, Place, &[u8]) -> Result<(), NoMemory>> Inside<'f, 'n, F> {
    ghost use Rattle.std.specs.Prelude.{OnOk, drop};
    ghost use Rattle.ecma_print.specs.Expressions.{first_piece, substitution, template, template_parts};
    ghost use Rattle.ecma_print.specs.Layout.{laid, children_of};
    ghost use Rattle.ecma_print.specs.Writing.{Puts, ShowsChildren};

    /// A template.
    pub(super) fn template(&self, out: &mut Out) -> Result<(), NoMemory>
        requires { ShowsChildren F.Fn self.now }
        ensures { OnOk result (Puts out.old out.new self.now.margin.now (template (children_of self.now))) }
    {
        let [expressions, quasis] = self.node.children.as_slice() else {
            return Ok(());
        };
        self.say(out, "`")?;
        self.template_parts(out, expressions, quasis)?;
        self.say(out, "`")
    }

    /// A child of a child, by itself.
    fn part(&self, out: &mut Out, list: &Node, index: usize) -> Result<(), NoMemory>
        requires shows { ShowsChildren F.Fn self.now }
        requires inside { size-Node list.now < size-Node self.now.node.now }
        requires within { index < length (out-Node list.now).children }
        ensures { OnOk result (Puts out.old out.new self.now.margin.now (first_piece (drop index (laid list.now).parts))) }
    {
        self.child(out, item_of(list, index), Place::At(Spot::alone()))
    }

    /// An expression in `${` and `}`, if there is one.
    fn substitution(&self, out: &mut Out, expressions: &Node, index: usize) -> Result<(), NoMemory>
        requires shows { ShowsChildren F.Fn self.now }
        requires inside { size-Node expressions.now < size-Node self.now.node.now }
        ensures { OnOk result (Puts out.old out.new self.now.margin.now (substitution (drop index (laid expressions.now).parts))) }
    {
        if index >= expressions.children.len() {
            return Ok(());
        }
        self.say(out, "${")?;
        self.part(out, expressions, index)?;
        self.say(out, "}")
    }

    /// Texts, and after each an expression.
    fn template_parts(
        &self,
        out: &mut Out,
        expressions: &Node,
        quasis: &Node,
    ) -> Result<(), NoMemory>
        requires shows { ShowsChildren F.Fn self.now }
        requires expressions_inside { size-Node expressions.now < size-Node self.now.node.now }
        requires quasis_inside { size-Node quasis.now < size-Node self.now.node.now }
        ensures { OnOk result (Puts out.old out.new self.now.margin.now (template_parts (laid quasis.now).parts (laid expressions.now).parts)) }
    {
        for i in 0..quasis.children.len() {
            self.part(out, quasis, i)?;
            self.substitution(out, expressions, i)?;
        }
        Ok(())
    }
}
