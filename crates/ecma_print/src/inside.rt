//! What stands inside a node: a method a kind, in files by topic. A method shows children through the closure that it is given.
mod control;
mod functions;
mod levels;
mod links;
mod lists;
mod literals;
mod modules;
mod operations;
mod places;
mod properties;
mod statements;
mod templates;

use crate::out::Out;
use crate::place::Place;
use ecma_tree::{NoMemory, Node};

/// A node, the margin of its lines, and the function that shows each of its children.
#[derive(Drop)]
pub(crate) struct Inside<'f, 'n, F> {
    pub(crate) show: &'f F,
    pub(crate) node: &'n Node,
    pub(crate) margin: &'n [u8],
}

impl<'f, 'n, F: Fn(&mut Out, &Node, Place, &[u8]) -> Result<(), NoMemory>> Inside<'f, 'n, F> {
    ghost use Rattle.std.specs.Prelude.{◌≡◌, ◌<◌, OnOk};
    ghost use Rattle.ecma_tree.specs.declared.node.Node.{size-Node};
    ghost use Rattle.ecma_print.specs.Pieces.{say, new_line};
    ghost use Rattle.ecma_print.specs.Layout.{laid};
    ghost use Rattle.ecma_print.specs.Writing.{Puts, ShowsChildren};

    /// Shows a node inside this one.
    pub(super) fn child(&self, out: &mut Out, child: &Node, place: Place) -> Result<(), NoMemory>
        requires shows { ShowsChildren F.Fn self.now }
        requires inside { size-Node child.now < size-Node self.now.node.now }
        ensures { OnOk result (Puts out.old out.new self.now.margin.now ((laid child.now).at place)) }
    {
        (self.show)(out, child, place, self.margin)
    }

    /// Writes these characters.
    pub(super) fn say(&self, out: &mut Out, text: &str) -> Result<(), NoMemory>
        ensures { OnOk result (Puts out.old out.new self.now.margin.now (say text.now)) }
    {
        out.write(self.margin, text)
    }

    /// Begins a new line.
    pub(super) fn new_line(&self, out: &mut Out) -> Result<(), NoMemory>
        ensures { OnOk result (Puts out.old out.new self.now.margin.now new_line) }
    {
        out.new_line(self.margin)
    }
}
