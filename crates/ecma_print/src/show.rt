//! Shows any tree, through one closure.
ghost use Rattle.std.specs.Prelude.{◌≡◌, ◌<◌, IfOk, OnOk};
ghost use Rattle.ecma_tree.specs.declared.node.Node.{size-Node};
ghost use Rattle.ecma_print.specs.Layout.{laid, layout};
ghost use Rattle.ecma_print.specs.Writing.{Puts};

use crate::inside::Inside;
use crate::out::Out;
use crate::place::{Place, Spot};
use ecma_tree::{Kind, Module, NoMemory, Node};
use std::alloc::Global;

/// Prints a module, of whatever nodes: its text is the layout of its tree.
pub fn print_module(alloc: Global, tree: &Module) -> Result<Vec<u8>, NoMemory>
    ensures { IfOk result (λ text. text.items ≡ layout tree.now) }
{
    let mut out = Out::new(alloc);
    show(&mut out, tree, Place::At(Spot::alone()), b"")?;
    let Out { alloc: _, bytes } = out;
    Ok(bytes)
}

/// Shows a node in its place.
#[tactic(auto, using(crate::proofs::LaidOut::laying))]
fn show(out: &mut Out, node: &Node, place: Place, margin: &[u8]) -> Result<(), NoMemory>
    ensures { OnOk result (Puts out.old out.new margin.now ((laid node.now).at place)) }
{
    let show_child = |out: &mut Out, child: &Node, place: Place, margin: &[u8]| -> Result<
        (),
        NoMemory,
    >
        requires { size-Node child.now < size-Node node.now }
        ensures { OnOk result (Puts out.entry.now out.exit.now margin.entry.now ((laid child.entry.now).at place)) }
    {
        let _ = &node;
        show(out, child, place, margin)
    };
    let inside = Inside {
        show: &show_child,
        node,
        margin,
    };
    match &node.kind {
        Kind::Absent => Ok(()),
        Kind::List => inside.listed(out, place),
        _ => inside.placed(out, place),
    }
}
