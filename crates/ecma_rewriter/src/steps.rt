//! The steps of a rewriting by seats.
ghost use Rattle.std.specs.Prelude.{◌≡◌, ℕ, Bool, List, Option, IfOk, OnOk, None, Some, cond};
ghost use Rattle.ecma_kind.specs.declared.kind.Kind.{Kind};
ghost use Rattle.ecma_kind.specs.declared.span.Span.{Span};
ghost use Rattle.ecma_tree.specs.declared.node.Node.{Node, out-Node};
ghost use Rattle.ecma_rewriting.specs.Rewriting.{Rewriting};
ghost use Rattle.ecma_rewriter.specs.Seats.{Leaves, Moves, Seat, Seats, StandsStill, Writes, seat};

use ecma_tree::{Kind, NoMemory, Node, Nodes, Span};
use item_list::ItemList;
use std::alloc::Global;

/// The steps of a rewriting by seats. A seat is a place, which is copied, with what is around it, which is handed down by reference.
pub trait Rewriter {
    /// Where a node stands.
    type Place: Copy;
    /// What is around a node.
    type Around: Drop;
    /// What an item of a list brings around those behind it.
    type Brought: Drop;
    /// How a node is written, as it is told of the node as it stood.
    type Form: Drop;

    ghost rewriting: { Self → Rewriting (Seat Self.Place Self.Around) };

    ghost moves: { Self → Self.Place → Bool };

    ghost brings: { Self → Self.Place → Node → Self.Brought };

    ghost with_brought: { Self → Self.Around → Self.Brought → Self.Around };

    ghost inside: { Self → Seat Self.Place Self.Around → Kind → List Node → Option Self.Around };

    ghost form: { Self → Seat Self.Place Self.Around → Span → Kind → List Node → Option Self.Form };

    ghost child_place: { Self → Self.Form → Self.Place → Kind → ℕ → Self.Place };

    ghost written: { Self → Self.Form → Seat Self.Place Self.Around → Span → Kind → List (List Node) → List Node };

    /// Whether an item of a list is kept.
    fn keeps(&self, item: &Node) -> bool
        ensures { result ≡ (rewriting self.now).keeps item.now };

    /// What an item becomes that is not kept.
    fn unkept(
        &self,
        alloc: Global,
        place: Self::Place,
        around: &Self::Around,
        item: Node,
    ) -> Result<Nodes, NoMemory>
        ensures { IfOk result (λ nodes. nodes ≡ (rewriting self.now).unkept (seat place around.now) item) };

    /// A copy of what is around a list here, where the items bring something.
    fn own_around(
        &self,
        alloc: Global,
        place: Self::Place,
        around: &Self::Around,
    ) -> Result<Option<Self::Around>, NoMemory>
        ensures { IfOk result (λ own. own ≡ cond (moves self.now place) (Some around.now) None) };

    /// What an item brings that is kept.
    fn brings(
        &self,
        alloc: Global,
        place: Self::Place,
        item: &Node,
    ) -> Result<Self::Brought, NoMemory>
        ensures { IfOk result (λ brought. brought ≡ brings self.now place item.now) };

    /// Puts what an item brought around those behind it.
    fn bring(&self, around: &mut Self::Around, brought: Self::Brought) -> Result<(), NoMemory>
        ensures { OnOk result (around.new ≡ with_brought self.now around.old brought) };

    /// What is around the children of a node, where it is something else than what is around the node.
    fn inside(
        &self,
        alloc: Global,
        place: Self::Place,
        around: &Self::Around,
        node: &Node,
    ) -> Result<Option<Self::Around>, NoMemory>
        ensures { IfOk result (λ own. own ≡ inside self.now (seat place around.now) (out-Node node.now).kind (out-Node node.now).children) };

    /// How a node is written; `None` where it stays as it is.
    fn form(
        &self,
        alloc: Global,
        place: Self::Place,
        around: &Self::Around,
        node: &Node,
    ) -> Result<Option<Self::Form>, NoMemory>
        ensures { IfOk result (λ told. told ≡ form self.now (seat place around.now)
            (out-Node node.now).span (out-Node node.now).kind (out-Node node.now).children) };

    /// Where the child at an index stands, of a node of this form.
    fn child_place(
        &self,
        by: &Self::Form,
        place: Self::Place,
        kind: &Kind,
        index: usize,
    ) -> Self::Place
        ensures { result ≡ child_place self.now by.now place kind.now index };

    /// What a node of this form becomes, over what its children became.
    fn write(
        &self,
        alloc: Global,
        by: Self::Form,
        place: Self::Place,
        around: &Self::Around,
        span: Span,
        kind: Kind,
        lists: ItemList<Nodes>,
    ) -> Result<Nodes, NoMemory>
        ensures { IfOk result (λ nodes. nodes ≡ written self.now by (seat place around.now) span kind lists) };

    ghost stands_still: { (r : Self) → StandsStill (rewriting r) (moves r) };

    ghost goes_on: { (r : Self) → Moves (rewriting r) (moves r) (brings r) (with_brought r) };

    ghost leaves: { (r : Self) → Leaves (rewriting r) (form r) };

    ghost writes: { (r : Self) → Writes (rewriting r) (form r) (written r) };

    ghost seats: { (r : Self) → Seats (rewriting r) (form r) (child_place r) (inside r) };
}
