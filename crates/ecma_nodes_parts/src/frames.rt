//! The nodes of a list, where they are exactly so many.
ghost use Rattle.std.specs.Prelude.{◌≡◌, ◌≢◌, [], ◌∷◌, length, MatchOption};

use ecma_tree::{Node, Nodes};

/// The one node of a list.
#[tactic(auto, using(crate::proofs::Framing::framing))]
pub fn one(items: Nodes) -> Option<Node>
    ensures { MatchOption result (length items ≢ 1) (λ a. items ≡ a ∷ []) }
{
    let mut items = items;
    let last = items.pop()?;
    if items.is_empty() { Some(last) } else { None }
}

/// The two nodes of a list.
#[tactic(auto, using(crate::proofs::Framing::framing))]
pub fn two(items: Nodes) -> Option<(Node, Node)>
    ensures { MatchOption result (length items ≢ 2) (λ x. items ≡ x.0 ∷ x.1 ∷ []) }
{
    let mut items = items;
    let b = items.pop()?;
    let a = one(items)?;
    Some((a, b))
}

/// The three nodes of a list.
#[tactic(auto, using(crate::proofs::Framing::framing))]
pub fn three(items: Nodes) -> Option<(Node, Node, Node)>
    ensures { MatchOption result (length items ≢ 3) (λ x. items ≡ x.0 ∷ x.1 ∷ x.2 ∷ []) }
{
    let mut items = items;
    let c = items.pop()?;
    let (a, b) = two(items)?;
    Some((a, b, c))
}

/// The four nodes of a list.
#[tactic(auto, using(crate::proofs::Framing::framing))]
pub fn four(items: Nodes) -> Option<(Node, Node, Node, Node)>
    ensures { MatchOption result (length items ≢ 4) (λ x. items ≡ x.0 ∷ x.1 ∷ x.2 ∷ x.3 ∷ []) }
{
    let mut items = items;
    let d = items.pop()?;
    let (a, b, c) = three(items)?;
    Some((a, b, c, d))
}

/// The five nodes of a list.
#[tactic(auto, using(crate::proofs::Framing::framing))]
pub fn five(items: Nodes) -> Option<(Node, Node, Node, Node, Node)>
    ensures { MatchOption result (length items ≢ 5) (λ x. items ≡ x.0 ∷ x.1 ∷ x.2 ∷ x.3 ∷ x.4 ∷ []) }
{
    let mut items = items;
    let e = items.pop()?;
    let (a, b, c, d) = four(items)?;
    Some((a, b, c, d, e))
}

/// The six nodes of a list.
#[tactic(auto, using(crate::proofs::Framing::framing))]
pub fn six(items: Nodes) -> Option<(Node, Node, Node, Node, Node, Node)>
    ensures { MatchOption result (length items ≢ 6) (λ x. items ≡ x.0 ∷ x.1 ∷ x.2 ∷ x.3 ∷ x.4 ∷ x.5 ∷ []) }
{
    let mut items = items;
    let f = items.pop()?;
    let (a, b, c, d, e) = five(items)?;
    Some((a, b, c, d, e, f))
}

/// The seven nodes of a list.
#[tactic(auto, using(crate::proofs::Framing::framing))]
pub fn seven(items: Nodes) -> Option<(Node, Node, Node, Node, Node, Node, Node)>
    ensures { MatchOption result (length items ≢ 7) (λ x. items ≡ x.0 ∷ x.1 ∷ x.2 ∷ x.3 ∷ x.4 ∷ x.5 ∷ x.6 ∷ []) }
{
    let mut items = items;
    let g = items.pop()?;
    let (a, b, c, d, e, f) = six(items)?;
    Some((a, b, c, d, e, f, g))
}

/// The eight nodes of a list.
#[tactic(auto, using(crate::proofs::Framing::framing))]
pub fn eight(items: Nodes) -> Option<(Node, Node, Node, Node, Node, Node, Node, Node)>
    ensures { MatchOption result (length items ≢ 8) (λ x. items ≡ x.0 ∷ x.1 ∷ x.2 ∷ x.3 ∷ x.4 ∷ x.5 ∷ x.6 ∷ x.7 ∷ []) }
{
    let mut items = items;
    let h = items.pop()?;
    let (a, b, c, d, e, f, g) = seven(items)?;
    Some((a, b, c, d, e, f, g, h))
}

/// The nine nodes of a list.
#[tactic(auto, using(crate::proofs::Framing::framing))]
pub fn nine(items: Nodes) -> Option<(Node, Node, Node, Node, Node, Node, Node, Node, Node)>
    ensures { MatchOption result (length items ≢ 9) (λ x. items ≡ x.0 ∷ x.1 ∷ x.2 ∷ x.3 ∷ x.4 ∷ x.5 ∷ x.6 ∷ x.7 ∷ x.8 ∷ []) }
{
    let mut items = items;
    let i = items.pop()?;
    let (a, b, c, d, e, f, g, h) = eight(items)?;
    Some((a, b, c, d, e, f, g, h, i))
}
