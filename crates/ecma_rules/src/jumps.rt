//! Jumps, and what an enum initialiser or a namespace body may not hold.
ghost use Rattle.std.specs.Prelude.{◌≡◌};
ghost use Rattle.std.specs.Option.{option_copied};
ghost use Rattle.ecma_tree.specs.declared.node.Node.{out-Node};
ghost use Rattle.ecma_rules.specs.Frames.{held_of, labels_of};
ghost use Rattle.ecma_rules.specs.Walks.{holds_strays};
ghost use Rattle.ecma_rules.specs.Jumps.{ends_jumps, first_held_stray, first_stray, held_behind, is_held_stray, is_stray_jump, label_of, own_label, text_by};

use crate::failing::{failing_here, least};
use crate::labels::{Labels, has_label};
use crate::strays::{Strays, is_stray, nothing_held, strays_in};
use ecma_tree::{JsWord, Kind, Node};

fn text_by(kind: &Kind) -> Option<&JsWord>
    ensures { option_copied result ≡ text_by kind.now }
{
    match kind {
        Kind::Ident { sym, .. } => Some(sym),
        _ => None,
    }
}

/// The label of a statement or of a jump.
fn label_of(node: &Node) -> Option<&JsWord>
    ensures { option_copied result ≡ label_of node.now }
{
    match node.children.get(0) {
        Some(label) => text_by(&label.kind),
        None => None,
    }
}

fn is_stray_jump(
    unlabeled: bool,
    strays: Strays,
    labels: &Labels<'_>,
    label: Option<&JsWord>,
) -> bool
    ensures { result ≡ is_stray_jump unlabeled (held_of strays labels.now) (option_copied label.entry) }
{
    match label {
        None => unlabeled,
        Some(label) => strays.held && !has_label(labels, label),
    }
}

/// Whether a node belongs to nothing inside the enum initialiser or namespace body around it.
#[tactic(auto, unfolding(crate::specs::Jumps::is_stray_in))]
fn is_held_stray(strays: Strays, labels: &Labels<'_>, node: &Node) -> bool
    ensures { result ≡ is_held_stray (held_of strays labels.now) node.now }
{
    match &node.kind {
        Kind::BreakStmt => is_stray_jump(strays.breaking, strays, labels, label_of(node)),
        Kind::ContinueStmt => is_stray_jump(strays.continuing, strays, labels, label_of(node)),
        kind => is_stray(strays, kind),
    }
}

/// Whether no jump leaves a node of this kind.
#[tactic(auto, unfolding(crate::specs::Jumps::ends_jumps))]
fn ends_jumps(kind: &Kind) -> bool
    ensures { result ≡ ends_jumps kind.now }
{
    matches!(
        kind,
        Kind::Function { .. }
            | Kind::ArrowExpr { .. }
            | Kind::Constructor { .. }
            | Kind::GetterProp
            | Kind::SetterProp
            | Kind::ClassProp { .. }
            | Kind::PrivateProp { .. }
            | Kind::StaticBlock
            | Kind::TsEnumMember
            | Kind::TsModuleBlock
    )
}

/// The label that a statement gives what stands in it.
fn own_label(node: &Node) -> Option<&JsWord>
    ensures { option_copied result ≡ own_label (out-Node node.now).kind (label_of node.now) }
{
    match &node.kind {
        Kind::LabeledStmt => label_of(node),
        _ => None,
    }
}

/// The least place of a stray in a tree.
#[cycle(straying)]
fn first_held_stray(node: &Node, strays: Strays, labels: &Labels<'_>) -> Option<u32>
    ensures { result ≡ first_held_stray node.now (held_of strays labels.now) }
{
    let mut found = failing_here(is_held_stray(strays, labels, node), node);
    let ends = ends_jumps(&node.kind);
    let label = own_label(node);
    for i in 0..node.children.len() {
        let inside = strays_in(strays, &node.kind, i);
        let below = first_stray_behind(node.children.at(i), inside, ends, label, &*labels);
        found = least(found, below);
    }
    found
}

/// The same in a tree that stands after a label, or where no label holds.
#[cycle(straying)]
fn first_stray_behind(
    node: &Node,
    strays: Strays,
    ends: bool,
    label: Option<&JsWord>,
    labels: &Labels<'_>,
) -> Option<u32>
    ensures { result ≡ first_held_stray node.now (held_behind strays ends (option_copied label.entry) (labels_of labels.now)) }
{
    if ends {
        return first_held_stray(node, strays, &Labels::Nothing);
    }
    match label {
        None => first_held_stray(node, strays, &*labels),
        Some(label) => {
            let inner = Labels::Label {
                label: &*label,
                outer: &*labels,
            };
            first_held_stray(node, strays, &inner)
        }
    }
}

/// Whether something may belong to nothing inside a node of this kind, where nothing may outside of it.
pub(crate) fn holds_strays(kind: &Kind) -> bool
    ensures { result ≡ holds_strays kind.now }
{
    matches!(kind, Kind::TsEnumMember | Kind::TsModuleBlock)
}

/// The least place of what belongs to nothing inside the enum initialiser or namespace body around it.
///
///     enum E { A = f(function () { return this; }) }
///     enum E { A = this.b }   // refused
///     namespace N { return a; }   // refused
pub fn first_stray(tree: &Node) -> Option<u32>
    ensures { result ≡ first_stray tree.now }
{
    if holds_strays(&tree.kind) {
        return first_held_stray(tree, nothing_held(), &Labels::Nothing);
    }
    let mut found = None;
    for i in 0..tree.children.len() {
        found = least(found, first_stray(tree.children.at(i)));
    }
    found
}
