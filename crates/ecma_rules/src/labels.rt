//! The labels that stand around a node.
ghost use Rattle.std.specs.Prelude.{◌≡◌, bytes_eq};
ghost use Rattle.std.specs.List.{list_any};
ghost use Rattle.ecma_rules.specs.Frames.{labels_of};

use ecma_tree::JsWord;

/// The labels of the statements around a node, the innermost first.
#[derive(Drop)]
pub(crate) enum Labels<'a> {
    Nothing,
    Label {
        label: &'a JsWord,
        outer: &'a Labels<'a>,
    },
}

/// Whether one of them is this.
pub(crate) fn has_label(labels: &Labels<'_>, wanted: &JsWord) -> bool
    ensures { result ≡ list_any (λ l. bytes_eq l wanted.now) (labels_of labels.now) }
{
    match labels {
        Labels::Nothing => false,
        Labels::Label { label, outer } => {
            if label.as_str() == wanted.as_str() {
                return true;
            }
            has_label(outer, wanted)
        }
    }
}
