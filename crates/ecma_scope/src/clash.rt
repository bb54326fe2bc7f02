//! Clashes of declarations, and which of them stands first in the text.
ghost use Rattle.std.specs.Prelude.{◌≡◌};
ghost use Rattle.ecma_scope.specs.Clashes.{sooner};

use ecma_tree::JsWord;

/// A name that is declared again where it may not be.
#[derive(Drop)]
pub(crate) struct Clash {
    pub(crate) name: JsWord,
    /// The byte offset of the name, from 0 on, in the later of the two declarations that clash.
    pub(crate) at: u32,
}

/// Of two clashes, where there are any, the one that stands first in the text; where they stand at one offset, the former.
pub(crate) fn sooner(former: Option<Clash>, latter: Option<Clash>) -> Option<Clash>
    ensures { result ≡ sooner former latter }
{
    let Some(first) = former else {
        return latter;
    };
    let Some(second) = latter else {
        return Some(first);
    };
    if second.at < first.at {
        Some(second)
    } else {
        Some(first)
    }
}
