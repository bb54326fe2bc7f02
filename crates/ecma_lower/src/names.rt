//! The names by which assignments are written.
ghost use Rattle.std.specs.Prelude.{◌≡◌, IfOk};
ghost use Rattle.ecma_lower.specs.Names.{names_of};

use crate::head::Head;
use ecma_config::TsImportExportAssignConfig;
use ecma_tree::{Ident, Mark, NoMemory, SyntaxContext};
use std::alloc::Global;

/// The names by which assignments are written.
#[derive(Debug, Drop)]
pub struct Names {
    /// The function by which a module is required; none where such an import stays.
    pub required: Option<Ident>,
    /// The context of the free names `exports` and `module`; none where they are not written.
    pub free: Option<SyntaxContext>,
}

/// The names of an option: `require`, `exports` and `module` where they are free, or a `require` that is made at the head of the module.
pub(crate) fn names_of(
    alloc: Global,
    assign: TsImportExportAssignConfig,
    unresolved: Mark,
    head: &Option<Head>,
) -> Result<Names, NoMemory>
    ensures { IfOk result (λ names. names ≡ names_of assign unresolved head.now) }
{
    if let TsImportExportAssignConfig::Classic = assign {
        let ctxt = SyntaxContext::empty().apply_mark(unresolved);
        return Ok(Names {
            required: Some(ecma_utils::quote_ident!(alloc, ctxt, "require")?),
            free: Some(ctxt),
        });
    }
    let required = match head {
        Some(head) => Some(head.required.clone()?),
        None => None,
    };
    Ok(Names {
        required,
        free: None,
    })
}
