//! The pass that lowers a module.
ghost use Rattle.std.specs.Prelude.{◌≡◌, ◌+◌, ◌<◌, Err, IfOk, OnOk};
ghost use Rattle.std.specs.List.{list_any};
ghost use Rattle.ecma_scope.specs.Drawing.{HasGivenAtMost};
ghost use Rattle.ecma_lower.specs.Assignments.{is_required_import};
ghost use Rattle.ecma_lower.specs.Items.{items_of};
ghost use Rattle.ecma_lower.specs.Lowered.{transformed, with_assignments_lowered};
ghost use Rattle.ecma_lower.specs.Moving.{with_exports_last};
ghost use Rattle.ecma_lower.specs.Names.{drawn_for, head_of, makes_require, names_of};
ghost use Rattle.ecma_lower.specs.Writing.{with_assignments};

use crate::assignment::is_required_import;
use crate::head::{Head, put_head};
use crate::moving::put_exports_last;
use crate::names::names_of;
use crate::writing::write_assignments;
use ecma_config::TsImportExportAssignConfig;
use ecma_tree::{Mark, Module, NoMemory, Node, PassError, Session};
use std::alloc::Global;

/// The pass that lowers a module: [`TransformPass::visit_mut_module`] runs it.
#[derive(Debug, Drop)]
pub struct TransformPass {
    pub unresolved: Mark,
    pub top: Mark,
    pub assign: TsImportExportAssignConfig,
    pub ts_enum_is_mutable: bool,
    pub verbatim_module_syntax: bool,
}

/// The pass that lowers a module whose free names have the context of `unresolved`. It asks for that and for `assign`; the others are for enums and
/// namespaces, which it does not lower yet.
pub fn transform(
    unresolved: Mark,
    top: Mark,
    assign: TsImportExportAssignConfig,
    ts_enum_is_mutable: bool,
    verbatim_module_syntax: bool,
) -> TransformPass
    ensures { result ≡ record { unresolved = unresolved; top = top; assign = assign; ts_enum_is_mutable = ts_enum_is_mutable; verbatim_module_syntax = verbatim_module_syntax } }
{
    TransformPass {
        unresolved,
        top,
        assign,
        ts_enum_is_mutable,
        verbatim_module_syntax,
    }
}

/// Whether one of these items requires a module.
fn requires_any(items: &[Node]) -> bool
    ensures { result ≡ list_any is_required_import items.now }
{
    for item in items {
        if is_required_import(item) {
            return true;
        }
    }
    false
}

fn makes_require(assign: TsImportExportAssignConfig, tree: &Module) -> bool
    ensures { result ≡ makes_require assign tree.now }
{
    match assign {
        TsImportExportAssignConfig::NodeNext => match tree.children.get(0) {
            Some(list) => requires_any(list.children.as_slice()),
            None => false,
        },
        _ => false,
    }
}

/// The names of a `require` that is made, in contexts that the session gives.
#[tactic(auto, using(crate::proofs::Drawn::drawing))]
fn draw_head(
    alloc: Global,
    session: &mut Session,
    assign: TsImportExportAssignConfig,
    tree: &Module,
) -> Result<Option<Head>, PassError>
    ensures head { IfOk result (λ head. head ≡ head_of assign session.old.left tree.now) }
    ensures left { OnOk result (session.new.left + drawn_for assign tree.now ≡ session.old.left) }
    ensures spent { result ≡ Err PassError.Spent → session.old.left < drawn_for assign tree.now }
    ensures session { HasGivenAtMost (drawn_for assign tree.now) session.old session.new }
{
    if !makes_require(assign, tree) {
        return Ok(None);
    }
    let create = ecma_utils::private_ident!(alloc, session, "_createRequire")?;
    let required = ecma_utils::private_ident!(alloc, session, "__require")?;
    Ok(Some(Head { create, required }))
}

/// Moves each `export =` to the end of a module, and writes its assignments by the names of an option and a head.
fn write_with(
    alloc: Global,
    assign: TsImportExportAssignConfig,
    unresolved: Mark,
    head: &Option<Head>,
    tree: &mut Module,
) -> Result<(), NoMemory>
    ensures { OnOk result (tree.new ≡ with_assignments (names_of assign unresolved head.now) (with_exports_last tree.old)) }
{
    let names = names_of(alloc, assign, unresolved, head)?;
    put_exports_last(alloc, tree)?;
    write_assignments(alloc, &names, tree)
}

/// Writes the assignments of a module for which no `require` is made (docs/LOWERING.md is the table); its free names have the context of `unresolved`. No
/// context is drawn. After want of memory the tree may be half done.
pub fn lower_assignments(
    alloc: Global,
    assign: TsImportExportAssignConfig,
    unresolved: Mark,
    tree: &mut Module,
) -> Result<(), NoMemory>
    ensures { OnOk result (tree.new ≡ with_assignments_lowered assign unresolved tree.old) }
{
    write_with(alloc, assign, unresolved, &None, tree)
}

impl TransformPass {
    /// Writes the assignments of a module (docs/LOWERING.md is the table). `Spent` comes only where two contexts are needed and the session has not as many;
    /// after a refusal the tree may be half done.
    pub fn visit_mut_module(
        &mut self,
        alloc: Global,
        session: &mut Session,
        tree: &mut Module,
    ) -> Result<(), PassError>
        ensures tree { OnOk result (tree.new ≡ transformed self.old.assign self.old.unresolved (head_of self.old.assign session.old.left tree.old) tree.old) }
        ensures left { OnOk result (session.new.left + drawn_for self.old.assign tree.old ≡ session.old.left) }
        ensures spent { result ≡ Err PassError.Spent → session.old.left < drawn_for self.old.assign tree.old }
        ensures session { HasGivenAtMost (drawn_for self.old.assign tree.old) session.old session.new }
        ensures pass { self.new ≡ self.old }
    {
        let head = draw_head(alloc, session, self.assign, tree)?;
        write_with(alloc, self.assign, self.unresolved, &head, tree)?;
        if let Some(head) = head {
            put_head(alloc, head, tree)?;
        }
        Ok(())
    }
}
