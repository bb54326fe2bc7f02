//! What changes every node of a module by itself, and does not change what it imports and exports.
//!
//! Each function carries a law over the definitions, and does nothing. The laws are stated in `specs/Laws.antt`.
#![tactic(auto)]

ghost use Rattle.ecma_interface_laws.specs.Laws.{ContextsKeepInterfaces, SpansKeepInterfaces};

/// Without its spans a module has the same interface.
pub fn spans_keep_interfaces()
    ensures { SpansKeepInterfaces }
{}

/// With other contexts it has the same by the texts of its names.
pub fn contexts_keep_interfaces()
    ensures { ContextsKeepInterfaces }
{}
