//! A module that fits, and in which all that is TypeScript is types, imports and exports without them what it does with them.
//!
//! The function carries a law over the definitions, and does nothing. The law is stated in `specs/Laws.antt`.
#![tactic(auto)]

ghost use Rattle.ecma_strip_interface.specs.Laws.{StrippingKeepsInterfaces};

/// Without its types a module has the interface that it has with them.
pub fn stripping_keeps_interfaces()
    ensures { StrippingKeepsInterfaces }
{}
