//! Parentheses that keep what is written from being read as something else, and names that are bound where a type stood round them, do not change what a
//! module imports and exports.
//!
//! Each function carries a law over the definitions, and does nothing. The laws are stated in `specs/Laws.antt`.
#![tactic(auto)]

ghost use Rattle.ecma_bind_interface.specs.Laws.{BindingKeepsInterfaces, EnclosingKeepsInterfaces};

/// A resolved module with such parentheses has the interface that it has without them.
pub fn enclosing_keeps_interfaces()
    ensures { EnclosingKeepsInterfaces }
{}

/// A module with bound names has the interface that it has without them.
pub fn binding_keeps_interfaces()
    ensures { BindingKeepsInterfaces }
{}
