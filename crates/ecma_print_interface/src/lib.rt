//! The parentheses of the layout do not change what a module imports and exports.
//!
//! The function carries a law over the definitions, and does nothing. The law is stated in `specs/Laws.antt`.
#![tactic(auto)]

ghost use Rattle.ecma_print_interface.specs.Laws.{ParenthesesKeepInterfaces};

/// A module in which each pair of parentheses of its layout is a node has the interface that it has without them.
pub fn parentheses_keep_interfaces()
    ensures { ParenthesesKeepInterfaces }
{}
