//! The nodes of statements and of the items of modules.
#![tactic(auto)]

mod statements;

pub use statements::{declared, headed, import_equals, module_of, namespace};
