//! Lowering: what of TypeScript does something when it runs, written as ECMAScript. Here are the assignments of a module: `import a = ..` and `export = e`.
#![tactic(auto)]

mod assignment;
mod checking;
mod error;
mod head;
mod items;
mod marking;
mod moving;
mod names;
mod pass;
mod seat;
mod writing;

pub use checking::check_lowering;
pub use error::LowerError;
pub use marking::{has_module_declaration, mark_module};
pub use pass::{TransformPass, lower_assignments, transform};
