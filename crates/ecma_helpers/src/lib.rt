//! Helpers: functions of other modules that lowered code calls. A session keeps which are used, each under one name, and a module imports those that are.
//!
//! Each call equals a definition in specs/. Nothing here speaks of runs.
#![tactic(auto)]

mod importing;
mod name;
mod slots;

pub use importing::inject_helpers;
pub use name::HelperName;
pub use slots::{helper, helper_name, kept_of, set_helpers_unused, use_helper};
