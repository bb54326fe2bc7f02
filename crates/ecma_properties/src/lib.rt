//! Classes with parameter properties, as they stand: which have them, their names and fields, which keys have to be kept in variables, and which classes are not
//! lowered (docs/PROPERTIES.md).
#![tactic(auto)]

mod checking;
mod classes;
mod error;
mod keys;
mod standing;
mod supers;

pub use checking::check_properties;
pub use classes::{
    constructor_of, has_properties, is_field, is_moved, parameters_of, property_names,
};
pub use error::{PropertyError, Rule};
pub use keys::{kept_key, kept_of};
pub use supers::{is_super_stmt, shares, under_types};
