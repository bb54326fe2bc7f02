//! The nodes of functions, of their parameters, and of patterns with their types.
#![tactic(auto)]

mod functions;

pub use functions::{
    annotated, arrow, declarator, function, getter, parameter, setter, yield_expr,
};
