//! Which finished trees fit, that is, are well-formed: docs/FITS.md.
#![tactic(auto)]

mod branches;
mod chains;
mod counts;
mod members;
mod role;
mod strays;
mod unfit;

pub use role::{Role, role_in};
pub use strays::Arguments;
pub use unfit::{Where, first_unfit, fits};
