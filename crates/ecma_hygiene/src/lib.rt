//! Hygiene: texts for bindings, so that the written module, where contexts are gone, means what its ids meant.
#![tactic(auto)]

mod declared;
mod expand;
mod ids;
mod laws;
mod naming;
mod pass;
mod rename;
mod scope;
mod sight;
mod soughts;
mod spot;
mod texts;
mod walk;

pub use laws::{nothing_is_captured, texts_tell_names_apart, what_need_not_change_stays};
pub use naming::Named;
pub use pass::hygiene;
pub use sight::{Meeting, Sight};
pub use spot::{Spot, Standing};
