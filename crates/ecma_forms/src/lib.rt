//! Which modules the program takes today: the least place of a node whose form it does not take, and that does not go with the types; and which have to be lowered
//! first, of which the laws speak.
//!
//! The reader gives trees of the whole language; a module with a node of such a form is refused afterwards. What goes with the types is not asked.
#![tactic(auto)]

mod forms;
mod places;

pub use places::first_untaken;
