//! Parentheses that keep what is written from being read as something else.
//!
//! Once types and empty statements are gone, a text may stand where a directive stands, as in `; "use strict";` and `"use strict" as any;`, and the name
//! `async` before `of`, as in `for (async! of a);`. Here each of them gets parentheses before that.
#![tactic(auto)]

mod enclosing;
mod place;

pub use enclosing::enclose;
pub use place::Place;
