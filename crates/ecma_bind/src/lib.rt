//! Names with types round them, bound where names are bound.
//!
//! In `[a as any] = x`, `({ b: a! } = x)` and `for (a! of x);` a type stands round a name that a pattern, or the head of a loop, binds. Finishing
//! binds names without types alone; here such a name is bound too, and loses the types round it.
#![tactic(auto)]

mod binding;

pub use binding::bind_names;
