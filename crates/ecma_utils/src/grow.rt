//! Calls of a closure; the stack grows by itself.

/// Calls the closure. The two sizes are those of a stack, which needs none here: depth is bounded before.
pub fn maybe_grow<R, F: FnOnce() -> R>(_red_zone: usize, _stack_size: usize, callback: F) -> R
    requires { F.pre callback }
    ensures { F.post callback result }
{
    callback()
}

/// Calls the closure.
pub fn maybe_grow_default<R, F: FnOnce() -> R>(callback: F) -> R
    requires { F.pre callback }
    ensures { F.post callback result }
{
    callback()
}
