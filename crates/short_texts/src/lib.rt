//! Whether two short texts are the same, such as words and names.
#![tactic(auto)]

ghost use Rattle.std.specs.Prelude.{◌≡◌, bytes_eq};

#[cfg(test)]
mod tests;

/// Whether two texts are the same, byte for byte.
pub fn is_same(text: &str, other: &str) -> bool
    ensures { result ≡ bytes_eq text.now other.now }
{
    let bytes = text.as_bytes();
    let others = other.as_bytes();
    if bytes.len() != others.len() {
        return false;
    }
    let mut i = 0usize;
    while i < bytes.len() {
        if bytes[i] != others[i] {
            return false;
        }
        i += 1;
    }
    true
}
