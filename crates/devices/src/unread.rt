//! Bytes that are handed out from the front, which the sources in memory share.
ghost use Rattle.std.specs.Prelude.{◌≡◌, ◌≤◌, ℕ, List, length, min, take, drop, vec_len};

use std::marker::Model;

/// Bytes that are handed out from the front. In a contract, those that are left.
#[derive(Drop)]
pub struct Unread {
    bytes: Vec<u8>,
    handed_out: usize,
}

impl Model for Unread {
    ghost Value = { List ℕ };

    ghost view = { λ unread. drop unread.handed_out unread.bytes.items };

    ghost invariant = { λ unread. unread.handed_out ≤ vec_len unread.bytes };
}

impl Unread {
    pub fn new(bytes: Vec<u8>) -> Self
        ensures { result ≡ bytes.items }
    {
        Unread {
            bytes,
            handed_out: 0,
        }
    }

    /// Copies as much as fits to the front of the buffer, and returns how many bytes.
    pub fn fill(&mut self, buffer: &mut [u8]) -> usize
        ensures count { result ≡ min (length buffer.new) (length self.old) }
        ensures given { take result buffer.new ≡ take result self.old }
        ensures rest { self.new ≡ drop result self.old }
    {
        let left = &self.bytes[self.handed_out..];
        let count = buffer.len().min(left.len());
        buffer[..count].copy_from_slice(&left[..count]);
        self.handed_out += count;
        count
    }
}
