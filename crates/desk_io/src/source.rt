ghost use Rattle.std.specs.Prelude.{◌≡◌, ◌<◌, ◌≤◌, ◌++◌, [], length, take, min};

use std::marker::Model;

/// A text of which a first part has been read. A clause sees what is left.
#[derive(Drop)]
pub(crate) struct Source {
    bytes: Vec<u8>,
    at: usize,
}

impl Model for Source {
    ghost use Rattle.std.specs.Prelude.{List, ℕ, drop, length, ◌≤◌};

    ghost Value = { List ℕ };

    ghost view = { λ s. drop s.at s.bytes.items };

    ghost invariant = { λ s. s.at ≤ length s.bytes.items };
}

impl Source {
    pub(crate) fn new(bytes: Vec<u8>) -> Self
        ensures { result ≡ bytes.items }
    {
        Source { bytes, at: 0 }
    }

    /// Moves the first bytes that are left into the buffer, at most so many.
    pub(crate) fn read(&mut self, buf: &mut [u8], most: usize) -> usize
        requires { 0 < most }
        ensures many { result ≡ min (min (length self.old) (length buf.new)) most }
        ensures bytes { self.old ≡ take result buf.new ++ self.new }
        ensures end { result ≡ 0 → 0 < length buf.new → self.new ≡ [] }
    {
        let count = (self.bytes.len() - self.at).min(buf.len()).min(most);
        buf[..count].copy_from_slice(&self.bytes[self.at..self.at + count]);
        self.at += count;
        count
    }
}
