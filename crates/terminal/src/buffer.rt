// A fixed number of bytes, of which the first are taken. Contracts see the bytes that are taken.
// No vector: the memory is fixed (no heap).
ghost use Rattle.std.specs.Prelude.{◌≡◌, ◌≤◌, ◌+◌, List, [], ◌∷◌, ◌++◌, ℕ, length, take, ltb, leb, if◌then◌else◌, IsOk};

use std::fmt;
use std::marker::Model;

#[derive(Drop)]
pub struct Buffer<const N: usize> {
    bytes: [u8; N],
    taken: usize,
}

impl<const N: usize> Model for Buffer<N> {
    ghost Value = { List ℕ };

    ghost view = { λ b. take b.taken b.bytes };

    ghost invariant = { λ b. b.taken ≤ N };
}

// That no more than there is room for is taken stands in three contracts: outside, a Buffer is its list.
impl<const N: usize> Buffer<N> {
    pub fn new() -> Self
        ensures { result ≡ [] }
    {
        Buffer {
            bytes: [0; N],
            taken: 0,
        }
    }

    pub fn as_slice(&self) -> &[u8]
        ensures value { result.now ≡ self.now }
        ensures bounded { length result.now ≤ N }
    {
        &self.bytes[..self.taken]
    }

    // Nothing is taken then.
    pub fn clear(&mut self)
        ensures { self.new ≡ [] }
    {
        self.taken = 0;
    }

    // One byte more, and whether there was room for it.
    // A plain bool, here and in `add`: there is one way to refuse, and the contract states it.
    pub fn push(&mut self, b: u8) -> bool
        ensures room { result ≡ ltb (length self.old) N }
        ensures taken { self.new ≡ (if ltb (length self.old) N then self.old ++ b ∷ [] else self.old) }
        ensures bounded { length self.new ≤ N }
    {
        let at = self.taken;
        if at < N {
            self.bytes[at] = b;
            self.taken = at + 1;
            return true;
        }
        false
    }

    // A text more, and whether there was room for all of it.
    pub fn add(&mut self, s: &[u8]) -> bool
        ensures room { result ≡ leb (length self.old + length s.now) N }
        ensures taken { self.new ≡ (if leb (length self.old + length s.now) N then self.old ++ s.now else self.old) }
        ensures bounded { length self.new ≤ N }
    {
        let at = self.taken;
        if copy::copy(s, s.len(), &mut self.bytes, at) {
            self.taken = at + s.len();
            return true;
        }
        false
    }
}

// As much of a text as there is room for.
impl<const N: usize> fmt::Write for Buffer<N> {
    ghost write_str_gives = { λ old s new. new ≡ take N (old ++ s) };

    fn write_str(&mut self, s: &str) -> fmt::Result
        ensures well { IsOk result }
        ensures ok { IsOk result → self.new ≡ take N (self.old ++ s.now) }
    {
        let bytes = s.as_bytes();
        let fitting = bytes.len().min(N - self.taken);
        self.add(&bytes[..fitting]);
        Ok(())
    }
}
