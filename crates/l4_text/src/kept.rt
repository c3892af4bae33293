//! A buffer of bytes.
ghost use Rattle.std.specs.Prelude.{◌≡◌, ◌==◌, ◌+◌, ◌^◌, ◌<◌, ◌≤◌, ◌++◌, ◌∷◌, [], length};

use std::marker::Model;

/// A buffer of at most `LIMIT` bytes. Removed bytes are not overwritten until others take their place; a list of the library would write
/// blanks. The length is before the bytes, and is not a `usize`. So the compiler sees that no byte overwrites it, and keeps it in a
/// register while a text is built.
#[derive(Drop)]
pub(crate) struct KeptBytes<const LIMIT: usize> {
    len: u32,
    cells: [u8; LIMIT],
}

impl<const LIMIT: usize> Model for KeptBytes<LIMIT> {
    ghost use Rattle.std.specs.Prelude.{ℕ, List, ◌≡◌, ◌<◌, ◌≤◌, ◌^◌, length, take};

    ghost Value = { List ℕ };

    ghost view = { λ k. take k.len k.cells };

    ghost invariant = { λ k. (k.len ≤ LIMIT) × (LIMIT < 2 ^ 32) × (length k.cells ≡ LIMIT) };
}

impl<const LIMIT: usize> KeptBytes<LIMIT> {
    /// Creates an empty buffer.
    pub fn new() -> KeptBytes<LIMIT>
        requires { LIMIT < 2 ^ 32 }
        ensures { result ≡ [] }
    {
        KeptBytes {
            len: 0,
            cells: [0; LIMIT],
        }
    }

    /// Returns whether the buffer is empty.
    pub fn is_empty(&self) -> bool
        ensures { result ≡ (length self.now == 0) }
    {
        self.len == 0
    }

    /// Returns the number of bytes for which there is room.
    pub fn room(&self) -> usize
        ensures { result + length self.now ≡ LIMIT }
    {
        LIMIT - self.len as usize
    }

    /// Removes all bytes.
    pub fn clear(&mut self)
        ensures { self.new ≡ [] }
    {
        self.len = 0;
    }

    /// Appends a byte.
    pub fn push(&mut self, byte: u8)
        requires { length self.old < LIMIT }
        ensures { self.new ≡ self.old ++ byte ∷ [] }
    {
        self.cells[self.len as usize] = byte;
        self.len += 1;
    }

    /// Appends the bytes of an array. Each is written by itself, as the compiler puts the writes together, but tests a copy for an overlap.
    #[inline(always)]
    pub fn push_array<const COUNT: usize>(&mut self, bytes: [u8; COUNT])
        requires { length self.old + COUNT ≤ LIMIT }
        ensures { self.new ≡ self.old ++ bytes.entry }
    {
        let start = self.len as usize;
        for at in 0..COUNT {
            self.cells[start + at] = bytes[at];
        }
        self.len += COUNT as u32;
    }

    /// Appends bytes.
    pub fn extend(&mut self, bytes: &[u8])
        requires { length self.old + length bytes.now ≤ LIMIT }
        ensures { self.new ≡ self.old ++ bytes.now }
    {
        let start = self.len as usize;
        let end = start + bytes.len();
        let cells = &mut self.cells[..];
        cells[start..end].copy_from_slice(bytes);
        self.len = end as u32;
    }

    /// Returns the bytes.
    pub fn as_slice(&self) -> &[u8]
        ensures { result.now ≡ self.now }
    {
        &self.cells[..self.len as usize]
    }
}
