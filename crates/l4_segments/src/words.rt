//! Words of four bytes, the lowest byte first.
ghost use Rattle.std.specs.Prelude.{◌≡◌, ◌+◌, ◌*◌, ◌≤◌, ◌++◌, ◌↔◌, take, drop, length, IsTrue};
ghost use Rattle.std.specs.Int.{w32, to_le_bytes};
ghost use Rattle.l4_segments.specs.Entries.{AreWords};
ghost use Rattle.l4_segments.specs.Files.{bytes_of};

use l4_journal::{RECORD_WORDS, Record};

/// Returns the word at a position.
pub fn word_at(bytes: &[u8], at: usize) -> u32
    requires { at + 4 ≤ length bytes.now }
    ensures { drop at bytes.now ≡ to_le_bytes w32 result ++ drop (at + 4) bytes.now }
{
    u32::from_le_bytes([bytes[at], bytes[at + 1], bytes[at + 2], bytes[at + 3]])
}

/// Overwrites the record with the words at a position.
pub fn read_words(out: &mut Record, bytes: &[u8], at: usize, count: usize)
    requires few { count ≤ RECORD_WORDS }
    requires within { at + 4 * count ≤ length bytes.now }
    ensures items { drop at bytes.now ≡ bytes_of out.new.items ++ drop (at + 4 * count) bytes.now }
    ensures count { length out.new.items ≡ count }
    ensures words { AreWords out.new.items }
{
    out.clear();
    for i in 0..count {
        let word = word_at(bytes, at + 4 * i);
        out.push(word);
    }
}

/// Returns whether words are the same.
pub(crate) fn are_same(words: &[u32], others: &[u32]) -> bool
    ensures { IsTrue result ↔ (words.now ≡ others.now) }
{
    words == others
}

/// Returns whether these bytes are at a position.
pub fn are_at(bytes: &[u8], at: usize, part: &[u8]) -> bool
    requires { at + length part.now ≤ length bytes.now }
    ensures { IsTrue result ↔ (take (length part.now) (drop at bytes.now) ≡ part.now) }
{
    &bytes[at..at + part.len()] == part
}
