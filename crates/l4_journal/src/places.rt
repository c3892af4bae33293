//! Places in a history as words.
ghost use Rattle.std.specs.Prelude.{◌≡◌, ◌+◌, ◌≤◌, ◌++◌, length};
ghost use Rattle.l4_journal.specs.Codes.{place_code};
ghost use Rattle.l4_journal.specs.Reading.{place_at};

use crate::words::{RECORD_WORDS, Record, Words, read_word};

/// The number of words of a place.
pub const PLACE_WORDS: usize = 2;

/// The value of one in the upper word of a place.
const UPPER: usize = 0x1_0000_0000;

/// Appends a place as its lower and its upper word.
pub fn put_place(out: &mut Record, place: usize)
    requires { length out.old.items + PLACE_WORDS ≤ RECORD_WORDS }
    ensures { out.new.items ≡ out.old.items ++ place_code place }
{
    out.push((place % UPPER) as u32);
    out.push((place / UPPER) as u32);
}

/// Reads a place. Returns it with the words after it, or None if there are fewer than two words.
pub fn read_place(words: Words<'_>) -> Option<(usize, Words<'_>)>
    ensures { result ≡ place_at words.entry }
{
    let (lower, rest) = read_word(words)?;
    let (upper, rest) = read_word(rest)?;
    Some((lower as usize + UPPER * upper as usize, rest))
}
