//! Words that are written and read one after another.
ghost use Rattle.std.specs.Prelude.{◌≡◌, ◌+◌, ◌<◌, ◌≤◌, ◌++◌, ◌∷◌, [], length};
ghost use Rattle.l4_journal.specs.Words.{Lends, word_at, words_at};

use std::marker::Model;

/// The maximum number of words of a record: two lists of 64 words, and the numbers that go with them.
pub const RECORD_WORDS: usize = 144;

/// A buffer for the words of one value, or of several values that are stored together. Clearing it does not overwrite the words; a list of
/// the library would write zeros.
#[derive(Drop)]
pub struct Record {
    cells: [u32; RECORD_WORDS],
    len: usize,
}

impl Model for Record {
    ghost use Rattle.std.specs.Prelude.{◌≡◌, ◌≤◌, length, take};
    ghost use Rattle.l4_journal.specs.Inside.Stored.{record_words};
    ghost use Rattle.l4_journal.specs.Words.{WordList, word_list};

    ghost Value = { WordList };

    ghost view = { λ r. word_list (take r.len r.cells) };

    ghost invariant = { λ r. (r.len ≤ record_words) × (length r.cells ≡ record_words) };
}

impl Record {
    /// Creates a record without words.
    pub fn new() -> Record
        ensures { result.items ≡ [] }
    {
        Record {
            cells: [0; RECORD_WORDS],
            len: 0,
        }
    }

    /// Removes all words.
    #[inline(always)]
    pub fn clear(&mut self)
        ensures { self.new.items ≡ [] }
    {
        self.len = 0;
    }

    /// Appends a word. There must be room for it.
    #[inline(always)]
    pub fn push(&mut self, word: u32)
        requires { length self.old.items < RECORD_WORDS }
        ensures items { self.new.items ≡ self.old.items ++ word ∷ [] }
    {
        self.cells[self.len] = word;
        self.len += 1;
    }

    /// Appends words. There must be room for all of them.
    #[inline(always)]
    pub fn push_all(&mut self, words: &[u32])
        requires { length self.old.items + length words.now ≤ RECORD_WORDS }
        ensures items { self.new.items ≡ self.old.items ++ words.now }
    {
        let end = self.len + words.len();
        self.cells[self.len..end].copy_from_slice(words);
        self.len = end;
    }

    /// Returns the words.
    #[inline(always)]
    pub fn as_slice(&self) -> &[u32]
        ensures words { result.now ≡ self.now.items }
        ensures few { length result.now ≤ RECORD_WORDS }
    {
        &self.cells[..self.len]
    }
}

/// The words that are left to be read. Contracts see them as a list.
#[derive(Drop)]
pub struct Words<'a> {
    words: &'a [u32],
}

impl<'a> Model for Words<'a> {
    ghost use Rattle.std.specs.Prelude.{List, ℕ};

    ghost Value = { List ℕ };

    ghost view = { λ w. w.words.now };
}

impl<'a> Words<'a> {
    /// Returns these words, to be read from their front.
    #[inline(always)]
    pub fn of(words: &'a [u32]) -> Words<'a>
        ensures { result ≡ words.now }
    {
        Words { words }
    }

    /// Returns the words, without a copy.
    #[inline(always)]
    pub fn as_slice(&self) -> &[u32]
        ensures { result.now ≡ self.now }
    {
        self.words
    }
}

/// Returns the first word and the words after it, or None if there is no word.
#[inline(always)]
pub fn read_word(words: Words<'_>) -> Option<(u32, Words<'_>)>
    ensures { result ≡ word_at words.entry }
{
    match words.words {
        [word, rest @ ..] => Some((*word, Words { words: rest })),
        [] => None,
    }
}

/// Returns the first `count` words, without a copy, and the words after them, or None if there are fewer.
#[inline(always)]
pub fn read_words(words: Words<'_>, count: usize) -> Option<(&[u32], Words<'_>)>
    ensures { Lends result (words_at count words.entry) }
{
    if words.words.len() < count {
        return None;
    }
    let (front, rest) = words.words.split_at(count);
    Some((front, Words { words: rest }))
}
