//! A segment that was read from a file.
ghost use Rattle.std.specs.Prelude.{◌≡◌, length, slice_get};
ghost use Rattle.l4_segments.specs.Entries.{entry_at};
ghost use Rattle.l4_segments.specs.Files.{IsSegment};

use crate::entries::read_entry;
use crate::files::Heading;
use l4_journal::{FromWords, Journal, Words};
use l4_record::Entry;
use std::marker::Model;

/// An entry that is stored as the words of its file.
#[derive(Drop)]
pub(crate) struct FileEntry {
    entry: Entry,
}

impl Model for FileEntry {
    ghost use Rattle.l4_record.specs.declared.entries.Entry.{Entry as AnEntry};

    ghost Value = { AnEntry };

    ghost view = { λ e. e.entry };
}

impl FromWords for FileEntry {
    ghost item_at = { entry_at };

    fn from_words(words: Words<'_>) -> Option<FileEntry> {
        match read_entry(words) {
            Some(entry) => Some(FileEntry { entry }),
            None => None,
        }
    }
}

/// A segment that was read from a file. Contracts see its heading and its entries.
#[derive(Drop)]
pub struct SavedSegment {
    heading: Heading,
    entries: Journal<FileEntry>,
}

impl Model for SavedSegment {
    ghost use Rattle.l4_segments.specs.Saved.{Saved, saved};
    ghost use Rattle.l4_segments.specs.Files.{IsSegment};

    ghost Value = { Saved };

    ghost view = { λ s. saved s.heading s.entries.items };

    ghost invariant = { λ s. IsSegment s.heading s.entries.items };
}

impl SavedSegment {
    /// Returns a segment with this heading and these entries.
    pub(crate) fn new(heading: Heading, entries: Journal<FileEntry>) -> SavedSegment
        requires { IsSegment heading entries.items }
        ensures { (result.heading ≡ heading) × (result.entries ≡ entries.items) }
    {
        SavedSegment { heading, entries }
    }

    /// Returns the heading.
    pub fn heading(&self) -> Heading
        ensures { result ≡ self.now.heading }
    {
        self.heading
    }

    /// Returns the number of entries.
    pub fn len(&self) -> usize
        ensures { result ≡ length self.now.entries }
    {
        self.entries.len()
    }

    /// Returns the entry at this place, or None beyond the end.
    pub fn get(&self, place: usize) -> Option<Entry>
        ensures { result ≡ slice_get self.now.entries place }
    {
        match self.entries.get(place) {
            Some(stored) => {
                let FileEntry { entry } = stored;
                Some(entry)
            }
            None => None,
        }
    }

    /// Ghost function: gives a proof the invariant of the segment. It compiles to nothing.
    pub fn law_segment(&self)
        ensures { IsSegment self.now.heading self.now.entries }
    {
        let _ = &self.heading;
    }
}
