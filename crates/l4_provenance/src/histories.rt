//! Histories that can be replayed.
ghost use Rattle.std.specs.Prelude.{◌≡◌, List, length, slice_get};
ghost use Rattle.l4_record.specs.declared.entries.Entry.{Entry as AnEntry};

use l4_record::{Entry, History};

/// Entries in order, such as the history of a kernel.
pub trait Replayable {
    /// All entries.
    ghost entries: { Self → List AnEntry };

    /// Returns the number of entries.
    fn len(&self) -> usize
        ensures { result ≡ length (entries self.now) };
    /// Returns the entry with this number, from 0, or None beyond the end.
    fn get(&self, number: usize) -> Option<Entry>
        ensures { result ≡ slice_get (entries self.now) number };
}

impl Replayable for History {
    ghost entries = { λ history. history.entries };

    fn len(&self) -> usize {
        History::len(self)
    }

    fn get(&self, number: usize) -> Option<Entry> {
        History::get(self, number)
    }
}
