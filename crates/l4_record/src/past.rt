//! The entries that were handed out, as a list that only contracts see.
ghost use Rattle.std.specs.Prelude.{◌≡◌, List, [], ◌++◌};
ghost use Rattle.std.specs.Borrow.{ftrue};
ghost use Rattle.std.specs.Coded.{coded_list};
ghost use Rattle.l4_record.specs.declared.entries.Entry.{Entry as AnEntry};
ghost use Rattle.l4_record.specs.contracts.entries.Entry as entry;

use crate::history::History;
use std::marker::Model;

/// The entries that were handed out. It takes no memory, and compiles to nothing: the list exists in contracts only.
#[derive(Drop)]
pub(crate) struct Past {
    pub ghost entries: { List AnEntry } by { coded_list entry.the_row.coded },
}

impl Model for Past {
    ghost also_owns = { λ _. ftrue };
}

// It owns nothing.
unsafe impl Send for Past {}

unsafe impl Sync for Past {}

impl Past {
    /// Returns the empty list.
    pub fn new() -> Past
        ensures { result.entries ≡ [] }
    {
        Past {}
    }

    /// Returns the same list.
    pub fn copy(&self) -> Past
        ensures { result.entries ≡ self.now.entries }
    {
        Past {}
    }

    /// Returns the list with the entries of this history at its end.
    pub fn with(_earlier: &Past, _history: &History) -> Past
        ensures { result.entries ≡ _earlier.now.entries ++ _history.now.entries }
    {
        Past {}
    }
}
