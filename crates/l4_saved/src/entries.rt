//! The entries of joined segments by their numbers.
ghost use Rattle.std.specs.Prelude.{◌≡◌, ◌+◌, ◌≤◌, length, slice_get};
ghost use Rattle.l4_record.specs.Sizes.{max_handed_out};

use l4_provenance::Replayable;
use l4_record::Entry;
use l4_segments::Joined;

/// The entries of joined segments, as one history. The first entry has the number 0.
#[derive(Clone, Copy)]
pub(crate) struct SavedEntries<'a> {
    pub(crate) joined: &'a Joined<'a>,
}

impl SavedEntries<'_> {
    /// Returns the number of entries.
    pub(crate) fn count(&self) -> usize
        ensures count { result ≡ length self.now.joined.now.entries }
        ensures numbers { 1 ≤ result → self.now.joined.now.first + result ≤ max_handed_out }
    {
        let segments = self.joined.segments();
        let count = segments.len();
        if count == 0 {
            return 0;
        }
        let last = &segments[count - 1];
        last.law_segment();
        last.heading().first - self.joined.first() + last.len()
    }

    /// Returns the entry with this number, or None beyond the end.
    fn entry_at(&self, number: usize) -> Option<Entry>
        ensures { result ≡ slice_get self.now.joined.now.entries number }
    {
        let segments = self.joined.segments();
        let first = self.joined.first();
        let mut low = 0;
        let mut high = segments.len();
        while low < high {
            let middle = low + (high - low) / 2;
            if segments[middle].heading().first - first <= number {
                low = middle + 1;
            } else {
                high = middle;
            }
        }
        if low == 0 {
            return None;
        }
        let segment = &segments[low - 1];
        segment.get(number - (segment.heading().first - first))
    }
}

impl Replayable for SavedEntries<'_> {
    ghost entries = { λ saved. saved.joined.now.entries };

    fn len(&self) -> usize {
        self.count()
    }

    fn get(&self, number: usize) -> Option<Entry> {
        self.entry_at(number)
    }
}
