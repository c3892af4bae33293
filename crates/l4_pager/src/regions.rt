//! The regions of a pager.
ghost use Rattle.std.specs.Prelude.{◌≡◌, ◌%◌, ◌/◌, ◌⊎◌, ◌<◌, ◌++◌, ◌∷◌, [], ◌↔◌, List, MatchOption, MatchResult, IfSome, IsTrue, Some, None, true, false, position, slice_get};
ghost use Rattle.std.specs.List.{All, Any};
ghost use Rattle.l4_fpage.specs.declared.sizes.PageSize.TheVariants.{Kib1};

use arrayvec::ArrayVec;
use l4_fpage::{Block, Fpage, PageSize, Rights};
use l4_msg::{Message, PageFault, map_answer};
use std::alloc::AllocError;
use std::marker::Model;

/// The greatest number of entries in a pager's table (this profile's own).
pub const MAX_REGIONS: usize = 64;

/// A region: pages of the threads that a pager serves, the pages of the pager's own space that it maps for them, and
/// the rights that it maps (this profile's own).
#[derive(Clone, Copy, PartialEq, Eq, Debug)]
pub struct Entry {
    /// The first page, below the number of pages in a space.
    pub first: u32,
    /// The source page of the first page, below the number of pages in a space. Those of the next pages follow it.
    pub source: u32,
    /// The number of pages, at least 1.
    pub count: u32,
    /// The rights that are mapped, at least one. An access that needs other rights gets a nil answer.
    pub rights: Rights,
}

/// The reason why an entry is not added, or a page is not found.
#[derive(Clone, Copy, PartialEq, Eq, Debug)]
pub enum PagerRefusal {
    /// P1: one of its pages is in another entry. Source pages can be shared.
    Overlap,
    /// P2: no entry covers the page with this access.
    NoRegion,
    /// P3: the table has `MAX_REGIONS` entries.
    Full,
    /// P4: it has no pages, a page or source page beyond the end of a space, or no rights.
    BadRegion,
}

impl Default for Entry {
    ghost use Rattle.l4_fpage.specs.Rights.{no_rights};

    ghost is_default = { λ e. e ≡ record { first = 0; source = 0; count = 0; rights = no_rights } };

    /// Returns an entry without a page.
    fn default() -> Entry {
        Entry {
            first: 0,
            source: 0,
            count: 0,
            rights: Rights::of_bits(0),
        }
    }
}

impl Entry {
    ghost use Rattle.l4_pager.specs.Regions.{IsBad, is_for, Meet, serves};

    /// Returns whether the entry has no pages, a page or source page beyond the end of a space, or no rights.
    pub fn is_bad(&self, size: PageSize) -> bool
        ensures { IsTrue result ↔ IsBad size self.now }
    {
        let pages = u64::from(size.space_pages());
        if self.count == 0 {
            return true;
        }
        if u64::from(self.first) + u64::from(self.count) > pages {
            return true;
        }
        if u64::from(self.source) + u64::from(self.count) > pages {
            return true;
        }
        self.rights.is_empty()
    }

    /// Returns whether a page is in both entries. Both are in the largest space.
    fn meets(&self, other: &Entry) -> bool
        requires good { ¬ IsBad Kib1 self.now }
        requires other { ¬ IsBad Kib1 other.now }
        ensures { IsTrue result ↔ Meet self.now other.now }
    {
        self.first < other.first + other.count && other.first < self.first + self.count
    }

    /// Returns whether the entry contains the page, and its rights include those of the access.
    fn serves(&self, page: u32, access: Rights) -> bool
        ensures { result ≡ serves page access self.now }
    {
        page >= self.first && page - self.first < self.count && self.rights.contains(access)
    }
}

ghost use Rattle.l4_pager.specs.Regions.{IsBad, Meet};

/// Returns whether some entry of the list shares a page with this entry. None of the entries is bad.
fn meets_one(entries: &[Entry], entry: &Entry) -> bool
    requires good { All (λ e. ¬ IsBad Kib1 e) entries.now }
    requires entry { ¬ IsBad Kib1 entry.now }
    ensures some { result ≡ true → Any (Meet entry.now) entries.now }
    ensures none { result ≡ false → All (λ other. ¬ Meet entry.now other) entries.now }
{
    for other in entries {
        if entry.meets(other) {
            return true;
        }
    }
    false
}

ghost use Rattle.l4_pager.specs.Regions.{serves, entry_for, IsPlaced};

/// Returns the position of the first entry that contains the page and whose rights include those of the access.
fn place_of(entries: &[Entry], page: u32, access: Rights) -> Option<usize>
    ensures { result ≡ position (serves page access) entries.now }
{
    entries.iter().position(|entry| entry.serves(page, access))
}

/// Returns the position of the entry that contains the page and whose rights include those of the access, and the entry.
fn entry_for(entries: &[Entry], page: u32, access: Rights) -> Option<(usize, Entry)>
    ensures { IsPlaced entries.now page access result }
{
    let Some(place) = place_of(entries, page, access) else {
        return None;
    };
    Some((place, entries[place]))
}

/// Returns the entry at a position, if it contains the page and its rights include those of the access.
fn entry_at(entries: &[Entry], place: usize, page: u32, access: Rights) -> Option<Entry>
    ensures { IfSome result
        (λ entry. (slice_get entries.now place ≡ Some entry) × (serves page access entry ≡ true)) }
{
    let Some(entry) = entries.get(place) else {
        return None;
    };
    if !entry.serves(page, access) {
        return None;
    }
    Some(*entry)
}

/// A pager's table of at most `MAX_REGIONS` regions. No page is in two of them.
#[derive(Drop)]
pub struct RegionPager {
    size: PageSize,
    entries: ArrayVec<Entry, MAX_REGIONS>,
}

impl Model for RegionPager {
    ghost use Rattle.l4_pager.specs.contracts.regions.Entry as entry;
    ghost use Rattle.l4_pager.specs.Regions.{Regions, regions_code, IsTable};

    ghost Value = { Regions };

    ghost coded = { regions_code entry.the_row.coded };

    ghost view = { λ p. record { size = p.size; entries = p.entries.items } };

    ghost invariant = { λ p. IsTable (record { size = p.size; entries = p.entries.items }) };
}

impl Clone for RegionPager {
    ghost use Rattle.std.specs.Prelude.{◌≡◌};

    ghost is_clone = { λ table copy. copy ≡ table };

    fn clone(&self) -> Result<Self, AllocError> {
        Ok(self.copy())
    }
}

impl RegionPager {
    ghost use Rattle.l4_msg.specs.Messages.{CanBeWritten};
    ghost use Rattle.l4_msg.specs.Protocols.{one_item};
    ghost use Rattle.l4_msg.specs.Sizes.{base_unit};
    ghost use Rattle.l4_msg.specs.declared.items.Item.TheVariants.{Map};
    ghost use Rattle.l4_fpage.specs.Pages.{page_bytes};
    ghost use Rattle.l4_pager.specs.Regions.{no_entries, with_entry, AddFails, CanAdd, IsTable, source_of, Answers, AnswersFault};
    ghost use Rattle.l4_pager.specs.declared.regions.PagerRefusal.{PagerRefusal as ARefusal};
    ghost use Rattle.l4_pager.specs.declared.regions.PagerRefusal.TheVariants.{NoRegion};

    /// Returns the size of pages.
    pub fn page_size(&self) -> PageSize
        ensures { result ≡ self.now.size }
    {
        self.size
    }

    /// Returns the entries, in the order in which they were added.
    pub fn entries(&self) -> &[Entry]
        ensures { result.now ≡ self.now.entries }
    {
        self.entries.as_slice()
    }

    /// Returns a copy of the table.
    pub fn copy(&self) -> RegionPager
        ensures { result ≡ self.now }
    {
        let mut entries = ArrayVec::new();
        let _ = entries.try_extend_from_slice(self.entries.as_slice());
        RegionPager {
            size: self.size,
            entries,
        }
    }

    /// Returns an empty table, for pages of this size.
    pub fn new(size: PageSize) -> RegionPager
        ensures { result ≡ no_entries size }
    {
        RegionPager {
            size,
            entries: ArrayVec::new(),
        }
    }

    /// Ghost function: gives a proof the invariant that no entry is invalid, and no page is in two entries. It
    /// compiles to nothing.
    pub fn law_table(&self)
        ensures { IsTable self.now }
    {
        let _entries = &self.entries;
    }

    /// Adds an entry at the end. A refused entry changes nothing. Errors, in this order: `BadRegion` (P4), `Overlap`
    /// (P1), `Full` (P3).
    pub fn add(&mut self, entry: Entry) -> Result<(), PagerRefusal>
        ensures { MatchResult result
            (λ _. CanAdd self.old entry × (self.new ≡ with_entry self.old entry))
            (λ refusal. AddFails self.old entry refusal × (self.new ≡ self.old)) }
    {
        if entry.is_bad(self.size) {
            return Err(PagerRefusal::BadRegion);
        }
        if meets_one(self.entries.as_slice(), &entry) {
            return Err(PagerRefusal::Overlap);
        }
        if self.entries.len() >= MAX_REGIONS {
            return Err(PagerRefusal::Full);
        }
        self.entries.push(entry);
        Ok(())
    }

    /// Returns the source page of a page, from the entry that contains it, if the entry has all rights of the access;
    /// else `NoRegion` (P2). Every entry has the rights of an empty access.
    pub fn find(&self, page: u32, access: Rights) -> Result<u32, PagerRefusal>
        ensures { MatchResult result
            (λ source. MatchOption (entry_for self.now.entries page access) ⊥
            (λ e. source ≡ source_of e page))
            (λ refusal. (entry_for self.now.entries page access ≡ None) × (refusal ≡ NoRegion)) }
    {
        match entry_for(self.entries.as_slice(), page, access) {
            Some((_, entry)) => Ok(entry.source + (page - entry.first)),
            None => Err(PagerRefusal::NoRegion),
        }
    }

    /// Returns the position of the entry that contains the page and whose rights include those of the access, and the entry. Tests the
    /// entry at the guess first, and then the next one.
    fn entry_near(&self, page: u32, access: Rights, guess: usize) -> Option<(usize, Entry)>
        ensures { IsPlaced self.now.entries page access result }
    {
        let entries = self.entries.as_slice();
        if let Some(entry) = entry_at(entries, guess, page, access) {
            return Some((guess, entry));
        }
        let next = guess.wrapping_add(1);
        if let Some(entry) = entry_at(entries, next, page, access) {
            return Some((next, entry));
        }
        entry_for(entries, page, access)
    }

    /// Returns the answer to a page fault, as `answer_fault` does, and the position of the entry that it comes from.
    /// The guess affects only the time: the entry at that position is tested first, and then the next one, because
    /// faults often continue where the last one was. If no entry answers, the position is the guess.
    pub fn answer_fault_near(&self, fault: &PageFault, guess: usize) -> (u32, Fpage, usize)
        ensures answers { AnswersFault self.now fault.now (one_item (Map result.0 result.1)) }
        ensures whole { result.0 % base_unit ≡ 0 }
        ensures place { MatchOption
            (entry_for self.now.entries (fault.now.address / page_bytes self.now.size)
            fault.now.access) (result.2 ≡ guess)
            (λ entry. slice_get self.now.entries result.2 ≡ Some entry) }
    {
        self.law_table();
        let page = self.size.page_of(fault.address);
        let Some((place, entry)) = self.entry_near(page, fault.access, guess) else {
            return (0, Fpage::Nil, guess);
        };
        let source = Block {
            first: entry.source + (page - entry.first),
            log: 0,
        };
        let fpage = Fpage::of_block(source, self.size, entry.rights);
        (self.size.address_of(page), fpage, place)
    }

    /// Returns the answer to a page fault: the send base, in bytes, and the fpage of its map item. `answer` states
    /// the rule.
    pub fn answer_fault(&self, fault: &PageFault) -> (u32, Fpage)
        ensures answers { AnswersFault self.now fault.now (one_item (Map result.0 result.1)) }
        ensures whole { result.0 % base_unit ≡ 0 }
    {
        let (base, fpage, _) = self.answer_fault_near(fault, 0);
        (base, fpage)
    }

    /// Returns the answer to a message. For a page fault, it is one map item, whose send base is the fault's page,
    /// and whose fpage is the source page with the entry's rights. If `find` refuses the page, and for any other
    /// message, it is a nil map item.
    pub fn answer(&self, message: &Message) -> Message
        ensures answers { Answers self.now message.now result }
        ensures writable { CanBeWritten result }
    {
        let Some(fault) = PageFault::read(message) else {
            return map_answer(0, Fpage::Nil);
        };
        let (base, fpage) = self.answer_fault(&fault);
        map_answer(base, fpage)
    }
}
