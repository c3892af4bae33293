//! One table: a key or none for each of its pages, in four bytes each.

ghost use Rattle.std.specs.Prelude.{◌≡◌, ◌<◌, ◌≤◌, ◌+◌, ◌*◌, [], length, replicate, false, true, None, IfOk, slice_index_or, slice_set};
ghost use Rattle.l4_spaces.specs.Tables.{row_block, NoKeys};

use crate::keys::Link;
use std::alloc::{AllocError, Global};
use std::marker::Model;

/// The number of consecutive entries that form a block.
pub const BLOCK: usize = 64;

/// The number of blocks of a table.
const BLOCKS: usize = 32;

/// The keys of a table's pages. An absent table has none.
#[derive(Clone, Drop)]
pub struct Row {
    links: Vec<Link>,
    /// Of each block whether one of its places has had a key, so that walks step over the others.
    used: [bool; BLOCKS],
}

impl Model for Row {
    ghost use Rattle.std.specs.Prelude.{ℕ, List, Option};

    ghost Value = { List (Option ℕ) };

    ghost use Rattle.l4_spaces.specs.Inside.Row.{IsNoted};

    ghost view = { λ r. r.links.items };

    ghost invariant = { λ r. IsNoted r.links.items r.used };
}

impl Row {
    /// Returns a row without entries.
    pub(crate) fn absent(alloc: Global) -> Row
        ensures { result ≡ [] }
    {
        Row {
            links: Vec::new(alloc),
            used: [false; BLOCKS],
        }
    }

    /// Returns a row with an entry for each of this many pages, none with a key.
    pub(crate) fn whole(alloc: Global, pages: usize) -> Result<Row, AllocError>
        ensures { IfOk result (λ row. row ≡ replicate pages None) }
    {
        let links = vec![in alloc; Link::none(); pages]?;
        Ok(Row {
            links,
            used: [false; BLOCKS],
        })
    }

    /// Returns the number of entries.
    pub fn len(&self) -> usize
        ensures { result ≡ length self.now }
    {
        self.links.len()
    }

    /// Returns an entry.
    #[inline]
    pub fn link(&self, low: usize) -> Link
        requires within { low < length self.now }
        ensures { result ≡ slice_index_or self.now low None }
    {
        self.links[low]
    }

    /// Returns the key of an entry, if it has one.
    #[inline]
    pub fn at(&self, low: usize) -> Option<usize>
        requires within { low < length self.now }
        ensures { result ≡ slice_index_or self.now low None }
    {
        self.link(low).key()
    }

    /// Returns whether an entry of the block of this number may have a key. The answer stays true after a key was removed.
    #[inline]
    pub fn is_used(&self, block: usize) -> bool
        ensures { result ≡ false
            → NoKeys self.now (block * row_block) (block * row_block + row_block) }
    {
        self.used[block % BLOCKS]
    }

    /// Returns whether none of these entries has a key. It looks at all of them, several at a time.
    pub fn is_free(&self, from: usize, end: usize) -> bool
        requires within { end ≤ length self.now }
        ensures { result ≡ true → NoKeys self.now from end }
    {
        let mut used = false;
        for low in from..end {
            used = self.link(low).is_some() || used;
        }
        !used
    }

    /// Returns the key of the entry, or None beyond the end.
    #[inline]
    pub(crate) fn key(&self, low: usize) -> Option<usize>
        ensures { result ≡ slice_index_or self.now low None }
    {
        if low >= self.len() {
            return None;
        }
        self.at(low)
    }

    /// Sets an entry.
    #[inline]
    pub fn put(&mut self, low: usize, link: Link)
        requires within { low < length self.old }
        ensures { self.new ≡ slice_set self.old low link }
    {
        self.used[low / BLOCK % BLOCKS] = true;
        self.links[low] = link;
    }

    /// Removes the key of the entry. Does nothing beyond the end.
    #[inline]
    pub fn clear(&mut self, low: usize)
        ensures { self.new ≡ slice_set self.old low None }
    {
        if low < self.links.len() {
            self.links[low] = Link::none();
        }
    }
}
