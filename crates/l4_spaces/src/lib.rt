//! Page tables: the key of each present page of each space.
#![tactic(auto)]

ghost use Rattle.std.specs.Prelude.{◌≡◌, ◌≢◌, ◌∷◌, [], ◌<◌, ◌≤◌, ◌⊎◌, ℕ, List, All, length, true, false, IsTrue, IsOk, IfOk, OnOk, OnErr, IfSome, MatchOption, Some, None, codes};
ghost use Rattle.std.specs.FinMap as map;
ghost use Rattle.std.specs.FinSet as set;
ghost use Rattle.l4_spaces.specs.Keys.{IsKey};
ghost use Rattle.l4_spaces.specs.Inside.Seen.{has, IsOnce, IsAt};

mod keys;
mod numbers;
mod row;
pub mod tables;

pub use keys::{Link, NO_KEY};
pub use row::{BLOCK, Row};
use std::alloc::{AllocError, AllocFailed, Global};
use std::marker::Model;
use std::{fmt, mem};
use tables::SPACE_PAGES;

/// An allocation failed, and nothing was changed.
#[derive(Clone, Copy, Debug, PartialEq, Eq)]
pub struct NoMemory;

impl fmt::Display for NoMemory {
    ghost output = { λ _. Some (codes "no memory") };

    fn fmt<W: fmt::Write>(&self, f: &mut fmt::Formatter<W>) -> fmt::Result {
        write!(f, "no memory")
    }
}

impl std::error::Error for NoMemory {}

impl From<AllocError> for NoMemory {
    fn from(_e: AllocError) -> NoMemory {
        NoMemory
    }
}

impl<T: Drop> From<AllocFailed<T>> for NoMemory {
    fn from(_e: AllocFailed<T>) -> NoMemory {
        NoMemory
    }
}

/// A map for each existing space, from its present pages to the keys of their nodes.
#[derive(Drop)]
pub struct Spaces {
    alloc: Global,
    spaces: Vec<(u64, Vec<Row>)>,
}

impl Model for Spaces {
    ghost use Rattle.l4_spaces.specs.Tables.{Tables, tables_code};

    ghost Value = { Tables };

    ghost coded = { tables_code };

    ghost use Rattle.l4_spaces.specs.Inside.Seen.{seen, IsKept};

    ghost view = { seen };

    ghost invariant = { IsKept };
}

/// Returns the index of the space, by a search. It is rarely needed, because a space is mostly at the index of its number.
#[cold]
#[tactic(auto, using(crate::proofs::Finding::sought))]
fn index_among(spaces: &Vec<(u64, Vec<Row>)>, space: u64) -> Option<usize>
    requires { IsOnce spaces.now.items }
    ensures at { MatchOption result (has spaces.now.items space ≡ false)
        (IsAt space spaces.now.items) }
    ensures within { IfSome result (λ at. at < length spaces.now.items) }
{
    for index in 0..spaces.len() {
        if spaces[index].0 == space {
            return Some(index);
        }
    }
    None
}

/// Returns the index of the space. As long as no space has ended, it is the space's number.
#[inline]
#[tactic(auto, using(crate::proofs::Finding::sought))]
fn index_of(spaces: &Vec<(u64, Vec<Row>)>, space: u64) -> Option<usize>
    requires { IsOnce spaces.now.items }
    ensures at { MatchOption result (has spaces.now.items space ≡ false)
        (IsAt space spaces.now.items) }
    ensures within { IfSome result (λ at. at < length spaces.now.items) }
{
    let number = space as usize;
    if number < spaces.len() && spaces[number].0 == space {
        return Some(number);
    }
    index_among(spaces, space)
}

#[tactic(auto, using(crate::proofs::Showing::reads))]
impl Spaces {
    ghost use Rattle.l4_spaces.specs.Tables.{Tables, key_of, space_tables, IsPresent, IsSpace, IsPage, HasRoom, KeepsRoom, KeepsOthersRoom, Empties, NonePresentFrom, IsNextPresent, NonePresentIn, IsNextIn, IsTableIn};
    ghost use Rattle.l4_spaces.specs.Rows.{AreWhole, AreTablesOf, AreAside};

    /// Creates a value without spaces.
    pub fn new(alloc: Global) -> Spaces
        ensures pages { result.pages ≡ map.empty }
        ensures spaces { result.spaces ≡ set.empty }
    {
        Spaces {
            alloc,
            spaces: Vec::new(alloc),
        }
    }

    /// Adds an empty space. Changes nothing if the space exists.
    ///
    /// Returns `NoMemory` if an allocation fails; then nothing has changed.
    #[tactic(auto, using(crate::proofs::Showing::added))]
    pub fn add(&mut self, space: u64) -> Result<(), NoMemory>
        ensures pages { self.new.pages ≡ self.old.pages }
        ensures spaces { OnOk result (self.new.spaces ≡ set.insert self.old.spaces space) }
        ensures has { OnOk result (IsSpace self.new space) }
        ensures room { KeepsRoom self.old self.new }
        ensures err { OnErr result (self.new ≡ self.old) }
        ensures there { IsSpace self.old space → IsOk result × (self.new ≡ self.old) }
    {
        if index_of(&self.spaces, space).is_some() {
            return Ok(());
        }
        self.spaces.push((space, Vec::new(self.alloc)))?;
        Ok(())
    }

    /// Removes a space with all its pages and tables. Changes nothing if there is no such space.
    pub fn remove(&mut self, space: u64)
        ensures pages { Empties space self.old self.new }
        ensures spaces { self.new.spaces ≡ set.remove self.old.spaces space }
        ensures room { KeepsOthersRoom space self.old self.new }
        ensures absent { ¬ (IsSpace self.old space) → self.new ≡ self.old }
    {
        if index_of(&self.spaces, space).is_some() {
            self.spaces.retain(|other| other.0 != space);
        }
    }

    /// Returns the same spaces with the same pages, in tables of their own. A change of one is not visible in the other.
    ///
    /// Returns `NoMemory` if an allocation fails.
    pub fn copy(&self) -> Result<Spaces, NoMemory>
        ensures { IfOk result (λ copy. copy ≡ self.now) }
    {
        let spaces = self.spaces.clone()?;
        Ok(Spaces {
            alloc: self.alloc,
            spaces,
        })
    }

    /// Returns whether the space exists.
    pub fn has(&self, space: u64) -> bool
        ensures { result ≡ set.contains self.now.spaces space }
    {
        index_of(&self.spaces, space).is_some()
    }

    /// Returns the key of a page, or None if the page is not present.
    pub fn get(&self, space: u64, page: u32) -> Option<usize>
        ensures value { result ≡ key_of self.now space page }

        // The space of a present page exists.
        ensures housed { IfSome result (λ _. IsSpace self.now space) }
    {
        let Some(at) = index_of(&self.spaces, space) else {
            return None;
        };
        tables::key_in(&self.spaces[at].1, page)
    }

    /// Returns the tables of the space, or None if there is no such space. A walk over many pages therefore looks the space up once.
    pub fn tables(&self, space: u64) -> Option<&Vec<Row>>
        ensures { MatchOption result
            (((page : ℕ) → key_of self.now space page ≡ None) × ¬ (IsSpace self.now space))
            (λ tables. AreTablesOf self.now space tables.now.items) }
    {
        let Some(at) = index_of(&self.spaces, space) else {
            return None;
        };
        Some(&self.spaces[at].1)
    }

    /// Takes the tables of the space out, so that many of its pages can be written with no search of the space. Until `put_tables` puts them
    /// back, the space has no pages.
    pub fn take_tables(&mut self, space: u64) -> Vec<Row>
        requires there { IsSpace self.old space }
        ensures out { AreAside space result.items self.new self.old }
        ensures room { KeepsOthersRoom space self.old self.new }
    {
        let none = Vec::new(self.alloc);
        let Some(at) = index_of(&self.spaces, space) else {
            return none;
        };
        mem::replace(&mut self.spaces[at].1, none)
    }

    /// Gives the space these tables in place of those that it has.
    pub fn put_tables(&mut self, space: u64, tables: Vec<Row>)
        requires there { IsSpace self.old space }
        requires whole { AreWhole tables.items }
        requires full { length tables.items ≤ space_tables }
        ensures back { AreAside space tables.items self.old self.new }
        ensures room { KeepsOthersRoom space self.old self.new }
    {
        let Some(at) = index_of(&self.spaces, space) else {
            return;
        };
        self.spaces[at].1 = tables;
    }

    /// Allocates room for these pages of the space, to be set later, one after another. Sets no page.
    ///
    /// Returns `NoMemory` if an allocation fails, which is possible only if that room was missing; then nothing has changed.
    pub fn prepare(&mut self, space: u64, pages: &[u32]) -> Result<(), NoMemory>
        requires there { IsSpace self.old space }
        requires fit { All IsPage pages.now }
        ensures pages { self.new.pages ≡ self.old.pages }
        ensures spaces { self.new.spaces ≡ self.old.spaces }
        ensures ok { OnOk result (HasRoom self.new space pages.now) }
        ensures room { KeepsRoom self.old self.new }
        ensures err { OnErr result (self.new ≡ self.old) }

        // If there is room, or if there are no pages, no memory is needed.
        ensures succeeds { HasRoom self.old space pages.now → IsOk result }
        ensures nothing { pages.now ≡ [] → IsOk result }
    {
        let Some(at) = index_of(&self.spaces, space) else {
            return Ok(());
        };
        let alloc = self.alloc;
        tables::make_all(&mut self.spaces[at].1, alloc, pages)?;
        Ok(())
    }

    /// Gives an absent page this key, and allocates its table if it has none. Returns whether the page was absent; changes nothing if it
    /// was present.
    ///
    /// Returns `NoMemory` only for an absent page; then nothing has changed.
    pub fn claim(&mut self, space: u64, page: u32, key: usize) -> Result<bool, NoMemory>
        requires there { IsSpace self.old space }
        requires fits { IsPage page }
        requires few { IsKey key }
        ensures spaces { self.new.spaces ≡ self.old.spaces }
        ensures claimed { IfOk result
            (λ done. done ≡ true → (key_of self.old space page ≡ None)
            × (self.new.pages ≡ map.insert self.old.pages (space, page) key)) }
        ensures present { IfOk result
            (λ done. done ≡ false → IsPresent self.old space page × (self.new ≡ self.old)) }
        ensures err { OnErr result ((key_of self.old space page ≡ None) × (self.new ≡ self.old)) }
        ensures room { KeepsRoom self.old self.new }

        // If there is room for the page, no memory is needed.
        ensures succeeds { HasRoom self.old space (page ∷ []) → IsOk result }
    {
        let Some(at) = index_of(&self.spaces, space) else {
            unreachable!()
        };
        let alloc = self.alloc;
        let absent = tables::claim(&mut self.spaces[at].1, alloc, page, Link::to(key))?;
        Ok(absent)
    }

    /// Sets the key of a page. The page must be present, or be the first of the pages for which there is room.
    pub fn set(&mut self, space: u64, page: u32, key: usize)
        requires there { IsSpace self.old space }
        requires fits { IsPage page }
        requires few { IsKey key }
        requires room { IsPresent self.old space page ⊎ (rest : List ℕ)
            × HasRoom self.old space (page ∷ rest) }
        ensures pages { self.new.pages ≡ map.insert self.old.pages (space, page) key }
        ensures spaces { self.new.spaces ≡ self.old.spaces }

        // The room for the remaining pages is kept.
        ensures rest { (rest : List ℕ) → HasRoom self.old space (page ∷ rest)
            → HasRoom self.new space rest }
        ensures room { KeepsRoom self.old self.new }
    {
        let Some(at) = index_of(&self.spaces, space) else {
            return;
        };
        tables::put(&mut self.spaces[at].1, page, Link::to(key));
    }

    /// Makes a page absent. Changes nothing if it is absent.
    pub fn clear(&mut self, space: u64, page: u32)
        ensures pages { self.new.pages ≡ map.remove self.old.pages (space, page) }
        ensures spaces { self.new.spaces ≡ self.old.spaces }
        ensures room { KeepsRoom self.old self.new }
        ensures absent { key_of self.old space page ≡ None → self.new ≡ self.old }
    {
        let Some(at) = index_of(&self.spaces, space) else {
            return;
        };
        tables::clear(&mut self.spaces[at].1, page);
    }

    /// Returns the least present page of the space that is not below `page`, or None.
    pub fn next_present(&self, space: u64, page: u32) -> Option<u32>
        ensures { MatchOption result (NonePresentFrom self.now space page)
            (IsNextPresent self.now space page) }
    {
        let Some(at) = index_of(&self.spaces, space) else {
            return None;
        };
        let Some((next, _)) = tables::next_page(&self.spaces[at].1, page, SPACE_PAGES) else {
            return None;
        };
        Some(next)
    }

    /// Returns the least present page of the space that is not below `page`, with its key, if it is below `end`. Does not look at pages
    /// from `end` on.
    #[inline]
    pub fn next_node(&self, space: u64, page: u32, end: u32) -> Option<(u32, usize)>
        ensures { MatchOption result (NonePresentIn self.now space page end)
            (λ found. IsNextIn self.now space page end found.0
            × (key_of self.now space found.0 ≡ Some found.1)) }
    {
        let Some(at) = index_of(&self.spaces, space) else {
            return None;
        };
        tables::next_page(&self.spaces[at].1, page, end)
    }

    /// Returns the first existing table with pages of the space from `page` on and before `end`, and its first page. A walk over many pages
    /// therefore looks the space and the table up once for each table.
    pub fn next_table(&self, space: u64, page: u32, end: u32) -> Option<(u32, &Row)>
        ensures { MatchOption result (NonePresentIn self.now space page end)
            (λ found. IsTableIn self.now space page end found.0 found.1.now) }
    {
        let Some(at) = index_of(&self.spaces, space) else {
            return None;
        };
        let tables = &self.spaces[at].1;
        let Some(high) = tables::next_table(tables, page, end) else {
            return None;
        };
        Some((high as u32 * tables::TABLE_PAGES, &tables[high]))
    }
}
