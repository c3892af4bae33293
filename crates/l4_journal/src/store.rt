//! Records of words in one list, and a second list with the place at which each record ends.
ghost use Rattle.std.specs.Prelude.{◌≡◌, ◌+◌, ◌*◌, ◌≤◌, ◌<◌, ◌++◌, ◌∷◌, ◌^◌, [], length, slice_get, slice_index_or, vec_len, vec_capacity, IfOk, OnOk};
ghost use Rattle.l4_journal.specs.Inside.Stored.{AreEnds, RecordList, record_list, start_at};

use crate::words::{RECORD_WORDS, Words};
use std::alloc::{AllocError, Global};
use std::marker::Model;

/// The maximum number of words of all records: the place where a record ends is stored in a word.
const MOST_WORDS: usize = 0xffff_ffff;

/// The maximum number of records for which room is allocated.
const MOST_ASKED: usize = MOST_WORDS / RECORD_WORDS;

/// Returns the places, among all words, at which the record with this index begins and ends.
#[inline(always)]
fn bounds(ends: &[u32], place: usize, _all: usize) -> (usize, usize)
    requires ends { AreEnds 0 ends.now _all }
    requires within { place < length ends.now }
    ensures start { result.0 ≡ start_at 0 ends.now place }
    ensures end { result.1 ≡ slice_index_or ends.now place 0 }
    ensures inside { (result.0 ≤ result.1) × (result.1 ≤ _all) }
{
    let end = ends[place] as usize;
    if place == 0 {
        return (0, end);
    }
    (ends[place - 1] as usize, end)
}

/// Appends words. There must be room for them. If their number is a constant, each of them is one store.
#[inline(always)]
fn put_few(out: &mut Vec<u32>, words: &[u32])
    requires { vec_len out.old + length words.now ≤ vec_capacity out.old }
    ensures items { out.new.items ≡ out.old.items ++ words.now }
    ensures len { vec_len out.new ≡ vec_len out.old + length words.now }
    ensures capacity { vec_capacity out.new ≡ vec_capacity out.old }
{
    for word in words {
        out.push_reserved(*word);
    }
}

/// Appends a few words and the words after them. There must be room for all of them.
#[inline(always)]
fn put_parts(out: &mut Vec<u32>, head: &[u32], tail: &[u32])
    requires { vec_len out.old + (length head.now + length tail.now) ≤ vec_capacity out.old }
    ensures items { out.new.items ≡ out.old.items ++ (head.now ++ tail.now) }
    ensures len { vec_len out.new ≡ vec_len out.old + (length head.now + length tail.now) }
    ensures capacity { vec_capacity out.old ≤ vec_capacity out.new }
{
    put_few(out, head);
    let _ = out.extend_from_slice(tail);
}

/// Records, each a list of at most `RECORD_WORDS` words. Contracts see the records, and the number of records for which there is room.
#[derive(Drop)]
pub(crate) struct Store {
    words: Vec<u32>,
    ends: Vec<u32>,
    room: usize,
}

impl Model for Store {
    ghost use Rattle.std.specs.Prelude.{vec_capacity};
    ghost use Rattle.l4_journal.specs.Inside.Stored.{IsStore, RecordList, cut, record_list};

    ghost Value = { RecordList };

    ghost view = { λ s. record_list (cut 0 s.ends.items s.words.items) s.room };

    ghost invariant = { λ s. IsStore s.ends.items s.words.items (vec_capacity s.ends) (vec_capacity s.words) s.room };
}

impl Store {
    /// Creates a store without records.
    pub fn new(alloc: Global) -> Store
        ensures { result ≡ record_list [] 0 }
    {
        Store {
            words: Vec::new(alloc),
            ends: Vec::new(alloc),
            room: 0,
        }
    }

    /// Returns a copy of the records in memory of its own, without room for more.
    pub fn copy(&self, alloc: Global) -> Result<Store, AllocError>
        ensures { IfOk result (λ copy. copy.records ≡ self.now.records) }
    {
        let words = Vec::from_slice(alloc, self.words.as_slice())?;
        let ends = Vec::from_slice(alloc, self.ends.as_slice())?;
        let room = ends.len();
        Ok(Store { words, ends, room })
    }

    /// Returns the number of records.
    pub fn len(&self) -> usize
        ensures { result ≡ length self.now.records }
    {
        self.ends.len()
    }

    /// Returns the record at this place, or None beyond the end.
    pub fn get(&self, place: usize) -> Option<Words<'_>>
        ensures { result ≡ slice_get self.now.records place }
    {
        let ends = self.ends.as_slice();
        if place >= ends.len() {
            return None;
        }
        let words = self.words.as_slice();
        let (start, end) = bounds(ends, place, words.len());
        Some(Words::of(&words[start..end]))
    }

    /// Allocates room for this many more records. After an error, the records and the room are unchanged.
    #[inline(always)]
    pub fn reserve(&mut self, more: usize) -> Result<(), AllocError>
        ensures records { self.new.records ≡ self.old.records }
        ensures ok { OnOk result (length self.new.records + more ≤ self.new.room) }
        ensures room { (self.old.room ≤ self.new.room) × (self.new.room < 2 ^ 63) }
    {
        if more > MOST_ASKED || self.words.len() > MOST_WORDS - RECORD_WORDS * more {
            return Err(AllocError);
        }
        self.words.reserve(RECORD_WORDS * more)?;
        self.ends.reserve(more)?;
        self.room = self.room.max(self.ends.len() + more);
        Ok(())
    }

    /// Appends the record whose words are `head` followed by `tail`. There must be room for it.
    #[inline(always)]
    pub fn push(&mut self, head: &[u32], tail: &[u32])
        requires room { length self.old.records < self.old.room }
        requires few { length head.now + length tail.now ≤ RECORD_WORDS }
        ensures records { self.new.records ≡ self.old.records ++ (head.now ++ tail.now) ∷ [] }
        ensures room { self.new.room ≡ self.old.room }
    {
        put_parts(&mut self.words, head, tail);
        self.ends.push_reserved(self.words.len() as u32);
    }

    /// Removes all records. The room for further records stays.
    pub fn clear(&mut self)
        ensures records { self.new.records ≡ [] }
        ensures room { self.old.room ≡ self.new.room + length self.old.records }
    {
        self.room -= self.ends.len();
        self.words.clear();
        self.ends.clear();
    }
}
