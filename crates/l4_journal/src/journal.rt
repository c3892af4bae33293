//! Journals: lists whose items are stored as words, each as a record.
ghost use Rattle.std.specs.Prelude.{◌≡◌, ◌+◌, ◌<◌, ◌≤◌, ◌++◌, ◌^◌, [], ℕ, List, Option, None, drop, length, nat_eq, slice_get, is_some, IsTrue, IfOk, MatchOption, OnOk, true, false};
ghost use Rattle.std.specs.Option.{option_to_list};
ghost use Rattle.l4_journal.specs.ItemLists.{ItemList};
ghost use Rattle.l4_journal.specs.Inside.ReadRecords.{read_all, AreRead};

use crate::store::Store;
use crate::words::{RECORD_WORDS, Words};
use std::alloc::{AllocError, Global};
use std::marker::{Model, PhantomData};

/// A type whose values are read from words.
pub trait FromWords {
    /// The item at the beginning of the words, if there is one.
    ghost item_at: { List ℕ → Option Self };

    /// Reads the item at the beginning of the words.
    fn from_words(words: Words<'_>) -> Option<Self>
        ensures { result ≡ item_at words.entry };
}

/// A list of items, each stored as the words of a record.
#[derive(Drop)]
pub struct Journal<T: FromWords> {
    store: Store,
    kind: PhantomData<T>,
}

impl<T: FromWords> Model for Journal<T> {
    ghost use Rattle.l4_journal.specs.ItemLists.{ItemList, item_list};
    ghost use Rattle.l4_journal.specs.Inside.ReadRecords.{read_all, AreRead};

    ghost Value = { ItemList T };

    ghost view = { λ l. item_list (read_all T.item_at l.store.records) l.store.room };

    ghost invariant = { λ l. AreRead T.item_at l.store.records };
}

impl<T: FromWords> Journal<T> {
    /// Creates a journal without items.
    pub fn new(alloc: Global) -> Journal<T>
        ensures { (result.items ≡ []) × (result.room < 2 ^ 63) }
    {
        Journal {
            store: Store::new(alloc),
            kind: PhantomData,
        }
    }

    /// Returns a copy of the items in memory of its own, or `AllocError` if an allocation fails.
    pub fn copy(&self, alloc: Global) -> Result<Journal<T>, AllocError>
        ensures { IfOk result (λ copy. copy.items ≡ self.now.items) }
    {
        let Ok(store) = self.store.copy(alloc) else {
            return Err(AllocError);
        };
        Ok(Journal {
            store,
            kind: PhantomData,
        })
    }

    /// Returns the number of items.
    pub fn len(&self) -> usize
        ensures { result ≡ length self.now.items }
    {
        self.store.len()
    }

    /// Returns whether there is no item.
    pub fn is_empty(&self) -> bool
        ensures { result ≡ nat_eq (length self.now.items) 0 }
    {
        self.len() == 0
    }

    /// Returns the words of the item at this place, without a copy, or None beyond the end.
    pub fn words(&self, place: usize) -> Option<Words<'_>>
        ensures { MatchOption result (slice_get self.now.items place ≡ None)
            (λ words. (slice_get self.now.items place ≡ T.item_at words)
            × IsTrue (is_some (T.item_at words))) }
    {
        self.store.get(place)
    }

    /// Returns the item at this place, or None beyond the end.
    pub fn get(&self, place: usize) -> Option<T>
        ensures { result ≡ slice_get self.now.items place }
    {
        match self.words(place) {
            Some(words) => T::from_words(words),
            None => None,
        }
    }

    /// Returns an iterator over the items from this place on.
    pub fn items_from(&self, place: usize) -> ItemsFrom<'_, T>
        ensures items { result ≡ drop place self.now.items }
        ensures bound { length result < 2 ^ 64 }
    {
        let _count = self.len();
        ItemsFrom { list: self, place }
    }

    /// Allocates room for this many more items, whatever their words.
    ///
    /// Returns `AllocError` if an allocation fails, or if the journal could then exceed 2^32 - 1 words. After an error, the items and the
    /// room are unchanged.
    pub fn reserve(&mut self, more: usize) -> Result<(), AllocError>
        ensures items { self.new.items ≡ self.old.items }
        ensures room { (self.old.room ≤ self.new.room) × (self.new.room < 2 ^ 63) }
        ensures ok { OnOk result (length self.new.items + more ≤ self.new.room) }
    {
        self.store.reserve(more)
    }

    /// Appends the item whose words are `head` followed by `tail`. There must be room for it. This costs less than putting the words
    /// together first if the length of `head` is a constant.
    #[inline(always)]
    pub fn push(&mut self, head: &[u32], tail: &[u32])
        requires room { length self.old.items < self.old.room }
        requires few { length head.now + length tail.now ≤ RECORD_WORDS }
        requires read { IsTrue (is_some (T.item_at (head.now ++ tail.now))) }
        ensures items { self.new.items ≡ self.old.items
            ++ option_to_list (T.item_at (head.now ++ tail.now)) }
        ensures room { (length self.new.items ≡ length self.old.items + 1)
            × (self.new.room ≡ self.old.room) }
    {
        self.store.push(head, tail);
    }

    /// Removes all items. The room for further items stays, and so does the memory.
    pub fn clear(&mut self)
        ensures items { self.new.items ≡ [] }
        ensures room { self.old.room ≡ self.new.room + length self.old.items }
    {
        self.store.clear();
    }
}

/// An iterator over items of a journal. Contracts see the items that are left.
#[derive(Drop)]
pub struct ItemsFrom<'a, T: FromWords> {
    list: &'a Journal<T>,
    place: usize,
}

impl<'a, T: FromWords> Model for ItemsFrom<'a, T> {
    ghost use Rattle.std.specs.Prelude.{List, drop};

    ghost Value = { List T };

    ghost view = { λ i. drop i.place i.list.now.items };
}

impl<'a, T: FromWords> Iterator for ItemsFrom<'a, T> {
    ghost use Rattle.std.specs.Iterator.{YieldsFirst, item_count};

    type Item = T;

    ghost remaining = { item_count (λ s. s) };

    ghost next_gives = { YieldsFirst (λ s. s) };

    fn next(&mut self) -> Option<T> {
        if self.place >= self.list.len() {
            return None;
        }
        let item = self.list.get(self.place);
        self.place += 1;
        item
    }
}
