//! The slots, and beside them the records of walks for their keys. A slot is read together with its record.

#![tactic(auto, using(crate::proofs::Joining::joins, crate::proofs::Joining::unnoted_all))]

ghost use Rattle.std.specs.Prelude.{◌≡◌, ◌≢◌, ◌+◌, ◌<◌, ◌≤◌, ℕ, [], false, None, Some, length, slice_index_or, vec_capacity, IfOk, OnOk, OnErr};
ghost use Rattle.std.specs.Option.{option_map};
ghost use Rattle.l4_spaces.specs.Tables.{IsPage};
ghost use Rattle.l4_spaces.specs.Keys.{IsKey, no_key};
ghost use Rattle.l4_nodes.specs.Slots.{slot_at, HasRoomFor, unnoted, unnoted_slot};
ghost use Rattle.l4_nodes.specs.Inside.Packed.{no_note, slot_shown};

use crate::Place;
use crate::nodes::{Node, Slot};
use crate::packed::Packed;
use l4_spaces::{Link, NO_KEY, NoMemory};
use slab::Slab;
use std::alloc::{AllocError, Global};
use std::marker::Model;

/// The record of walks for a key.
#[derive(Clone, Copy)]
pub(crate) struct Note {
    /// The stamp of the last walk that has visited the node.
    pub stamp: u32,
    /// The key at which that walk left the run of the node's descendants, if it has visited all of it.
    pub end: Link,
}

/// The slots, each under its key.
#[derive(Drop)]
pub struct Slots {
    pub(crate) packed: Slab<Packed>,
    /// The records of walks, one for each key. Room for all keys is allocated with the slots, so that no walk needs memory. Nothing is
    /// written beyond the last key about which a walk has recorded something.
    pub(crate) notes: Vec<Note>,
}

impl Model for Slots {
    ghost use Rattle.l4_nodes.specs.Slots.{Store};

    ghost Value = { Store };

    ghost use Rattle.l4_nodes.specs.Inside.Joined.{store_shown, HaveNotes};

    ghost view = { store_shown };

    ghost invariant = { HaveNotes };
}

/// Returns the record of the key.
#[inline]
pub(crate) fn note_at(notes: &Vec<Note>, key: usize) -> Note
    ensures { result ≡ slice_index_or notes.now.items key no_note }
{
    if key < notes.len() {
        return notes[key];
    }
    Note {
        stamp: 0,
        end: Link::none(),
    }
}

/// Allocates room for the records of this many keys, which the list has no room for.
#[cold]
#[inline(never)]
fn grow(notes: &mut Vec<Note>, keys: usize) -> Result<(), AllocError>
    requires full { vec_capacity notes.old < keys }
    ensures room { OnOk result (keys ≤ vec_capacity notes.new) }
    ensures same { notes.new.items ≡ notes.old.items }
    ensures capacity { vec_capacity notes.old ≤ vec_capacity notes.new }
{
    notes.reserve(keys - notes.len())
}

/// Extends the list up to the key. A new record is an empty one.
#[cold]
#[inline(never)]
fn reach(notes: &mut Vec<Note>, key: usize)
    requires room { key < vec_capacity notes.old }
    ensures within { key < length notes.new.items }
    ensures same { (other : ℕ) → slice_index_or notes.new.items other no_note
        ≡ slice_index_or notes.old.items other no_note }
    ensures capacity { vec_capacity notes.old ≤ vec_capacity notes.new }
{
    for _ in notes.len()..key + 1 {
        let _ = notes.push(Note {
            stamp: 0,
            end: Link::none(),
        });
    }
}

/// Sets the record of the key.
#[inline]
pub(crate) fn put_note(notes: &mut Vec<Note>, key: usize, note: Note)
    requires room { key < vec_capacity notes.old }
    ensures here { slice_index_or notes.new.items key no_note ≡ note }
    ensures others { (other : ℕ) → other ≢ key → slice_index_or notes.new.items other no_note
        ≡ slice_index_or notes.old.items other no_note }
    ensures capacity { vec_capacity notes.old ≤ vec_capacity notes.new }
{
    if key >= notes.len() {
        reach(notes, key);
    }
    notes[key] = note;
}

/// Empties the record of the key.
#[inline]
pub(crate) fn clear_note(notes: &mut Vec<Note>, key: usize)
    ensures here { slice_index_or notes.new.items key no_note ≡ no_note }
    ensures others { (other : ℕ) → other ≢ key → slice_index_or notes.new.items other no_note
        ≡ slice_index_or notes.old.items other no_note }
    ensures capacity { vec_capacity notes.new ≡ vec_capacity notes.old }
{
    if key < notes.len() {
        notes[key] = Note {
            stamp: 0,
            end: Link::none(),
        };
    }
}

impl Slots {
    /// Creates a value without slots.
    pub fn new(alloc: Global) -> Slots
        ensures { result.slots ≡ [] }
    {
        Slots {
            packed: Slab::new(alloc),
            notes: Vec::new(alloc),
        }
    }

    /// Returns a number that is above all keys.
    pub fn capacity(&self) -> usize
        ensures above { length self.now.slots ≤ result }
        ensures room { result ≡ self.now.capacity }
    {
        self.packed.capacity()
    }

    /// Returns the content of the slot under the key, or None if there is no slot.
    #[inline]
    pub fn get(&self, key: usize) -> Option<Slot>
        ensures { result ≡ slot_at self.now.slots key }
    {
        let Some(slot) = self.packed.get(key) else {
            return None;
        };
        Some(slot.slot(note_at(&self.notes, key)))
    }

    /// Allocates room for this many more slots, and for the records of walks beside them, at once. Then as many insertions find room, each
    /// with a key that a node can keep.
    ///
    /// Returns `NoMemory` if an allocation fails, or if there would be room for 2^32 - 1 slots, of which not every key can be kept. Then no
    /// slot has changed.
    #[inline]
    pub fn make_room(&mut self, slots: usize) -> Result<(), NoMemory>
        ensures room { OnOk result (HasRoomFor self.new slots) }
        ensures key { self.new.vacant_key ≡ self.old.vacant_key }
        ensures same { self.new.slots ≡ self.old.slots }
    {
        self.packed.reserve(slots)?;
        let keys = self.packed.capacity();
        if keys >= NO_KEY as usize {
            return Err(NoMemory);
        }
        if keys > self.notes.capacity() {
            grow(&mut self.notes, keys)?;
        }
        Ok(())
    }

    /// Allocates room for one more slot, as `make_room` does, and returns the key that it will have.
    #[inline]
    pub fn make_key(&mut self) -> Result<usize, NoMemory>
        ensures room { OnOk result (HasRoomFor self.new 1) }
        ensures key { IfOk result (λ key. (key ≡ self.new.vacant_key) × IsKey key) }
        ensures same { self.new.slots ≡ self.old.slots }
    {
        self.make_room(1)?;
        let key = self.packed.vacant_key();
        if key >= NO_KEY as usize {
            return Err(NoMemory);
        }
        Ok(key)
    }

    /// Puts this into a new slot whose key has no record, and returns its key. There must be room for it.
    #[inline]
    fn insert_reserved(&mut self, slot: Packed) -> usize
        requires room { HasRoomFor self.old 1 }
        ensures room { (more : ℕ) → HasRoomFor self.old (more + 1) → HasRoomFor self.new more }
        ensures key { result ≡ self.old.vacant_key }
        ensures few { IsKey result }
        ensures was_vacant { slot_at self.old.slots result ≡ None }
        ensures here { slot_at self.new.slots result ≡ Some (slot_shown slot no_note) }
        ensures others { (other : ℕ) → other ≢ result → slot_at self.new.slots other
            ≡ slot_at self.old.slots other }
    {
        let key = self.packed.insert_reserved(slot);
        clear_note(&mut self.notes, key);
        key
    }

    /// Puts a blank of the page into a new slot, and returns its key. There must be room for it.
    #[inline]
    pub fn insert_blank(&mut self, place: Place) -> usize
        requires room { HasRoomFor self.old 1 }
        requires fits { IsPage place.page }
        ensures room { (more : ℕ) → HasRoomFor self.old (more + 1) → HasRoomFor self.new more }
        ensures key { result ≡ self.old.vacant_key }
        ensures few { IsKey result }
        ensures was_vacant { slot_at self.old.slots result ≡ None }
        ensures here { slot_at self.new.slots result
            ≡ Some (record { place = place; wanted = false; node = None }) }
        ensures others { (other : ℕ) → other ≢ result → slot_at self.new.slots other
            ≡ slot_at self.old.slots other }
    {
        self.insert_reserved(Packed::blank(place))
    }

    /// Puts the page with this node into a new slot, without any record of a walk, and returns its key. There must be room for it.
    #[inline(always)]
    pub fn insert_node(&mut self, place: Place, node: Node) -> usize
        requires room { HasRoomFor self.old 1 }
        requires fits { IsPage place.page }
        requires depth { IsKey node.depth }
        ensures room { (more : ℕ) → HasRoomFor self.old (more + 1) → HasRoomFor self.new more }
        ensures key { result ≡ self.old.vacant_key }
        ensures few { IsKey result }
        ensures was_vacant { slot_at self.old.slots result ≡ None }
        ensures here { slot_at self.new.slots result
            ≡ Some (record { place = place; wanted = false; node = Some (unnoted node) }) }
        ensures others { (other : ℕ) → other ≢ result → slot_at self.new.slots other
            ≡ slot_at self.old.slots other }
    {
        self.insert_reserved(Packed::of(place, node))
    }

    /// Removes the slot under the key. Changes nothing if there is no slot.
    #[inline]
    pub fn remove(&mut self, key: usize)
        ensures gone { slot_at self.new.slots key ≡ None }
        ensures others { (other : ℕ) → other ≢ key → slot_at self.new.slots other
            ≡ slot_at self.old.slots other }
    {
        let _ = self.packed.try_remove(key);
    }

    /// Removes the records of walks from all keys.
    #[cold]
    pub fn clear_notes(&mut self)
        ensures { (key : ℕ) → slot_at self.new.slots key
            ≡ option_map unnoted_slot (slot_at self.old.slots key) }
    {
        self.notes.clear();
    }

    /// Returns the same slots under the same keys, with the same records of walks. The copy has room for a record of each key.
    ///
    /// Returns `AllocError` if an allocation fails.
    pub fn copy(&self) -> Result<Slots, AllocError>
        ensures { IfOk result (λ copy. copy.slots ≡ self.now.slots) }
    {
        let packed = self.packed.clone()?;
        let mut notes = Vec::with_capacity(*self.notes.allocator(), packed.capacity())?;
        notes.extend_from_slice(self.notes.as_slice())?;
        Ok(Slots { packed, notes })
    }
}
