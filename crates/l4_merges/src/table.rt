//! A table that leads from the digest of a key to the places of the keys with this digest.
ghost use Rattle.std.specs.Prelude.{◌≡◌, ◌+◌, ◌%◌, ◌<◌, ◌++◌, ◌∷◌, [], get_or, length, replicate, true, IfOk};
ghost use Rattle.l4_merges.specs.Inside.Tables.{mixed, digest_of, slot_at, last_in, AreLinked, CanLink, IsTable};

use std::alloc::{AllocError, Global};

/// The number of slots of a table with a first key.
const FIRST: usize = 1_024;

/// A table of digests, one for each key. Its number of slots doubles when it has as many digests as slots. A slot has the last place of a digest
/// in it, plus 1, and `earlier` has the place before each place in the same slot, plus 1.
#[derive(Drop)]
pub(crate) struct Table {
    alloc: Global,
    slots: Vec<usize>,
    digests: Vec<u64>,
    earlier: Vec<usize>,
}

/// Returns the digest with one more word.
fn mixed(digest: u64, word: u32) -> u64
    ensures { result ≡ mixed digest word }
{
    (digest ^ u64::from(word))
        .wrapping_mul(0x9e37_79b9_7f4a_7c15)
        .rotate_left(29)
}

/// Returns the digest of a key.
pub(crate) fn digest_of(key: &[u32]) -> u64
    ensures { result ≡ digest_of key.now }
{
    let mut digest = 0u64;
    for word in key {
        digest = mixed(digest, *word);
    }
    digest
}

/// Returns the slot of a digest among this many.
fn slot_of(count: usize, digest: u64) -> usize
    requires { 0 < count }
    ensures is { result ≡ digest % count }
    ensures low { result < count }
{
    (digest % count as u64) as usize
}

/// Returns slots that lead nowhere.
fn no_places(alloc: Global, count: usize) -> Result<Vec<usize>, AllocError>
    ensures { IfOk result (λ places. places.items ≡ replicate count 0) }
{
    vec![in alloc; 0usize; count]
}

/// Puts the digest at a place into its slot.
fn link(slots: &mut [usize], earlier: &mut [usize], digests: &[u64], place: usize)
    requires { CanLink slots.old digests.now earlier.old place }
    ensures linked { AreLinked slots.new digests.now earlier.new (place + 1) }
    ensures slots { length slots.new ≡ length slots.old }
    ensures earlier { length earlier.new ≡ length earlier.old }
{
    let slot = slot_of(slots.len(), digests[place]);
    earlier[place] = slots[slot];
    slots[slot] = place + 1;
}

/// Puts all digests into their slots.
fn link_all(slots: &mut [usize], earlier: &mut [usize], digests: &[u64])
    requires some { 0 < length slots.old }
    requires long { length earlier.old ≡ length digests.now }
    requires none { slots.old ≡ replicate (length slots.old) 0 }
    ensures linked { AreLinked slots.new digests.now earlier.new (length digests.now) }
    ensures slots { length slots.new ≡ length slots.old }
    ensures earlier { length earlier.new ≡ length earlier.old }
{
    for place in 0..digests.len() {
        link(slots, earlier, digests, place);
    }
}

impl Table {
    /// Returns a table without digests.
    pub(crate) fn new(alloc: Global) -> Table
        ensures table { IsTable result }
        ensures digests { result.digests.items ≡ [] }
    {
        Table {
            alloc,
            slots: Vec::new(alloc),
            digests: Vec::new(alloc),
            earlier: Vec::new(alloc),
        }
    }

    /// Returns the last place with the slot of this digest, plus 1, or 0 if there is none.
    pub(crate) fn last(&self, digest: u64) -> usize
        requires { IsTable self.now }
        ensures { result
            ≡ last_in (slot_at (length self.now.slots.items) self.now.digests.items) (digest % length self.now.slots.items) (length self.now.digests.items) }
    {
        if self.slots.is_empty() {
            return 0;
        }
        self.slots[slot_of(self.slots.len(), digest)]
    }

    /// Returns the place before this one with the same slot, plus 1, or 0 if there is none.
    pub(crate) fn before(&self, place: usize) -> usize
        requires table { IsTable self.now }
        requires place { place < length self.now.digests.items }
        ensures { result
            ≡ last_in (slot_at (length self.now.slots.items) self.now.digests.items) (slot_at (length self.now.slots.items) self.now.digests.items place) place }
    {
        self.earlier[place]
    }

    /// Doubles the number of slots if there are as many digests. Keeps them if there is not enough memory.
    fn grow(&mut self)
        requires { IsTable self.old }
        ensures table { IsTable self.new }
        ensures digests { self.new.digests.items ≡ self.old.digests.items }
    {
        if self.digests.len() < self.slots.len() {
            return;
        }
        let count = self.slots.len().saturating_mul(2).max(FIRST);
        let Ok(mut slots) = no_places(self.alloc, count) else {
            return;
        };
        link_all(
            slots.as_mut_slice(),
            self.earlier.as_mut_slice(),
            self.digests.as_slice(),
        );
        self.slots = slots;
    }

    /// Adds the digest of the next place. Returns false if there is not enough memory.
    pub(crate) fn add(&mut self, digest: u64) -> bool
        requires { IsTable self.old }
        ensures table { result ≡ true → IsTable self.new }
        ensures digests { result ≡ true → self.new.digests.items ≡ self.old.digests.items ++ digest ∷ [] }
    {
        self.grow();
        if self.slots.is_empty() {
            return false;
        }
        if self.digests.reserve(1).is_err() || self.earlier.reserve(1).is_err() {
            return false;
        }
        let place = self.digests.len();
        self.digests.push_reserved(digest);
        self.earlier.push_reserved(0);
        link(
            self.slots.as_mut_slice(),
            self.earlier.as_mut_slice(),
            self.digests.as_slice(),
            place,
        );
        true
    }
}
