//! The history as a list of entries.
ghost use Rattle.std.specs.Prelude.{◌≡◌, ◌+◌, ◌<◌, ◌^◌, ◌≤◌, ◌++◌, ◌∷◌, [], drop, nat_eq, length, slice_get, IfOk, OnOk, true, false};
ghost use Rattle.l4_ipc.specs.declared.calls.Call.TheVariants.{Ipc as AnIpc, Fault as AFault};
ghost use Rattle.l4_ipc.specs.NextSteps.{own_answer};
ghost use Rattle.l4_record.specs.Lists.{EntryList, entry_list};
ghost use Rattle.l4_record.specs.Following.{start_entry, next_entry, cancel_entry};
ghost use Rattle.l4_record.specs.Inside.Words.{ends_word};

use crate::entries::Entry;
use crate::words::{CANCEL, EXPIRE, NO_SEAT, TRANSFER, cause_word, write_start};
use l4_ipc::{Answer, Call, CancelCause, FaultCall, IpcCall, NextStep, Outcome};
use l4_journal::{FAULT, FromWords, IPC, ItemsFrom, Journal, Record, outcome_word};
use std::alloc::{AllocError, Global};
use std::marker::Model;

/// An iterator over entries of a history. Contracts see the entries that are left.
pub type Entries<'a> = ItemsFrom<'a, Entry>;

/// The entries of a recorded kernel, in order. They are stored as words.
#[derive(Drop)]
pub struct History {
    entries: Journal<Entry>,
    record: Record,
}

impl Model for History {
    ghost use Rattle.l4_record.specs.Lists.{EntryList, entry_list};

    ghost Value = { EntryList };

    ghost view = { λ h. entry_list h.entries.items h.entries.room };
}

/// Returns whether the start of a call ended no call.
fn ends_none(answer: &Answer) -> bool
    ensures { result ≡ true → answer.now ≡ own_answer false 0 }
{
    match answer.outcome {
        Outcome::Started => {}
        _ => return false,
    }
    match answer.ended.as_slice() {
        [] => true,
        _ => false,
    }
}

/// Returns the word that says whether the sender's call ended too.
#[inline(always)]
fn ends_word(ends: bool) -> u32
    ensures { result ≡ ends_word ends }
{
    if ends { 1 } else { 0 }
}

impl History {
    /// Creates a history without entries.
    pub fn new(alloc: Global) -> History
        ensures { result.entries ≡ [] }
    {
        History {
            entries: Journal::new(alloc),
            record: Record::new(),
        }
    }

    /// Returns a copy of the entries in memory of its own, or `AllocError` if an allocation fails.
    pub fn copy(&self, alloc: Global) -> Result<History, AllocError>
        ensures { IfOk result (λ copy. copy.entries ≡ self.now.entries) }
    {
        let Ok(entries) = self.entries.copy(alloc) else {
            return Err(AllocError);
        };
        Ok(History {
            entries,
            record: Record::new(),
        })
    }

    /// Returns the number of entries.
    pub fn len(&self) -> usize
        ensures { result ≡ length self.now.entries }
    {
        self.entries.len()
    }

    /// Returns whether there is no entry.
    pub fn is_empty(&self) -> bool
        ensures { result ≡ nat_eq (length self.now.entries) 0 }
    {
        self.entries.is_empty()
    }

    /// Returns the entry at this place, or None beyond the end.
    pub fn get(&self, place: usize) -> Option<Entry>
        ensures { result ≡ slice_get self.now.entries place }
    {
        self.entries.get(place)
    }

    /// Returns an iterator over the entries from this place on.
    pub fn entries_from(&self, place: usize) -> Entries<'_>
        ensures entries { result ≡ drop place self.now.entries }
        ensures bound { length result < 2 ^ 64 }
    {
        self.entries.items_from(place)
    }

    /// Makes room for more entries.
    pub(crate) fn reserve(&mut self, more: usize) -> Result<(), AllocError>
        ensures entries { self.new.entries ≡ self.old.entries }
        ensures ok { OnOk result (length self.new.entries + more ≤ self.new.room) }
    {
        self.entries.reserve(more)
    }

    /// Appends the entry of a next step. There must be room for it.
    pub(crate) fn push_next(&mut self, seat: u32, next: NextStep)
        requires { length self.old.entries < self.old.room }
        ensures entries { self.new.entries ≡ self.old.entries ++ next_entry seat next ∷ [] }
        ensures room { (length self.new.entries ≡ length self.old.entries + 1)
            × (self.new.room ≡ self.old.room) }
    {
        match next {
            NextStep::Transfer(sender, receiver, outcome, ends) => {
                let outcome = outcome_word(outcome);
                let ends = ends_word(ends);
                let words = [TRANSFER, seat, sender, receiver, outcome, ends];
                self.entries.push(&words, &[]);
            }
            NextStep::Expire(waiter) => self.entries.push(&[EXPIRE, seat, waiter], &[]),
        }
    }

    /// Appends the entry of a Cancel, which has no seat. There must be room for it.
    pub(crate) fn push_cancel(&mut self, number: u32, cause: CancelCause)
        requires { length self.old.entries < self.old.room }
        ensures entries { self.new.entries ≡ self.old.entries ++ cancel_entry number cause ∷ [] }
        ensures room { (length self.new.entries ≡ length self.old.entries + 1)
            × (self.new.room ≡ self.old.room) }
    {
        let words = [CANCEL, NO_SEAT, number, cause_word(cause)];
        self.entries.push(&words, &[]);
    }

    /// Appends the entry of the start of a call. There must be room for it.
    pub(crate) fn push_start(&mut self, number: u32, call: &Call, answer: &Answer)
        requires { length self.old.entries < self.old.room }
        ensures entries { self.new.entries ≡ self.old.entries
            ++ start_entry number call.now answer.now ∷ [] }
        ensures room { (length self.new.entries ≡ length self.old.entries + 1)
            × (self.new.room ≡ self.old.room) }
    {
        match call {
            Call::Ipc(ipc) if ends_none(answer) => self.push_ipc(number, ipc),
            Call::Fault(fault) if ends_none(answer) => self.push_fault(number, fault),
            _ => self.push_answered(number, call, answer),
        }
    }

    /// Appends the entry of an Ipc whose start ended no call.
    #[inline(always)]
    fn push_ipc(&mut self, number: u32, call: &IpcCall)
        requires { length self.old.entries < self.old.room }
        ensures entries { self.new.entries ≡ self.old.entries
            ++ start_entry number (AnIpc call.now) (own_answer false 0) ∷ [] }
        ensures room { (length self.new.entries ≡ length self.old.entries + 1)
            × (self.new.room ≡ self.old.room) }
    {
        let words = [
            IPC,
            number,
            call.to.0,
            call.from.0,
            call.timeouts,
            call.acceptor,
        ];
        self.entries.push(&words, call.words.as_slice());
    }

    /// Appends the entry of a page fault whose start ended no call.
    #[inline(always)]
    fn push_fault(&mut self, number: u32, call: &FaultCall)
        requires { length self.old.entries < self.old.room }
        ensures entries { self.new.entries ≡ self.old.entries
            ++ start_entry number (AFault call.now) (own_answer false 0) ∷ [] }
        ensures room { (length self.new.entries ≡ length self.old.entries + 1)
            × (self.new.room ≡ self.old.room) }
    {
        let access = u32::from(call.access.bits());
        let words = [FAULT, number, call.address, call.ip, access];
        self.entries.push(&words, &[]);
    }

    /// Appends the entry of any call and answer.
    #[cold]
    #[inline(never)]
    fn push_answered(&mut self, number: u32, call: &Call, answer: &Answer)
        requires { length self.old.entries < self.old.room }
        ensures entries { self.new.entries ≡ self.old.entries
            ++ start_entry number call.now answer.now ∷ [] }
        ensures room { (length self.new.entries ≡ length self.old.entries + 1)
            × (self.new.room ≡ self.old.room) }
    {
        write_start(&mut self.record, number, call, answer);
        self.entries.push(&[], self.record.as_slice());
    }
}
