//! The receipts of a seat as a list.
ghost use Rattle.std.specs.Prelude.{◌≡◌, ◌≢◌, ◌+◌, ◌<◌, ◌≤◌, ◌++◌, ◌∷◌, ◌^◌, [], max, nat_eq, length, slice_get, true, false, OnOk};
ghost use Rattle.l4_record.specs.Sizes.{max_handed_out};
ghost use Rattle.l4_lock.specs.Books.{receipt};
ghost use Rattle.l4_lock.specs.Closing.{AreSameFrom};
ghost use Rattle.l4_lock.specs.Lists.{ReceiptList, receipt_list, kept_receipt, kept_receipts, kept_receipt_count};

use crate::entries::{Ended, Receipt, write_receipt};
use crate::past::Past;
use l4_ipc::{Call, Reply};
use l4_journal::{ItemsFrom, Journal, Record};
use std::alloc::{AllocError, Global};
use std::marker::Model;

/// An iterator over receipts of a seat. Contracts see the receipts that are left.
pub type ReceiptsFrom<'a> = ItemsFrom<'a, Receipt>;

/// The receipts of a seat, in the order in which it got them, numbered from 0. They are stored as words. Those that were forgotten are not
/// stored, and the others keep their numbers.
#[derive(Drop)]
pub struct Receipts {
    past: Past,
    kept_from: usize,
    receipts: Journal<Receipt>,
}

impl Model for Receipts {
    ghost use Rattle.std.specs.Prelude.{◌≡◌, ◌<◌, ◌≤◌, ◌++◌, ◌^◌, length};
    ghost use Rattle.l4_record.specs.Sizes.{max_handed_out};
    ghost use Rattle.l4_lock.specs.Lists.{ReceiptList, receipt_list};

    ghost Value = { ReceiptList };

    ghost view = { λ r. receipt_list (r.past.receipts ++ r.receipts.items) r.kept_from r.receipts.room };

    ghost invariant = { λ r. (length r.past.receipts ≡ r.kept_from) × (r.kept_from ≤ max_handed_out)
        × (length r.receipts.items ≤ r.receipts.room) × (r.receipts.room < 2 ^ 63) };
}

impl Receipts {
    /// Returns an empty list.
    pub(crate) fn new(alloc: Global) -> Receipts
        ensures { (result.items ≡ []) × (result.kept_from ≡ 0) × (result.room < 2 ^ 63) }
    {
        Receipts {
            past: Past::new(),
            kept_from: 0,
            receipts: Journal::new(alloc),
        }
    }

    /// Returns the number of receipts that the seat got. Receipts that were forgotten are counted.
    pub fn len(&self) -> usize
        ensures len { result ≡ length self.now.items }
        ensures bound { result ≤ max_handed_out + kept_receipt_count self.now }
    {
        self.kept_from + self.receipts.len()
    }

    /// Returns whether the seat got no receipt.
    pub fn is_empty(&self) -> bool
        ensures { result ≡ nat_eq (length self.now.items) 0 }
    {
        self.len() == 0
    }

    /// Returns the number of the first receipt that is kept. All receipts with lower numbers were forgotten.
    pub fn kept_from(&self) -> usize
        ensures { result ≡ self.now.kept_from }
    {
        self.kept_from
    }

    /// Returns the receipt with this number, from 0. Returns None if it was forgotten, and beyond the end.
    pub fn get(&self, number: usize) -> Option<Receipt>
        ensures { result ≡ kept_receipt self.now number }
    {
        if number < self.kept_from {
            return None;
        }
        self.receipts.get(number - self.kept_from)
    }

    /// Returns an iterator over the receipts that are kept, from this number on.
    pub fn receipts_from(&self, number: usize) -> ReceiptsFrom<'_>
        ensures receipts { result ≡ kept_receipts self.now number }
        ensures bound { length result < 2 ^ 64 }
    {
        self.receipts
            .items_from(number.saturating_sub(self.kept_from))
    }

    /// Makes room for more receipts.
    pub(crate) fn reserve(&mut self, more: usize) -> Result<(), AllocError>
        ensures items { (self.new.items ≡ self.old.items)
            × (self.new.kept_from ≡ self.old.kept_from) }
        ensures room { (self.old.room ≤ self.new.room) × (self.new.room < 2 ^ 63) }
        ensures ok { OnOk result (kept_receipt_count self.new + more ≤ self.new.room) }
    {
        self.receipts.reserve(more)
    }

    /// Appends the receipt of a call that has ended. There must be room for it.
    pub(crate) fn push(&mut self, call: &Call, start: usize, ended: &Ended)
        requires { kept_receipt_count self.old < self.old.room }
        ensures items { self.new.items ≡ self.old.items ++ receipt call.now start ended.now ∷ [] }
        ensures kept_from { self.new.kept_from ≡ self.old.kept_from }
        ensures room { (kept_receipt_count self.new ≡ kept_receipt_count self.old + 1)
            × (self.new.room ≡ self.old.room) }
    {
        let mut record = Record::new();
        write_receipt(&mut record, call, start, ended.entry, &ended.reply);
        self.receipts.push(&[], record.as_slice());
    }

    /// Forgets the receipts that are kept. Later receipts continue their numbers. The room for more receipts stays.
    pub(crate) fn forget(&mut self)
        requires { length self.old.items ≤ max_handed_out }
        ensures items { (self.new.items ≡ self.old.items)
            × (self.new.kept_from ≡ length self.old.items) }
        ensures room { (kept_receipt_count self.new ≡ 0)
            × (self.old.room ≡ self.new.room + kept_receipt_count self.old) }
        ensures bound { self.new.room < 2 ^ 63 }
    {
        let past = Past::of(self);
        self.kept_from += self.receipts.len();
        self.receipts.clear();
        self.past = past;
    }

    /// Returns whether these are as many receipts, and the same ones, where both keep them.
    pub(crate) fn same(&self, other: &Receipts) -> bool
        ensures same { result ≡ true
            → AreSameFrom (max self.now.kept_from other.now.kept_from) self.now.items other.now.items }
        ensures other { result ≡ false
            → ¬ (AreSameFrom (max self.now.kept_from other.now.kept_from) self.now.items other.now.items) }
    {
        if self.len() != other.len() {
            return false;
        }
        let first = self.kept_from.max(other.kept_from);
        for number in first..self.len() {
            if !same_at(self, other, number) {
                return false;
            }
        }
        true
    }
}

/// Returns whether two calls are the same.
pub(crate) fn same_call(a: &Call, b: &Call) -> bool
    ensures same { result ≡ true → a.now ≡ b.now }
    ensures other { result ≡ false → a.now ≢ b.now }
{
    a == b
}

/// Returns whether two replies are the same.
fn same_reply(a: &Reply, b: &Reply) -> bool
    ensures same { result ≡ true → a.now ≡ b.now }
    ensures other { result ≡ false → a.now ≢ b.now }
{
    a == b
}

/// Returns whether two receipts are the same.
fn same_receipt(a: &Receipt, b: &Receipt) -> bool
    ensures same { result ≡ true → a.now ≡ b.now }
    ensures other { result ≡ false → a.now ≢ b.now }
{
    if a.start != b.start {
        return false;
    }
    if a.end != b.end {
        return false;
    }
    if !same_call(&a.call, &b.call) {
        return false;
    }
    if !same_reply(&a.reply, &b.reply) {
        return false;
    }
    true
}

/// Returns whether the receipts with this number, which both keep, are the same.
fn same_at(a: &Receipts, b: &Receipts, number: usize) -> bool
    requires a { (a.now.kept_from ≤ number) × (number < length a.now.items) }
    requires b { (b.now.kept_from ≤ number) × (number < length b.now.items) }
    ensures same { result ≡ true → slice_get a.now.items number ≡ slice_get b.now.items number }
    ensures other { result ≡ false → slice_get a.now.items number ≢ slice_get b.now.items number }
{
    let Some(first) = a.get(number) else {
        unreachable!()
    };
    let Some(second) = b.get(number) else {
        unreachable!()
    };
    same_receipt(&first, &second)
}
