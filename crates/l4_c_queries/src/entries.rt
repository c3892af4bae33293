//! Entries and receipts, of a locked kernel and of a segment.
ghost use Rattle.std.specs.Prelude.{◌≡◌, ◌+◌, ◌*◌, ◌≤◌, ◌<◌, ◌^◌, drop, length};
ghost use Rattle.l4_lock.specs.Books.{book_at};
ghost use Rattle.l4_seated_lock.specs.Seated.{seat_at};
ghost use Rattle.l4_c_values.specs.Recorded.{entry_result, kept_entry_result, kept_receipt_result, refused_call};
ghost use Rattle.l4_record.specs.Sizes.{max_entries};
ghost use Rattle.l4_c_queries.specs.Placed.{placed_behind};
ghost use Rattle.l4_c_queries.specs.Recalled.{entry_in, ListsEnded};
ghost use Rattle.l4_c_queries.specs.Inside.Recalled.{WritesEnded};

use crate::descending::{CountResult, counted};
use l4_c_values::{
    EntryResult, HANDED_OUT, NO_SUCH_SEAT, ReceiptResult, SeatedResult, entry_told, lock_detail,
    lock_number, no_entry, no_receipt, receipt_told, unseated,
};
use l4_lock::LockRefusal;
use l4_record::{Entry, History, Segment};
use l4_seated_lock::SeatedLock;

/// Returns the result for an entry, or the one without an entry.
fn told(entry: Option<Entry>) -> EntryResult
    ensures { result ≡ entry_result entry }
{
    match entry {
        Some(entry) => entry_told(&entry),
        None => no_entry(0),
    }
}

/// Returns the entry with this number since boot.
pub fn entry_of(lock: &SeatedLock, number: usize) -> EntryResult
    ensures { result ≡ kept_entry_result lock.now.kept_from lock.now.history number }
{
    let first = lock.kept_from();
    if number < first {
        return no_entry(HANDED_OUT);
    }
    told(lock.history().get(number - first))
}

/// Writes these numbers to the array, behind its first elements and up to its length.
fn write_numbers(numbers: &[u32], behind: usize, out: &mut [u32])
    requires { behind + length numbers.now < 2 ^ 64 }
    ensures { out.new ≡ placed_behind behind numbers.now out.old }
{
    for at in 0..numbers.len() {
        let place = behind + at;
        if place >= out.len() {
            return;
        }
        out[place] = numbers[at];
    }
}

/// Writes the numbers of the threads whose calls ended in the kept entries from this place on to the array, up to its length. Returns how
/// many there are.
fn write_ended(history: &History, place: usize, out: &mut [u32]) -> usize
    requires { length history.now.entries ≤ max_entries }
    ensures { WritesEnded (drop place history.now.entries) out.old result out.new }
{
    let mut count = 0usize;
    for entry in history.entries_from(place) {
        let ended = entry.answer.ended.as_slice();
        write_numbers(ended, count, out);
        count += ended.len();
    }
    count
}

/// Writes the numbers of the threads whose calls ended in the entries from this number on to the array, up to its length, and returns how
/// many there are. Returns L8 if the entry with this number was handed out, and then writes nothing.
pub fn ended_from(lock: &SeatedLock, number: usize, out: &mut [u32]) -> CountResult
    ensures { ListsEnded lock.now.kept_from lock.now.history number out.old result out.new }
{
    let kept_from = lock.kept_from();
    if number < kept_from {
        return counted(HANDED_OUT, 0);
    }
    lock.law_kept();
    let count = write_ended(lock.history(), number - kept_from, out);
    counted(0, count as u64)
}

/// Returns the result for a call that the lock refused: X2 if no seat has this number, and otherwise the lock's reason.
pub fn refused_call(lock: &SeatedLock, number: u32, refusal: LockRefusal) -> SeatedResult
    ensures { result ≡ refused_call (book_at lock.now.books number) number refusal }
{
    let Some(_seat) = lock.seat(number) else {
        return unseated(NO_SUCH_SEAT, number);
    };
    unseated(lock_number(refusal), lock_detail(refusal))
}

/// Returns the receipt of a seat with this number.
pub fn receipt_of(lock: &SeatedLock, number: u32, place: usize) -> ReceiptResult
    ensures { result ≡ kept_receipt_result (seat_at lock.now.books number) place }
{
    let Some(seat) = lock.seat(number) else {
        return no_receipt(0);
    };
    let receipts = seat.receipts();
    if place < receipts.kept_from() {
        return no_receipt(HANDED_OUT);
    }
    match receipts.get(place) {
        Some(receipt) => receipt_told(&receipt),
        None => no_receipt(0),
    }
}

/// Returns the segment's entry with this number since boot.
pub fn segment_entry(segment: &Segment, number: usize) -> EntryResult
    ensures { result ≡ entry_in segment.now number }
{
    if number < segment.first {
        return no_entry(0);
    }
    told(segment.history.get(number - segment.first))
}
