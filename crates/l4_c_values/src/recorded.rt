//! The results of a locked kernel.
ghost use Rattle.std.specs.Prelude.{◌≡◌, ◌≤◌, [], length, None, Some};
ghost use Rattle.l4_ipc.specs.declared.calls.Call.TheVariants.{Control as Controls};
ghost use Rattle.l4_c_values.specs.Recorded.{lock_code, lock_carries, mismatch_code, mismatch_seat, unseated_result, entered_result, no_call, given_of, words_of, cause_kind, entry_with, no_entry_result, entry_result, no_receipt_result, receipt_result, no_seat_result, seat_result};

use crate::calls::CallGiven;
use crate::messages::{no_reply, reply_told};
use crate::numbers::{NO_MEMORY, kernel_detail, kernel_number, outcome_number};
use crate::results::{ReplyResult, padded};
use l4_ipc::{Call, CancelCause, Control, IpcCall, MAX_THREADS, MAX_WORDS, Step};
use l4_lock::{Entered, Entry, LockRefusal, Mismatch, Receipt, Seat};

/// A call that a seat entered, or the reason why it was refused.
#[repr(C)]
#[derive(Clone, Copy)]
pub struct SeatedResult {
    pub refusal: u32,
    pub detail: u32,
    pub reply: ReplyResult,
}

/// An entry of the history.
#[repr(C)]
#[derive(Clone, Copy)]
pub struct EntryResult {
    pub refusal: u32,
    pub seat: u32,
    pub kind: u32,
    pub thread: u32,
    pub receiver: u32,
    pub outcome: u32,
    pub ended_count: u32,
    pub word_count: u32,
    pub ended: [u32; MAX_THREADS],
    pub words: [u32; MAX_WORDS],
    pub call: CallGiven,
}

/// A receipt of a seat.
#[repr(C)]
#[derive(Clone, Copy)]
pub struct ReceiptResult {
    pub refusal: u32,
    pub there: u32,
    pub start: u64,
    pub end: u64,
    pub word_count: u32,
    pub words: [u32; MAX_WORDS],
    pub call: CallGiven,
    pub reply: ReplyResult,
}

/// The state of a seat.
#[repr(C)]
#[derive(Clone, Copy)]
pub struct SeatResult {
    pub refusal: u32,
    pub there: u32,
    pub starts: u64,
    pub receipts: u64,
    pub kept_from: u64,
}

/// Returns the number of the lock's refusal.
pub fn lock_number(refusal: LockRefusal) -> u32
    ensures { result ≡ lock_code refusal }
{
    match refusal {
        LockRefusal::HistoryFull => 0x4c31,
        LockRefusal::NoMemory => NO_MEMORY,
        LockRefusal::ReplyWaiting => 0x4c33,
        LockRefusal::SeatTaken => 0x4c34,
        LockRefusal::Kernel(refused) => kernel_number(refused),
    }
}

/// Returns the number that the lock's refusal carries, or 0.
pub fn lock_detail(refusal: LockRefusal) -> u32
    ensures { result ≡ lock_carries refusal }
{
    match refusal {
        LockRefusal::Kernel(refused) => kernel_detail(refused),
        _ => 0,
    }
}

/// Returns the number of a mismatch, and the number of its seat.
pub fn mismatch_told(mismatch: Mismatch) -> (u32, u32)
    ensures { (result.0 ≡ mismatch_code mismatch) × (result.1 ≡ mismatch_seat mismatch) }
{
    match mismatch {
        Mismatch::Missing(number) => (0x5831, number),
        Mismatch::Foreign(number) => (0x5832, number),
        Mismatch::Receipt(number) => (0x5833, number),
    }
}

/// Returns the result for a call that was not entered.
pub fn unseated(refusal: u32, detail: u32) -> SeatedResult
    ensures { result ≡ unseated_result refusal detail }
{
    SeatedResult {
        refusal,
        detail,
        reply: no_reply(0),
    }
}

/// Returns the result for a call that was entered.
pub fn entered_told(entered: &Entered) -> SeatedResult
    ensures { result ≡ entered_result entered.now }
{
    let reply = match entered {
        Entered::Done(reply) => reply_told(reply),
        Entered::Waiting => no_reply(0),
    };
    SeatedResult {
        refusal: 0,
        detail: 0,
        reply,
    }
}

/// Returns a call of this kind whose members are 0.
fn no_call(kind: u32) -> CallGiven
    ensures { result ≡ no_call kind }
{
    CallGiven {
        kind,
        to: 0,
        from: 0,
        timeouts: 0,
        acceptor: 0,
        address: 0,
        ip: 0,
        access: 0,
        control: 0,
        id: 0,
        space: 0,
        pager: 0,
        reserved: [0; 4],
    }
}

/// Returns an Ipc as C gets it.
fn ipc_given(call: &IpcCall) -> CallGiven
    ensures { result ≡ record (no_call 1) {
      to = call.now.to.0;
      «from» = call.now.«from».0;
      timeouts = call.now.timeouts;
      acceptor = call.now.acceptor;
    } }
{
    let mut given = no_call(1);
    given.to = call.to.0;
    given.from = call.from.0;
    given.timeouts = call.timeouts;
    given.acceptor = call.acceptor;
    given
}

/// Returns a thread control as C gets it.
fn control_given(control: &Control) -> CallGiven
    ensures { result ≡ given_of (Controls control.now) }
{
    match control {
        Control::Create(create) => {
            let mut given = no_call(4);
            given.id = create.id.0;
            given.space = create.space.0;
            given.pager = create.pager.0;
            given
        }
        Control::SetPager(set) => {
            let mut given = no_call(5);
            given.id = set.id.0;
            given.pager = set.pager.0;
            given
        }
        Control::Delete(id) => {
            let mut given = no_call(6);
            given.id = id.0;
            given
        }
    }
}

/// Returns a call as C gets it.
fn given(call: &Call) -> CallGiven
    ensures { result ≡ given_of call.now }
{
    match call {
        Call::Ipc(ipc) => ipc_given(ipc),
        Call::Fault(fault) => {
            let mut given = no_call(2);
            given.address = fault.address;
            given.ip = fault.ip;
            given.access = u32::from(fault.access.bits());
            given
        }
        Call::Unmap(unmap) => {
            let mut given = no_call(3);
            given.control = unmap.control;
            given
        }
        Call::Control(control) => control_given(control),
    }
}

/// Returns the words of a call.
fn words(call: &Call) -> &[u32]
    ensures { (result.now ≡ words_of call.now) × (length result.now ≤ 64) }
{
    match call {
        Call::Ipc(ipc) => ipc.words.as_slice(),
        Call::Unmap(unmap) => unmap.words.as_slice(),
        _ => &[],
    }
}

/// Returns an entry whose step has this kind, these threads, this call and these words.
fn entry_with(
    entry: &Entry,
    kind: u32,
    thread: u32,
    receiver: u32,
    call: CallGiven,
    words: &[u32],
) -> EntryResult
    requires { length words.now ≤ 64 }
    ensures { result ≡ entry_with entry.now kind thread receiver call words.now }
{
    EntryResult {
        refusal: 0,
        seat: entry.seat,
        kind,
        thread,
        receiver,
        outcome: outcome_number(entry.answer.outcome),
        ended_count: entry.answer.ended.len() as u32,
        word_count: words.len() as u32,
        ended: padded(entry.answer.ended.as_slice()),
        words: padded(words),
        call,
    }
}

/// Returns the result without an entry, for this refusal.
pub fn no_entry(refusal: u32) -> EntryResult
    ensures { result ≡ no_entry_result refusal }
{
    EntryResult {
        refusal,
        seat: 0,
        kind: 0,
        thread: 0,
        receiver: 0,
        outcome: 0,
        ended_count: 0,
        word_count: 0,
        ended: [0; MAX_THREADS],
        words: [0; MAX_WORDS],
        call: no_call(0),
    }
}

/// Returns the kind of a Cancel with this cause.
fn cause_kind(cause: CancelCause) -> u32
    ensures { result ≡ cause_kind cause }
{
    match cause {
        CancelCause::Timeout => 4,
        CancelCause::Canceled => 5,
    }
}

/// Returns the result for an entry of the history.
pub fn entry_told(entry: &Entry) -> EntryResult
    ensures { result ≡ entry_result (Some entry.now) }
{
    match &entry.step {
        Step::Start(number, call) => entry_with(entry, 3, *number, 0, given(call), words(call)),
        Step::Transfer(sender, receiver) => {
            entry_with(entry, 1, *sender, *receiver, no_call(0), &[])
        }
        Step::Expire(number) => entry_with(entry, 2, *number, 0, no_call(0), &[]),
        Step::Cancel(number, cause) => {
            entry_with(entry, cause_kind(*cause), *number, 0, no_call(0), &[])
        }
    }
}

/// Returns the result without a receipt, for this refusal.
pub fn no_receipt(refusal: u32) -> ReceiptResult
    ensures { result ≡ no_receipt_result refusal }
{
    ReceiptResult {
        refusal,
        there: 0,
        start: 0,
        end: 0,
        word_count: 0,
        words: [0; MAX_WORDS],
        call: no_call(0),
        reply: no_reply(0),
    }
}

/// Returns the result for a receipt.
pub fn receipt_told(receipt: &Receipt) -> ReceiptResult
    ensures { result ≡ receipt_result (Some receipt.now) }
{
    let words = words(&receipt.call);
    ReceiptResult {
        refusal: 0,
        there: 1,
        start: receipt.start as u64,
        end: receipt.end as u64,
        word_count: words.len() as u32,
        words: padded(words),
        call: given(&receipt.call),
        reply: reply_told(&receipt.reply),
    }
}

/// Returns the result without a seat, for this refusal.
pub fn no_seat(refusal: u32) -> SeatResult
    ensures { result ≡ no_seat_result refusal }
{
    SeatResult {
        refusal,
        there: 0,
        starts: 0,
        receipts: 0,
        kept_from: 0,
    }
}

/// Returns the result for a seat.
pub fn seat_told(seat: &Seat) -> SeatResult
    ensures { result ≡ seat_result (Some seat.now) }
{
    SeatResult {
        refusal: 0,
        there: 1,
        starts: seat.starts() as u64,
        receipts: seat.receipts().len() as u64,
        kept_from: seat.receipts().kept_from() as u64,
    }
}
