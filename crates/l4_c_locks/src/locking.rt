//! Locked kernels with their seats, for C.
ghost use Rattle.std.specs.Prelude.{◌≡◌, None, Some, codes};
ghost use Rattle.l4_fpage.specs.declared.sizes.PageSize.TheVariants.{Kib4};
ghost use Rattle.l4_refusals.specs.Texts.{spelled};
ghost use Rattle.l4_c_values.specs.InBytes.{InBytes};
ghost use Rattle.l4_ipc.specs.declared.steps.CancelCause.TheVariants.{Timeout, Canceled};
ghost use Rattle.l4_c_locks.specs.Locking.{MakesLock, Gives, GivesSeat, EntersCall, EntersSeat, CancelsWait, CancelsThread, TakesReply, TakesSeat, TellsLength, TellsKeptFrom, TellsEntry, TellsEnded, TellsFrames, TellsSeat, TellsReceipt, ClosesLock};

use l4_c_queries::{
    CountResult, Verdict, counted, ended_from, entry_of, receipt_of, refused_call, verdict_of,
};
use l4_c_values::{
    CallGiven, EMPTY, EntryResult, HELD, LockHandle, NO_MEMORY, NO_SUCH_CALL, NO_SUCH_SIZE,
    ReceiptResult, ReplyResult, SeatResult, SeatedResult, entered_told, lock_number, mismatch_told,
    no_entry, no_receipt, no_reply, no_seat, reply_told, seat_told, size_of, unseated, write_call,
};
use l4_ipc::{ArrayVec, Call, CancelCause, IpcCall, PageSize, ThreadId};
use l4_seated_lock::SeatedLock;
use std::alloc::Global;

/// Boots a locked kernel with pages of this size.
fn make(alloc: Global, handle: &mut LockHandle, size: PageSize, frames: u32) -> u32
    ensures { MakesLock handle.old.value size frames result handle.new.value }
{
    if let Some(lock) = handle.take(alloc) {
        handle.put(lock);
        return HELD;
    }
    let lock = match SeatedLock::new(alloc, frames, size) {
        Ok(lock) => lock,
        Err(refusal) => return lock_number(refusal),
    };
    match Box::new(alloc, lock) {
        Ok(lock) => {
            handle.put(lock);
            0
        }
        Err(_) => NO_MEMORY,
    }
}

/// Boots a locked kernel with pages of 4,096 bytes. The refusals are B2, K6 and NoMemory, in this order.
#[unsafe(no_mangle)]
pub extern "C" fn l4_lock_new(alloc: Global, handle: &mut LockHandle, frames: u32) -> u32
    ensures { MakesLock handle.old.value Kib4 frames result handle.new.value }
{
    make(alloc, handle, PageSize::Kib4, frames)
}

/// Boots a locked kernel with pages of `page_bytes` bytes. Refuses a number of bytes that no page has (B4) before every other refusal.
#[unsafe(no_mangle)]
pub extern "C" fn l4_lock_new_sized(
    alloc: Global,
    handle: &mut LockHandle,
    frames: u32,
    page_bytes: u32,
) -> u32
    ensures { InBytes page_bytes
        (λ size. MakesLock handle.old.value size frames result handle.new.value)
        ((result ≡ spelled (codes "B4")) × (handle.new.value ≡ handle.old.value)) }
{
    match size_of(page_bytes) {
        Some(size) => make(alloc, handle, size, frames),
        None => NO_SUCH_SIZE,
    }
}

/// Frees a locked kernel, and leaves the handle empty.
#[unsafe(no_mangle)]
pub extern "C" fn l4_lock_free(alloc: Global, handle: &mut LockHandle)
    ensures { handle.new.value ≡ None }
{
    let _lock = handle.take(alloc);
}

/// Gives out the seat of a thread number.
fn give(lock: &mut SeatedLock, number: u32) -> u32
    ensures { Gives lock.old number result lock.new }
{
    match lock.give(number) {
        Ok(()) => 0,
        Err(refusal) => lock_number(refusal),
    }
}

/// Gives out the seat of a thread number, once. The refusals are B1, L4 and NoMemory, in this order.
#[unsafe(no_mangle)]
pub extern "C" fn l4_lock_give(alloc: Global, handle: &mut LockHandle, number: u32) -> u32
    ensures { GivesSeat handle.old.value number result handle.new.value }
{
    let Some(mut lock) = handle.take(alloc) else {
        return EMPTY;
    };
    let given = give(&mut lock, number);
    handle.put(lock);
    given
}

/// Enters a call under this seat's number. Refuses an unknown kind of call (B3), and then as the lock does.
fn enter(lock: &mut SeatedLock, number: u32, given: &CallGiven, words: &[u32]) -> SeatedResult
    ensures { EntersCall lock.old number given.now words.now result lock.new }
{
    let mut call = Call::Ipc(IpcCall {
        to: ThreadId(0),
        from: ThreadId(0),
        timeouts: 0,
        acceptor: 0,
        words: ArrayVec::new(),
    });
    if !write_call(&mut call, given, words) {
        return unseated(NO_SUCH_CALL, 0);
    }
    match lock.enter(number, call) {
        Ok(entered) => entered_told(&entered),
        Err(refusal) => refused_call(lock, number, refusal),
    }
}

/// Enters a call under this seat's number. The refusals are B1, B3, X2, and then those of the lock (L3, L1, NoMemory) and of the kernel.
#[unsafe(no_mangle)]
pub extern "C" fn l4_lock_enter(
    alloc: Global,
    handle: &mut LockHandle,
    number: u32,
    call: &CallGiven,
    words: &[u32],
) -> SeatedResult
    ensures { EntersSeat handle.old.value number call.now words.now result handle.new.value }
{
    let Some(mut lock) = handle.take(alloc) else {
        return unseated(EMPTY, 0);
    };
    let entered = enter(&mut lock, number, call, words);
    handle.put(lock);
    entered
}

/// Cancels the wait of a thread. Returns 0, or the number of the refusal.
fn cancel(lock: &mut SeatedLock, thread: u32, cause: CancelCause) -> u32
    ensures { CancelsWait lock.old thread cause result lock.new }
{
    match lock.cancel(thread, cause) {
        Ok(()) => 0,
        Err(refusal) => lock_number(refusal),
    }
}

/// Cancels the wait of a thread of the handle's locked kernel. Refuses an empty handle (B1).
fn cancel_thread(alloc: Global, handle: &mut LockHandle, thread: u32, cause: CancelCause) -> u32
    ensures { CancelsThread handle.old.value thread cause result handle.new.value }
{
    let Some(mut lock) = handle.take(alloc) else {
        return EMPTY;
    };
    let canceled = cancel(&mut lock, thread, cause);
    handle.put(lock);
    canceled
}

/// Ends the thread's wait, because its timeout has passed by the caller's clock. The refusals are B1, L1, NoMemory and K1, in this order.
#[unsafe(no_mangle)]
pub extern "C" fn l4_lock_timeout(alloc: Global, handle: &mut LockHandle, thread: u32) -> u32
    ensures { CancelsThread handle.old.value thread Timeout result handle.new.value }
{
    cancel_thread(alloc, handle, thread, CancelCause::Timeout)
}

/// Cancels the thread's wait. The refusals are B1, L1, NoMemory and K1, in this order.
#[unsafe(no_mangle)]
pub extern "C" fn l4_lock_cancel(alloc: Global, handle: &mut LockHandle, thread: u32) -> u32
    ensures { CancelsThread handle.old.value thread Canceled result handle.new.value }
{
    cancel_thread(alloc, handle, thread, CancelCause::Canceled)
}

/// Takes the reply of the seat's call that was left waiting and has since ended.
fn take(lock: &mut SeatedLock, number: u32) -> ReplyResult
    ensures { TakesReply lock.old number result lock.new }
{
    match lock.take(number) {
        Some(reply) => reply_told(&reply),
        None => no_reply(0),
    }
}

/// Takes the reply of the seat's call that was left waiting and has since ended. Refuses an empty handle (B1).
#[unsafe(no_mangle)]
pub extern "C" fn l4_lock_take(alloc: Global, handle: &mut LockHandle, number: u32) -> ReplyResult
    ensures { TakesSeat handle.old.value number result handle.new.value }
{
    let Some(mut lock) = handle.take(alloc) else {
        return no_reply(EMPTY);
    };
    let taken = take(&mut lock, number);
    handle.put(lock);
    taken
}

/// Returns the number of entries since boot. Refuses an empty handle (B1).
#[unsafe(no_mangle)]
pub extern "C" fn l4_lock_length(alloc: Global, handle: &mut LockHandle) -> CountResult
    ensures kept { handle.new.value ≡ handle.old.value }
    ensures told { TellsLength handle.old.value result }
{
    let Some(lock) = handle.take(alloc) else {
        return counted(EMPTY, 0);
    };
    let count = lock.count() as u64;
    handle.put(lock);
    counted(0, count)
}

/// Returns the number of the first entry that the lock keeps. Refuses an empty handle (B1).
#[unsafe(no_mangle)]
pub extern "C" fn l4_lock_kept_from(alloc: Global, handle: &mut LockHandle) -> CountResult
    ensures kept { handle.new.value ≡ handle.old.value }
    ensures told { TellsKeptFrom handle.old.value result }
{
    let Some(lock) = handle.take(alloc) else {
        return counted(EMPTY, 0);
    };
    let count = lock.kept_from() as u64;
    handle.put(lock);
    counted(0, count)
}

/// Returns the entry with this number since boot, from 0. Refuses an empty handle (B1), and an entry that was handed out (L8).
#[unsafe(no_mangle)]
pub extern "C" fn l4_lock_entry(
    alloc: Global,
    handle: &mut LockHandle,
    number: usize,
) -> EntryResult
    ensures kept { handle.new.value ≡ handle.old.value }
    ensures told { TellsEntry handle.old.value number result }
{
    let Some(lock) = handle.take(alloc) else {
        return no_entry(EMPTY);
    };
    let told = entry_of(&lock, number);
    handle.put(lock);
    told
}

/// Writes the numbers of the threads whose calls ended in the entries from this number on to the array, up to its length, and returns how
/// many there are. Refuses an empty handle (B1), and an entry that was handed out (L8).
#[unsafe(no_mangle)]
pub extern "C" fn l4_lock_ended(
    alloc: Global,
    handle: &mut LockHandle,
    number: usize,
    threads: &mut [u32],
) -> CountResult
    ensures kept { handle.new.value ≡ handle.old.value }
    ensures told { TellsEnded handle.old.value number threads.old result threads.new }
{
    let Some(lock) = handle.take(alloc) else {
        return counted(EMPTY, 0);
    };
    let told = ended_from(&lock, number, threads);
    handle.put(lock);
    told
}

/// Returns the number of frames with which the kernel was booted. Refuses an empty handle (B1).
#[unsafe(no_mangle)]
pub extern "C" fn l4_lock_frames_of(alloc: Global, handle: &mut LockHandle) -> CountResult
    ensures kept { handle.new.value ≡ handle.old.value }
    ensures told { TellsFrames handle.old.value result }
{
    let Some(lock) = handle.take(alloc) else {
        return counted(EMPTY, 0);
    };
    let frames = lock.frames();
    handle.put(lock);
    counted(0, frames as u64)
}

/// Returns how many calls the seat has started, and how many receipts it has. Refuses an empty handle (B1).
#[unsafe(no_mangle)]
pub extern "C" fn l4_lock_seat_of(alloc: Global, handle: &mut LockHandle, number: u32) -> SeatResult
    ensures kept { handle.new.value ≡ handle.old.value }
    ensures told { TellsSeat handle.old.value number result }
{
    let Some(lock) = handle.take(alloc) else {
        return no_seat(EMPTY);
    };
    let told = match lock.seat(number) {
        Some(seat) => seat_told(seat),
        None => no_seat(0),
    };
    handle.put(lock);
    told
}

/// Returns the receipt of a seat with this number, from 0. Refuses an empty handle (B1), and a receipt that was handed out (L8).
#[unsafe(no_mangle)]
pub extern "C" fn l4_lock_receipt(
    alloc: Global,
    handle: &mut LockHandle,
    number: u32,
    place: usize,
) -> ReceiptResult
    ensures kept { handle.new.value ≡ handle.old.value }
    ensures told { TellsReceipt handle.old.value number place result }
{
    let Some(lock) = handle.take(alloc) else {
        return no_receipt(EMPTY);
    };
    let told = receipt_of(&lock, number, place);
    handle.put(lock);
    told
}

/// Takes back the seats of these numbers, and frees the locked kernel if exactly the seats that were given come back. The refusals are B1,
/// X1 and X2, in this order.
#[unsafe(no_mangle)]
pub extern "C" fn l4_lock_close(alloc: Global, handle: &mut LockHandle, numbers: &[u32]) -> Verdict
    ensures { ClosesLock handle.old.value numbers.now result handle.new.value }
{
    let Some(lock) = handle.take(alloc) else {
        return verdict_of(EMPTY, 0);
    };
    let Some(mismatch) = lock.mismatch(numbers) else {
        return verdict_of(0, 0);
    };
    handle.put(lock);
    let (refusal, detail) = mismatch_told(mismatch);
    verdict_of(refusal, detail)
}
