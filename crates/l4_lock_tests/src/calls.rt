//! The calls that the tests enter, and what they count in a history.
ghost use Rattle.std.specs.Prelude.{◌≡◌};

use arrayvec::ArrayVec;
use l4_ipc::{Call, Fpage, MAX_WORDS, PageSize, Rights, Step, ThreadId, Timeout};
use l4_lock::{History, KernelLock, Locked, Seat, Unclosed, Watch};
use std::alloc::Global;
use std::process::Abort;
use std::sync::Wait;

/// The page frames of the tests' kernels.
pub const FRAMES: u32 = 256;

/// The number of sigma0.
pub const SIGMA0: u32 = 1;

/// The number of root, which may make and end threads.
pub const ROOT: u32 = 2;

/// Returns the id of a thread in its first version.
pub fn id(number: u32) -> ThreadId {
    match ThreadId::global(number, 1) {
        Some(id) => id,
        None => ThreadId::nil(),
    }
}

/// Returns a lock that no call was entered in.
pub fn new_lock(rt: &impl Abort, alloc: Global) -> KernelLock {
    KernelLock::new(alloc, FRAMES, PageSize::Kib4, 0)
        .expect(rt, "a lock")
        .0
}

/// Returns such a lock for one thread alone.
pub fn new_locked(rt: &impl Abort, alloc: Global) -> Locked {
    Locked::new(alloc, FRAMES, PageSize::Kib4, 0)
        .expect(rt, "a lock")
        .0
}

/// Returns the seat of this number.
pub fn seat<R: Wait + Abort>(rt: &R, lock: &KernelLock, number: u32) -> Seat {
    lock.seat(rt, number).expect(rt, "a seat")
}

/// Returns the seat of this number, for one thread alone.
pub fn seat_of(rt: &impl Abort, locked: &mut Locked, number: u32) -> Seat {
    locked.seat(number).expect(rt, "a seat")
}

/// Returns a list of these seats.
pub fn list<const N: usize>(rt: &impl Abort, alloc: Global, seats: [Seat; N]) -> Vec<Seat> {
    Vec::from_array(alloc, seats).expect(rt, "memory")
}

/// Returns a lock that no call was entered in, and a watch of its board.
pub fn watched(rt: &impl Abort, alloc: Global) -> (KernelLock, Watch)
    ensures { result.1.board ≡ result.0 }
{
    let (lock, mut watches) = KernelLock::new(alloc, FRAMES, PageSize::Kib4, 1).expect(
        rt, "a lock",
    );
    let watch = watches.pop().expect(rt, "a watch");
    (lock, watch)
}

/// Makes a thread in a space of its own.
pub fn create(number: u32) -> Call {
    Call::create(id(number), id(number), ThreadId::nil())
}

/// Makes a thread in a space of its own, whose faults go to the pager.
pub fn create_for(number: u32, pager: u32) -> Call {
    Call::create(id(number), id(number), id(pager))
}

/// Ends a thread.
pub fn delete(number: u32) -> Call {
    Call::delete(id(number))
}

/// Sends a message, its tag first. It waits for as long as it takes.
pub fn send(to: u32, words: &[u32]) -> Call {
    let mut registers: ArrayVec<u32, MAX_WORDS> = ArrayVec::new();
    let _ = registers.try_extend_from_slice(words);
    Call::send(id(to), registers, Timeout::Never)
}

/// Receives a message from any thread with a complete window. It waits for as long as it takes.
pub fn receive() -> Call {
    Call::receive(
        ThreadId::any(),
        Fpage::Complete(Rights::all()),
        Timeout::Never,
    )
}

/// Returns the number of calls of this number that the history starts.
pub fn starts_of(history: &History, number: u32) -> usize {
    history
        .entries_from(0)
        .filter(|entry| entry.seat == number && matches!(entry.step, Step::Start(_, _)))
        .count()
}

/// Returns the history of a lock that is closed with its seats.
pub fn closed<R: Abort>(rt: &R, lock: KernelLock, seats: Vec<Seat>) -> History {
    match lock.unlock().close(seats) {
        Ok((history, _)) => history,
        Err(unclosed) => panic!(rt; "not closed: {:?}", unclosed.mismatch),
    }
}

/// Returns the error of a lock that is not closed.
pub fn unclosed<R: Abort>(rt: &R, locked: Locked, seats: Vec<Seat>) -> Unclosed {
    match locked.close(seats) {
        Ok(_) => panic!(rt; "closed"),
        Err(unclosed) => unclosed,
    }
}
