//! Calls that were left waiting, and threads that are deleted as they wait.
ghost use Rattle.std.specs.Prelude.{◌≡◌};

use crate::calls::{
    ROOT, closed, create, delete, list, new_locked, receive, seat, seat_of, watched,
};
use l4_ipc::{PageSize, Refused, Reply};
use l4_lock::{Board, Entered, KernelLock, LockRefusal, Locked, Seat, Watch};
use std::process::Abort;
use std::sync::Wait;
use std::thread::{Threads, join, sleep};
use std::time::{Clock, Duration};

/// A thread that waits.
pub const THIRD: u32 = 3;

/// How often the watch looks at most.
const LOOKS: u32 = 10_000;

/// Returns whether the call was left waiting.
fn waits(entered: Result<Entered, LockRefusal>) -> bool {
    matches!(entered, Ok(Entered::Waiting))
}

/// Returns whether the call has ended with this reply.
fn ends(entered: Result<Entered, LockRefusal>, reply: Reply) -> bool {
    match entered {
        Ok(Entered::Done(last)) => last == reply,
        Ok(Entered::Waiting) => false,
        Err(_) => false,
    }
}

/// Returns whether the call was refused with this refusal.
fn is_refused(entered: Result<Entered, LockRefusal>, refusal: LockRefusal) -> bool {
    match entered {
        Ok(_) => false,
        Err(first) => first == refusal,
    }
}

/// Replaces the third thread as it waits: its seat gets Gone, and then serves the new thread of its number.
fn replace_once(rt: &impl Abort, locked: &mut Locked, root: &mut Seat, third: &mut Seat) {
    assert!(rt; ends(locked.enter(root, create(THIRD)), Reply::Controlled));
    assert!(rt; waits(locked.enter(third, receive())));
    assert!(rt; locked.take(third).is_none());
    assert!(rt; ends(locked.enter(root, delete(THIRD)), Reply::Controlled));
    assert!(rt; ends(locked.enter(root, create(THIRD)), Reply::Controlled));
    assert!(rt; is_refused(locked.enter(third, receive()), LockRefusal::ReplyWaiting));
    assert_eq!(rt; locked.take(third), Some(Reply::Gone));
    assert_eq!(rt; locked.take(third), None);
    assert!(rt; waits(locked.enter(third, receive())));
    let busy = LockRefusal::Kernel(Refused::Busy);
    assert!(rt; is_refused(locked.enter(third, receive()), busy));
    assert_eq!(rt;
        (third.starts(), third.waiting(), third.receipts().len()),
        (2, 1, 1)
    );
    assert_eq!(rt; locked.history().len(), 5);
}

/// The seat of a thread that is deleted as it waits gets Gone, once, and a new thread with its number starts anew.
#[test]
fn gone_once(rt: HostRuntime) {
    let mut locked = new_locked(&rt, rt.alloc());
    let mut root = seat_of(&rt, &mut locked, ROOT);
    let mut third = seat_of(&rt, &mut locked, THIRD);
    replace_once(&rt, &mut locked, &mut root, &mut third);
}

/// Waits until the board shows this number. Returns whether it does.
pub fn shows<R: Clock>(rt: &R, board: &Board, watch: &mut Watch, number: u64) -> bool
    requires { watch.old.board ≡ board.now }
{
    for _ in 0..LOOKS {
        if board.look(watch) >= number {
            return true;
        }
        sleep(rt, Duration::from_millis(1));
    }
    false
}

/// Ends the thread once the board shows that it waits, and makes another of its number.
fn replace<R: Wait + Clock>(rt: &R, lock: &KernelLock, root: &mut Seat, watch: &mut Watch) -> bool
    requires { watch.old.board ≡ lock.now }
{
    shows(rt, lock.board(), watch, 2)
        && lock.call(rt, root, delete(THIRD)).is_ok()
        && lock.call(rt, root, create(THIRD)).is_ok()
}

/// One thread waits, and another replaces it.
fn wait_and_replace<R: Threads + Wait + Clock + Sync>(
    rt: &R,
    lock: &KernelLock,
    root: &mut Seat,
    third: &mut Seat,
    watch: &mut Watch,
) -> (Result<Reply, LockRefusal>, bool)
    requires { watch.old.board ≡ lock.now }
{
    join(
        rt,
        || lock.call(rt, third, receive()),
        || -> bool
            requires { watch.now.board ≡ lock.now }
        { replace(rt, lock, root, watch) },
    )
}

/// Has both act, and judges what the seats tell.
fn check_gone<R: Threads + Wait + Clock + Sync + Abort>(
    rt: &R,
    lock: &KernelLock,
    root: &mut Seat,
    third: &mut Seat,
    watch: &mut Watch,
)
    requires { watch.old.board ≡ lock.now }
{
    assert!(rt; lock.call(rt, root, create(THIRD)).is_ok());
    let (reply, replaced) = wait_and_replace(rt, lock, root, third, watch);
    assert_eq!(rt; reply, Ok(Reply::Gone));
    assert!(rt; replaced);
}

#[test]
fn gone_on_threads(rt: HostRuntime) {
    let (lock, mut watch) = watched(&rt, rt.alloc());
    let mut root = seat(&rt, &lock, ROOT);
    let mut third = seat(&rt, &lock, THIRD);
    check_gone(&rt, &lock, &mut root, &mut third, &mut watch);
    let seats = list(&rt, rt.alloc(), [root, third]);
    assert_eq!(rt; closed(&rt, lock, seats).len(), 4);
}

/// Tries what a lock refuses, with a seat of its own and one of another lock.
fn check_refusals(rt: &impl Abort, locked: &mut Locked, third: &mut Seat, foreign: &mut Seat) {
    assert!(rt; matches!(locked.seat(THIRD), Err(LockRefusal::SeatTaken)));
    let unknown = LockRefusal::Kernel(Refused::UnknownThread);
    assert!(rt; is_refused(locked.enter(third, receive()), unknown));
    assert!(rt; is_refused(locked.enter(foreign, receive()), unknown));
    assert!(rt; locked.history().is_empty());
}

/// What a lock refuses.
#[test]
fn refusals(rt: HostRuntime) {
    let mut other = new_locked(&rt, rt.alloc());
    let mut foreign = seat_of(&rt, &mut other, ROOT);
    let mut locked = new_locked(&rt, rt.alloc());
    let mut third = seat_of(&rt, &mut locked, THIRD);
    check_refusals(&rt, &mut locked, &mut third, &mut foreign);
}

/// How many frames a lock may have.
#[test]
fn frames_in_range(rt: HostRuntime) {
    for frames in [0, 4_097] {
        assert!(rt;
            matches!(
                Locked::new(rt.alloc(), frames, PageSize::Kib4, 0),
                Err(LockRefusal::Kernel(Refused::BadFrames))
            )
        );
        assert!(rt;
            matches!(
                KernelLock::new(rt.alloc(), frames, PageSize::Kib4, 0),
                Err(LockRefusal::Kernel(Refused::BadFrames))
            )
        );
    }
    for frames in [1, 4_096] {
        assert!(rt; KernelLock::new(rt.alloc(), frames, PageSize::Kib4, 0).is_ok());
    }
}

/// No clause says which kernel a lock holds: it is the one that was asked for, in frames and in their size.
#[test]
fn lock_holds_the_kernel_that_was_asked_for(rt: HostRuntime) {
    let (lock, _) = KernelLock::new(rt.alloc(), 8, PageSize::Kib1, 0).expect(&rt, "a lock");
    let locked = lock.unlock();
    assert_eq!(rt; locked.frames(), 8);
    assert!(rt; locked.kernel().page_size() == PageSize::Kib1);
}
