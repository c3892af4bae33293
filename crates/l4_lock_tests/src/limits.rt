//! Waits with a limit, and waits that another thread ends.
ghost use Rattle.std.specs.Prelude.{◌≡◌};

use crate::calls::{ROOT, closed, create, delete, list, receive, seat, watched};
use crate::waiting::{THIRD, shows};
use l4_ipc::Reply;
use l4_lock::{KernelLock, LockRefusal, Seat, Watch};
use std::process::Abort;
use std::sync::Wait;
use std::thread::{Threads, join};
use std::time::{Clock, Duration};

/// A limit that is reached before anything happens.
fn short() -> Duration {
    Duration::from_millis(2)
}

/// A limit that no test reaches.
fn long() -> Duration {
    Duration::from_secs(600)
}

/// A call outlasts its limit, and its reply is taken once it has ended.
fn check_limits<R: Wait + Clock + Abort>(
    rt: &R,
    lock: &KernelLock,
    root: &mut Seat,
    third: &mut Seat,
) {
    assert!(rt; lock.call(rt, root, create(THIRD)).is_ok());
    assert_eq!(rt; lock.call_for(rt, third, receive(), short()), Ok(None));
    assert_eq!(rt; lock.take(rt, third), None);
    assert_eq!(rt; lock.wait_for(rt, third, short()), None);
    assert_eq!(rt; (third.starts(), third.waiting()), (1, 1));
    assert_eq!(rt;
        lock.call_for(rt, root, delete(THIRD), long()),
        Ok(Some(Reply::Controlled))
    );
    assert_eq!(rt; lock.wait_for(rt, third, long()), Some(Reply::Gone));
    assert_eq!(rt; lock.wait_for(rt, third, long()), None);
    assert_eq!(rt; (third.starts(), third.waiting()), (1, 0));
}

#[test]
fn limits(rt: HostRuntime) {
    let (lock, _) = watched(&rt, rt.alloc());
    let mut root = seat(&rt, &lock, ROOT);
    let mut third = seat(&rt, &lock, THIRD);
    check_limits(&rt, &lock, &mut root, &mut third);
    let seats = list(&rt, rt.alloc(), [root, third]);
    assert_eq!(rt; closed(&rt, lock, seats).len(), 3);
}

/// Ends the waits once the board shows that the call was entered. The lock is free only when its thread waits.
fn end<R: Wait + Clock>(rt: &R, lock: &KernelLock, watch: &mut Watch) -> bool
    requires { watch.old.board ≡ lock.now }
{
    let waits = shows(rt, lock.board(), watch, 1);
    lock.end_waits(rt);
    waits
}

/// One thread waits with a limit, and another ends its wait.
fn wait_and_end<R: Threads + Wait + Clock + Sync>(
    rt: &R,
    lock: &KernelLock,
    root: &mut Seat,
    watch: &mut Watch,
) -> (Result<Option<Reply>, LockRefusal>, bool)
    requires { watch.old.board ≡ lock.now }
{
    join(
        rt,
        || lock.call_for(rt, root, receive(), long()),
        || -> bool
            requires { watch.now.board ≡ lock.now }
        { end(rt, lock, watch) },
    )
}

/// Has both act, and judges what the seat tells.
fn check_ended<R: Threads + Wait + Clock + Sync + Abort>(
    rt: &R,
    lock: &KernelLock,
    root: &mut Seat,
    watch: &mut Watch,
)
    requires { watch.old.board ≡ lock.now }
{
    let (ended, seen) = wait_and_end(rt, lock, root, watch);
    assert_eq!(rt; ended, Ok(None));
    assert!(rt; seen);
    assert_eq!(rt; root.waiting(), 1);
}

#[test]
fn another_thread_ends_a_wait(rt: HostRuntime) {
    let (lock, mut watch) = watched(&rt, rt.alloc());
    let mut root = seat(&rt, &lock, ROOT);
    check_ended(&rt, &lock, &mut root, &mut watch);
}
