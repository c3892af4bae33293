//! Waits that another thread cancels.
ghost use Rattle.std.specs.Prelude.{◌≡◌};

use crate::calls::{ROOT, closed, create, list, receive, seat, watched};
use crate::faults::comes;
use crate::waiting::{THIRD, shows};
use l4_ipc::{CancelCause, Refused, Reply};
use l4_lock::{KernelLock, LockRefusal, Seat, Watch};
use std::process::Abort;
use std::sync::Wait;
use std::sync::atomic::{AtomicBool, Ordering};
use std::thread::{Threads, join};
use std::time::Clock;

/// A thread that root creates at the end.
const FOURTH: u32 = 4;

/// Receives a message. Returns whether the call failed because its wait was canceled (ErrorCode 7), and gives the sign as it returns.
fn receive_nothing<R: Wait>(
    rt: &R,
    lock: &KernelLock,
    third: &mut Seat,
    returned: &AtomicBool,
) -> bool {
    let reply = lock.call(rt, third, receive());
    returned.store(true, Ordering::SeqCst);
    match reply {
        Ok(Reply::Ipc(reply)) => reply.error == 7,
        Ok(_) => false,
        Err(_) => false,
    }
}

/// Cancels the third thread's wait once the board shows that its call was entered. Returns whether its caller was woken by that. If it
/// sleeps on, the call of root wakes it, so that the test ends.
fn cancel<R: Wait + Clock>(
    rt: &R,
    lock: &KernelLock,
    root: &mut Seat,
    watch: &mut Watch,
    returned: &AtomicBool,
) -> bool
    requires { watch.old.board ≡ lock.now }
{
    let waits = shows(rt, lock.board(), watch, 2);
    let canceled = lock.cancel(rt, THIRD, CancelCause::Canceled).is_ok();
    let woken = comes(rt, returned);
    let created = lock.call(rt, root, create(FOURTH)).is_ok();
    waits && canceled && woken && created
}

/// One thread waits, and another cancels its wait.
fn wait_and_cancel<R: Threads + Wait + Clock + Sync>(
    rt: &R,
    lock: &KernelLock,
    root: &mut Seat,
    third: &mut Seat,
    watch: &mut Watch,
    returned: &AtomicBool,
) -> (bool, bool)
    requires { watch.old.board ≡ lock.now }
{
    join(
        rt,
        || receive_nothing(rt, lock, third, returned),
        || -> bool
            requires { watch.now.board ≡ lock.now }
        { cancel(rt, lock, root, watch, returned) },
    )
}

/// Has both act. The third thread does not wait afterwards, so its wait cannot be canceled once more.
fn check_canceled<R: Threads + Wait + Clock + Sync + Abort>(
    rt: &R,
    lock: &KernelLock,
    root: &mut Seat,
    third: &mut Seat,
    watch: &mut Watch,
)
    requires { watch.old.board ≡ lock.now }
{
    assert!(rt; lock.call(rt, root, create(THIRD)).is_ok());
    let returned = AtomicBool::new(false);
    let (failed, woken) = wait_and_cancel(rt, lock, root, third, watch, &returned);
    assert!(rt; failed);
    assert!(rt; woken);
    let idle = LockRefusal::Kernel(Refused::NotEnabled);
    assert_eq!(rt; lock.cancel(rt, THIRD, CancelCause::Timeout), Err(idle));
    assert_eq!(rt;
        (third.starts(), third.waiting(), third.receipts().len()),
        (1, 0, 1)
    );
}

#[test]
fn cancel_wakes_the_caller(rt: HostRuntime) {
    let (lock, mut watch) = watched(&rt, rt.alloc());
    let mut root = seat(&rt, &lock, ROOT);
    let mut third = seat(&rt, &lock, THIRD);
    check_canceled(&rt, &lock, &mut root, &mut third, &mut watch);
    let seats = list(&rt, rt.alloc(), [root, third]);
    assert_eq!(rt; closed(&rt, lock, seats).len(), 4);
}
