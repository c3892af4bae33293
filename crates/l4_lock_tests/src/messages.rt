//! Ten messages from one thread to another, while a third watches.
ghost use Rattle.std.specs.Prelude.{◌≡◌};

use crate::calls::{ROOT, closed, create, list, receive, seat, send, starts_of, watched};
use l4_lock::{Board, KernelLock, Seat, Watch};
use std::process::Abort;
use std::sync::Wait;
use std::thread::{Threads, join, sleep};
use std::time::{Clock, Duration};

/// The other thread.
const PARTNER: u32 = 3;

/// How many messages are sent.
const MESSAGES: u32 = 10;

/// The entries of a history in which a thread is made, and each message has two starts and a transfer.
const ENTRIES: u64 = 31;

/// A message of ten words.
const MESSAGE: [u32; 11] = [10, 1, 2, 3, 4, 5, 6, 7, 8, 9, 10];

/// How often a watch looks at most.
const LOOKS: u32 = 10_000;

/// Sends all messages. Returns whether each call was entered.
fn send_all<R: Wait>(rt: &R, lock: &KernelLock, seat: &mut Seat) -> bool {
    for _ in 0..MESSAGES {
        if lock.call(rt, seat, send(PARTNER, &MESSAGE)).is_err() {
            return false;
        }
    }
    true
}

/// Receives as many. Returns whether each call was entered.
fn receive_all<R: Wait>(rt: &R, lock: &KernelLock, seat: &mut Seat) -> bool {
    for _ in 0..MESSAGES {
        if lock.call(rt, seat, receive()).is_err() {
            return false;
        }
    }
    true
}

/// Looks until the board shows the last entry. Returns whether it came and no look was below the one before.
fn watch_all<R: Clock>(rt: &R, board: &Board, watch: &mut Watch) -> bool
    requires { watch.old.board ≡ board.now }
{
    let mut last = 0u64;
    for _ in 0..LOOKS {
        let seen = board.look(watch);
        if seen < last {
            return false;
        }
        if seen == ENTRIES {
            return true;
        }
        last = seen;
        sleep(rt, Duration::from_millis(1));
    }
    false
}

/// Sends, receives and watches, in three threads.
fn exchange<R: Threads + Wait + Clock + Sync>(
    rt: &R,
    lock: &KernelLock,
    root: &mut Seat,
    partner: &mut Seat,
    watch: &mut Watch,
) -> (bool, bool, bool)
    requires { watch.old.board ≡ lock.now }
{
    let (sent, (received, watched)) = join(
        rt,
        || send_all(rt, lock, root),
        || -> (bool, bool)
            requires { watch.now.board ≡ lock.now }
        {
            join(
                rt,
                || receive_all(rt, lock, partner),
                || -> bool
                    requires { watch.now.board ≡ lock.now }
                { watch_all(rt, lock.board(), watch) },
            )
        },
    );
    (sent, received, watched)
}

/// Makes the partner, and has all three act.
fn check_exchange<R: Threads + Wait + Clock + Sync + Abort>(
    rt: &R,
    lock: &KernelLock,
    root: &mut Seat,
    partner: &mut Seat,
    watch: &mut Watch,
)
    requires { watch.old.board ≡ lock.now }
{
    assert!(rt; lock.call(rt, root, create(PARTNER)).is_ok());
    let all = exchange(rt, lock, root, partner, watch);
    assert!(rt; all.0, "each message is sent");
    assert!(rt; all.1, "each message is received");
    assert!(rt; all.2, "the watch sees the last entry and never falls");
}

#[test]
fn ten_messages(rt: HostRuntime) {
    let (lock, mut watch) = watched(&rt, rt.alloc());
    let mut root = seat(&rt, &lock, ROOT);
    let mut partner = seat(&rt, &lock, PARTNER);
    check_exchange(&rt, &lock, &mut root, &mut partner, &mut watch);
    let seats = list(&rt, rt.alloc(), [root, partner]);
    let history = closed(&rt, lock, seats);
    assert_eq!(rt; history.len() as u64, ENTRIES);
    assert_eq!(rt; starts_of(&history, ROOT), 11);
    assert_eq!(rt; starts_of(&history, PARTNER), 10);
}
