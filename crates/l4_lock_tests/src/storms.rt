//! Many threads send to one. In a second test, one more thread hands out the history in segments meanwhile.

use crate::calls::{ROOT, closed, create, new_lock, receive, seat, send, starts_of};
use l4_lock::{History, KernelLock, Seat, Segment};
use std::alloc::{AllocError, Global};
use std::process::Abort;
use std::sync::{Arc, Wait};
use std::thread::{JoinHandle, Threads, sleep, spawn};
use std::time::{Clock, Duration};

/// The first thread that sends, and the one that receives.
const FIRST: u32 = 3;

const RECEIVER: u32 = 10;

/// How many messages each thread sends.
const EACH: u32 = 100;

/// How many messages there are.
const ALL: u32 = 700;

/// How many segments are handed out while the threads work.
const SEGMENTS: u32 = 20;

/// Enters the calls of one seat: the receiver's, or a sender's.
fn work<R: Wait>(rt: &R, lock: &KernelLock, mut seat: Seat) -> Seat {
    let receives = seat.number() == RECEIVER;
    let count = if receives { ALL } else { EACH };
    for round in 0..count {
        let call = if receives {
            receive()
        } else {
            send(RECEIVER, &[1, round])
        };
        let _ = lock.call(rt, &mut seat, call);
    }
    seat
}

/// Starts the thread of a seat.
fn start<R: Threads + Wait + Copy + Send + Drop + 'static>(
    rt: &R,
    lock: &Arc<KernelLock, Global>,
    seat: Seat,
) -> Result<JoinHandle<Seat>, AllocError> {
    let (own, lock) = (*rt, Arc::try_clone(lock)?);
    Ok(spawn(rt, move || work(&own, &lock, seat))?)
}

/// Starts the threads of all seats but root's.
fn start_all<R: Threads + Wait + Abort + Copy + Send + Drop + 'static>(
    rt: &R,
    alloc: Global,
    lock: &Arc<KernelLock, Global>,
) -> Vec<JoinHandle<Seat>> {
    let mut working = Vec::new(alloc);
    for number in FIRST..=RECEIVER {
        let handle = start(rt, lock, seat(rt, lock, number)).expect(rt, "a thread");
        working.push(handle).expect(rt, "memory");
    }
    working
}

/// Root makes all threads.
fn make_all<R: Wait + Abort>(rt: &R, lock: &KernelLock, root: &mut Seat) {
    for number in FIRST..=RECEIVER {
        assert!(rt; lock.call(rt, root, create(number)).is_ok());
    }
}

/// Returns the seats of the threads that have ended.
fn join_all<R: Threads + Wait + Abort + Copy + Send + Drop + 'static>(
    rt: &R,
    alloc: Global,
    lock: &Arc<KernelLock, Global>,
) -> Vec<Seat> {
    let mut seats = Vec::new(alloc);
    for handle in start_all(rt, alloc, lock) {
        seats.push(handle.join(rt)).expect(rt, "memory");
    }
    seats
}

/// Judges what each thread started.
fn check_starts(rt: &impl Abort, history: &History) {
    assert_eq!(rt; history.len(), 2108);
    assert_eq!(rt; starts_of(history, ROOT), 8);
    for number in FIRST..RECEIVER {
        assert_eq!(rt; starts_of(history, number), 100, "of thread {number}");
    }
    assert_eq!(rt; starts_of(history, RECEIVER), 700);
}

#[test]
fn seven_hundred_messages(rt: HostRuntime) {
    let lock = new_lock(&rt, rt.alloc());
    let mut root = seat(&rt, &lock, ROOT);
    make_all(&rt, &lock, &mut root);
    let lock = Arc::new(rt.alloc(), lock).expect(&rt, "memory");
    let mut seats = join_all(&rt, rt.alloc(), &lock);
    seats.push(root).expect(&rt, "memory");
    let history = match Arc::try_unwrap(lock) {
        Ok(lock) => closed(&rt, lock, seats),
        Err(_) => panic!(rt; "the threads have ended"),
    };
    check_starts(&rt, &history);
}

/// Hands out segments of the history, and returns them in their order.
fn collect<R: Wait + Clock>(rt: &R, alloc: Global, lock: &KernelLock) -> Vec<Segment> {
    let mut segments = Vec::new(alloc);
    for _ in 0..SEGMENTS {
        if let Some(segment) = lock.hand_out(rt) {
            let _ = segments.push(segment);
        }
        sleep(rt, Duration::from_millis(1));
    }
    segments
}

/// Starts the thread that hands out segments.
fn start_collecting<R: Threads + Wait + Clock + Copy + Send + Drop + 'static>(
    rt: &R,
    alloc: Global,
    lock: &Arc<KernelLock, Global>,
) -> Result<JoinHandle<Vec<Segment>>, AllocError> {
    let (own, lock) = (*rt, Arc::try_clone(lock)?);
    Ok(spawn(rt, move || collect(&own, alloc, &lock))?)
}

/// Judges that each segment begins where the one before ended. Returns the number of the entry after the last one.
fn check_order(rt: &impl Abort, segments: &[Segment]) -> usize {
    let mut next = 0usize;
    for segment in segments {
        assert_eq!(rt; segment.first, next);
        next = next.saturating_add(segment.history.len());
    }
    next
}

/// Returns how many calls of this number the segments and the entries after them start.
fn starts_in_all(segments: &[Segment], rest: &History, number: u32) -> usize {
    let mut count = starts_of(rest, number);
    for segment in segments {
        count = count.saturating_add(starts_of(&segment.history, number));
    }
    count
}

/// Judges that the segments and the entries after them are the whole history.
fn check_segments(rt: &impl Abort, segments: &[Segment], rest: &History) {
    let next = check_order(rt, segments);
    assert_eq!(rt; next.saturating_add(rest.len()), 2108);
    for number in FIRST..RECEIVER {
        assert_eq!(rt;
            starts_in_all(segments, rest, number),
            100,
            "of thread {number}"
        );
    }
    assert_eq!(rt; starts_in_all(segments, rest, RECEIVER), 700);
}

/// The seats' receipts name entries by their numbers since boot, so the lock is closed as if nothing was handed out.
#[test]
fn segments_of_seven_hundred_messages(rt: HostRuntime) {
    let lock = new_lock(&rt, rt.alloc());
    let mut root = seat(&rt, &lock, ROOT);
    make_all(&rt, &lock, &mut root);
    let lock = Arc::new(rt.alloc(), lock).expect(&rt, "memory");
    let collecting = start_collecting(&rt, rt.alloc(), &lock).expect(&rt, "a thread");
    let mut seats = join_all(&rt, rt.alloc(), &lock);
    seats.push(root).expect(&rt, "memory");
    let segments = collecting.join(&rt);
    let rest = match Arc::try_unwrap(lock) {
        Ok(lock) => closed(&rt, lock, seats),
        Err(_) => panic!(rt; "the threads have ended"),
    };
    check_segments(&rt, segments.as_slice(), &rest);
}
