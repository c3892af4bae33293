//! Seats that come back, and those that don't.

use crate::calls::{ROOT, closed, create, list, new_lock, seat, unclosed};
use l4_ipc::Reply;
use l4_lock::{KernelLock, Mismatch, Seat, Unclosed};
use l4_pager::Gate;
use std::process::Abort;
use std::sync::Wait;

/// A thread.
const THIRD: u32 = 3;

/// Root's seat, in which a call was entered.
fn used_seat<R: Wait + Abort>(rt: &R, lock: &KernelLock) -> Seat {
    let mut root = seat(rt, lock, ROOT);
    assert!(rt; lock.call(rt, &mut root, create(THIRD)).is_ok());
    root
}

/// Takes the last of the seats back, which has this number and in which no call was entered.
fn take_last(rt: &impl Abort, left: &mut Unclosed, number: u32) {
    let last = left.seats.pop().expect(rt, "a seat");
    assert_eq!(rt; (last.number(), last.starts()), (number, 0));
}

/// Closes a lock after all, with the seats that are left.
fn close(rt: &impl Abort, left: Unclosed) {
    assert!(rt; left.locked.close(left.seats).is_ok());
}

/// Judges a lock that was not closed for this reason, after one call and with this many seats.
fn check_left(rt: &impl Abort, left: &Unclosed, mismatch: Mismatch, seats: usize) {
    assert_eq!(rt; left.mismatch, mismatch);
    assert_eq!(rt; left.locked.history().len(), 1);
    assert_eq!(rt; left.seats.len(), seats);
}

/// A lock that gave seat 2 is closed without it.
#[test]
fn missing(rt: HostRuntime) {
    let lock = new_lock(&rt, rt.alloc());
    let root = used_seat(&rt, &lock);
    let mut left = unclosed(&rt, lock.unlock(), Vec::new(rt.alloc()));
    check_left(&rt, &left, Mismatch::Missing(ROOT), 0);
    left.seats.push(root).expect(&rt, "memory");
    close(&rt, left);
}

/// A lock is closed with a seat that another lock gave.
#[test]
fn foreign(rt: HostRuntime) {
    let lock = new_lock(&rt, rt.alloc());
    let root = used_seat(&rt, &lock);
    let other = new_lock(&rt, rt.alloc());
    let seats = list(&rt, rt.alloc(), [root, seat(&rt, &other, THIRD)]);
    let mut left = unclosed(&rt, lock.unlock(), seats);
    check_left(&rt, &left, Mismatch::Foreign(THIRD), 2);
    take_last(&rt, &mut left, THIRD);
    close(&rt, left);
}

/// A seat of another lock stands in for the lock's own, which has entered a call.
#[test]
fn receipt(rt: HostRuntime) {
    let lock = new_lock(&rt, rt.alloc());
    let root = used_seat(&rt, &lock);
    let other = new_lock(&rt, rt.alloc());
    let seats = list(&rt, rt.alloc(), [seat(&rt, &other, ROOT)]);
    let mut left = unclosed(&rt, lock.unlock(), seats);
    check_left(&rt, &left, Mismatch::Receipt(ROOT), 1);
    take_last(&rt, &mut left, ROOT);
    left.seats.push(root).expect(&rt, "memory");
    close(&rt, left);
}

/// Root's seat, in which a gate made a thread before it gave the seat back.
fn seat_behind_a_gate<R: Wait + Abort>(rt: &R, lock: &KernelLock) -> Seat {
    let mut gate = lock.gate(rt, seat(rt, lock, ROOT));
    assert_eq!(rt; gate.enter(create(THIRD)), Ok(Reply::Controlled));
    gate.into_seat()
}

/// A gate makes a thread, and hands its seat back.
#[test]
fn seat_of_a_gate(rt: HostRuntime) {
    let lock = new_lock(&rt, rt.alloc());
    let root = seat_behind_a_gate(&rt, &lock);
    assert_eq!(rt; root.receipts().len(), 1);
    let seats = list(&rt, rt.alloc(), [root]);
    assert_eq!(rt; closed(&rt, lock, seats).len(), 1);
}
