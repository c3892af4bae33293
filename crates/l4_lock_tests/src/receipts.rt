//! Receipts of long messages, which are stored by entries of the history where they fill pieces of memory.
ghost use Rattle.std.specs.Prelude.{◌≤◌};

use crate::calls::{ROOT, create, list, new_locked, receive, seat_of, send};
use l4_ipc::{Call, Reply};
use l4_lock::{Locked, Receipt, Seat};
use std::process::Abort;

/// The thread that receives.
const THIRD: u32 = 3;

/// How many messages are sent: enough to fill several pieces.
const ROUNDS: u32 = 60;

/// The registers of a message of 63 words.
const REGISTERS: usize = 64;

/// Returns the message of a round, its tag first. Each word has four bytes that count.
fn message(round: u32) -> [u32; REGISTERS] {
    let mut words = [0x9e37_79b9u32.wrapping_mul(round.wrapping_add(1)); REGISTERS];
    for i in 1..REGISTERS {
        words[i] = words[i - 1]
            .wrapping_mul(0x0019_660d)
            .wrapping_add(0x3c6e_f35f);
    }
    words[0] = 63;
    words
}

/// Root sends the message of a round to the third thread.
fn exchange<R: Abort>(rt: &R, locked: &mut Locked, root: &mut Seat, third: &mut Seat, round: u32) {
    assert!(rt; locked.enter(third, receive()).is_ok());
    assert!(rt; locked.enter(root, send(THIRD, &message(round))).is_ok());
    assert!(rt; locked.take(third).is_some());
}

/// The entries of a round: the start of a receive, that of a send, and the transfer. Before them all a thread is made.
const ENTRIES: usize = 3;

/// Returns the place of the entry that ends both calls of a round. The two before it start them.
fn transfer_of(round: u32) -> usize
    ensures { 2 ≤ result }
{
    ENTRIES * round as usize + ENTRIES
}

/// Returns whether a receipt is of the call that sent the message of a round.
fn has_sent(receipt: &Receipt, round: u32) -> bool {
    let Call::Ipc(call) = &receipt.call else {
        return false;
    };
    receipt.end == transfer_of(round)
        && receipt.start == transfer_of(round) - 1
        && call.words.as_slice() == message(round).as_slice()
}

/// Returns whether a receipt is of a call that received the words of a round's message.
fn has_received(receipt: &Receipt, round: u32) -> bool {
    let Reply::Ipc(reply) = &receipt.reply else {
        return false;
    };
    receipt.end == transfer_of(round)
        && receipt.start == transfer_of(round) - 2
        && reply.words.as_slice() == &message(round)[1..]
}

/// Makes the third thread, and sends all messages.
fn exchange_all(rt: &impl Abort, locked: &mut Locked, root: &mut Seat, third: &mut Seat) {
    assert!(rt; locked.enter(root, create(THIRD)).is_ok());
    for round in 0..ROUNDS {
        exchange(rt, locked, root, third, round);
    }
}

/// Judges the receipts of both seats.
fn check_receipts(rt: &impl Abort, root: &Seat, third: &Seat) {
    assert_eq!(rt; root.receipts().len(), ROUNDS as usize + 1);
    assert_eq!(rt; third.receipts().len(), ROUNDS as usize);
    for round in 0..ROUNDS {
        let sent = root
            .receipts()
            .get(round as usize + 1)
            .expect(rt, "a receipt");
        assert!(rt; has_sent(&sent, round));
        let received = third.receipts().get(round as usize).expect(rt, "a receipt");
        assert!(rt; has_received(&received, round));
    }
}

/// Each receipt has its message, in both seats and for the lock that closes with them.
#[test]
fn long_messages(rt: HostRuntime) {
    let mut locked = new_locked(&rt, rt.alloc());
    let mut root = seat_of(&rt, &mut locked, ROOT);
    let mut third = seat_of(&rt, &mut locked, THIRD);
    exchange_all(&rt, &mut locked, &mut root, &mut third);
    check_receipts(&rt, &root, &third);
    let seats = list(&rt, rt.alloc(), [root, third]);
    assert!(rt; locked.close(seats).is_ok());
}

/// A lock hands out its entries while the third thread waits for the message of the second round. Root's seat forgets its receipts, and the
/// other one keeps them.
fn exchange_around_a_segment(
    rt: &impl Abort,
    locked: &mut Locked,
    root: &mut Seat,
    third: &mut Seat,
) {
    assert!(rt; locked.enter(root, create(THIRD)).is_ok());
    exchange(rt, locked, root, third, 0);
    assert!(rt; locked.enter(third, receive()).is_ok());
    assert!(rt; locked.hand_out().is_some());
    root.forget();
    assert!(rt; locked.enter(root, send(THIRD, &message(1))).is_ok());
    assert!(rt; locked.take(third).is_some());
}

/// Judges what the seats keep then.
fn check_kept(rt: &impl Abort, root: &Seat, third: &Seat) {
    assert_eq!(rt;
        (root.receipts().len(), root.receipts().kept_from()),
        (3, 2)
    );
    assert_eq!(rt;
        (third.receipts().len(), third.receipts().kept_from()),
        (2, 0)
    );
    assert!(rt; root.receipts().get(1).is_none());
    let sent = root.receipts().get(2).expect(rt, "a receipt");
    assert!(rt; has_sent(&sent, 1));
    assert_eq!(rt; root.receipts().receipts_from(0).count(), 1);
    let received = third.receipts().get(1).expect(rt, "a receipt");
    assert!(rt; has_received(&received, 1));
    assert_eq!(rt; third.receipts().receipts_from(0).count(), 2);
}

/// Receipts of later calls continue the numbers, and the lock closes with both seats.
#[test]
fn forgotten_receipts(rt: HostRuntime) {
    let mut locked = new_locked(&rt, rt.alloc());
    let mut root = seat_of(&rt, &mut locked, ROOT);
    let mut third = seat_of(&rt, &mut locked, THIRD);
    exchange_around_a_segment(&rt, &mut locked, &mut root, &mut third);
    check_kept(&rt, &root, &third);
    assert_eq!(rt; (locked.kept_from(), locked.count()), (5, 7));
    let seats = list(&rt, rt.alloc(), [root, third]);
    assert!(rt; locked.close(seats).is_ok());
}
