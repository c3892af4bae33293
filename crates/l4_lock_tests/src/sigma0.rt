//! Sigma0 as a loop of a gate, on a thread of its own.

use crate::calls::{FRAMES, ROOT, SIGMA0, id, list, new_lock, seat, send};
use arrayvec::ArrayVec;
use l4_ipc::{Call, Fpage, Kernel, MAX_WORDS, PageSize, Rights, Timeout};
use l4_lock::{KernelLock, LockRefusal, Seat};
use l4_pager::{Gate, answering, brought, wait};
use l4_sigma0::Sigma0;
use std::process::Abort;
use std::sync::Wait;
use std::thread::{Threads, join};

/// The space of root, who alone asks here.
const ROOT_SPACE: u64 = 1;

/// The pages that root asks for, the second one twice.
const PAGES: [u16; 3] = [5, 9, 9];

/// A page beyond the frames.
const BEYOND: u16 = FRAMES as u16;

/// How many requests there are: of the pages, and of one beyond the frames.
const REQUESTS: u32 = 4;

/// The entries of a history in which each request and each answer has a start and a transfer; sigma0 also waits at first, and root sends
/// it a message without words at last.
const ENTRIES: usize = 4 * REQUESTS as usize + 3;

/// Waits for a message from any thread, and then answers this number of requests by the table, turn by turn, each in the call that waits for the
/// next one. Returns how many there were.
fn answer_requests<G: Gate>(gate: &mut G, sigma0: &mut Sigma0, requests: u32) -> u32 {
    let Ok(mut reply) = gate.enter(wait()) else {
        return 0;
    };
    for answers in 0..requests {
        let Some((sender, message)) = brought(&reply) else {
            return answers;
        };
        let answer = sigma0.answer(ROOT_SPACE, &message);
        let Ok(next) = gate.enter(answering(sender, &answer)) else {
            return answers;
        };
        reply = next;
    }
    requests
}

/// Plays sigma0, with its seat, and gives the seat back.
fn play<R: Wait>(rt: &R, lock: &KernelLock, seat: Seat) -> (Seat, u32) {
    let mut gate = lock.gate(rt, seat);
    let mut sigma0 = Sigma0::new(FRAMES, PageSize::Kib4);
    let answers = answer_requests(&mut gate, &mut sigma0, REQUESTS);
    (gate.into_seat(), answers)
}

/// Asks sigma0 for the frame of a page, and receives its answer with a complete window.
fn request(page: u16) -> Call {
    let mut registers: ArrayVec<u32, MAX_WORDS> = ArrayVec::new();
    let _ = registers.try_extend_from_slice(&[0xffa0_0002, u32::from(page) * 4096 + 0xc0, 0]);
    Call::call(
        id(SIGMA0),
        registers,
        Fpage::Complete(Rights::all()),
        Timeout::Never,
        Timeout::Never,
    )
}

/// Root asks for all pages and for one beyond the frames, and then ends sigma0's last wait.
fn ask<R: Wait>(rt: &R, lock: &KernelLock, root: &mut Seat) -> Result<(), LockRefusal> {
    for page in PAGES {
        lock.call(rt, root, request(page))?;
    }
    lock.call(rt, root, request(BEYOND))?;
    lock.call(rt, root, send(SIGMA0, &[0]))?;
    Ok(())
}

/// Judges what root's space shows.
fn judge(rt: &impl Abort, kernel: &Kernel) {
    for page in PAGES {
        let number = u32::from(page);
        let mapping = kernel.mapping(ROOT_SPACE, number).expect(rt, "a page");
        assert_eq!(rt; mapping.frame, number);
        assert_eq!(rt; mapping.rights, Rights::all());
    }
    assert!(rt; kernel.mapping(ROOT_SPACE, u32::from(BEYOND)).is_none());
    assert!(rt; kernel.mapping(ROOT_SPACE, 0).is_none());
}

/// Has sigma0 and root act. Answers sigma0's seat.
fn serve_root<R: Threads + Wait + Sync + Abort>(
    rt: &R,
    lock: &KernelLock,
    sigma0: Seat,
    root: &mut Seat,
) -> Seat {
    let ((sigma0, answers), asked) = join(rt, || play(rt, lock, sigma0), || ask(rt, lock, root));
    assert_eq!(rt; asked, Ok(()));
    assert_eq!(rt; answers, REQUESTS);
    sigma0
}

/// Judges the history and the kernel of a lock that is closed with its seats.
fn judge_closed(rt: &impl Abort, lock: KernelLock, seats: Vec<Seat>) {
    match lock.unlock().close(seats) {
        Ok((history, kernel)) => {
            assert_eq!(rt; history.len(), ENTRIES);
            judge(rt, &kernel);
        }
        Err(_) => panic!(rt; "not closed"),
    }
}

#[test]
fn sigma0_is_served_by_a_gate(rt: HostRuntime) {
    let lock = new_lock(&rt, rt.alloc());
    let sigma0 = seat(&rt, &lock, SIGMA0);
    let mut root = seat(&rt, &lock, ROOT);
    let sigma0 = serve_root(&rt, &lock, sigma0, &mut root);
    let seats = list(&rt, rt.alloc(), [sigma0, root]);
    judge_closed(&rt, lock, seats);
}
