//! A fault waits for its pager, which another thread serves.

use crate::calls::{
    ROOT, SIGMA0, create, create_for, list, new_lock, receive, seat, send, starts_of,
};
use l4_ipc::{Call, Kernel, Mapping, PageSize, Reply, Rights};
use l4_lock::{History, KernelLock, Seat};
use l4_pager::{Entry, Gate, RegionPager, serve};
use std::alloc::{AllocError, Global};
use std::process::Abort;
use std::sync::atomic::{AtomicBool, Ordering};
use std::sync::{Arc, Wait};
use std::thread::{JoinHandle, Threads, join, sleep, spawn};
use std::time::{Clock, Duration};

/// The pager.
const PAGER: u32 = 4;

/// The thread whose fault it answers.
const FAULTER: u32 = 5;

/// The page of the fault, and the frame that its region gives.
const PAGE: u32 = 5;

const FRAME: u32 = 101;

/// How often a thread looks for a sign at most.
const LOOKS: u32 = 10_000;

/// What the threads show.
#[derive(Drop)]
struct Signs {
    /// The fault is about to be entered.
    entering: AtomicBool,
    /// It was answered.
    answered: AtomicBool,
    /// The pager has answered once, and what it waited for last has come.
    served: AtomicBool,
}

/// What the threads share.
type Shared<T> = Arc<T, Global>;

/// Looks for a sign once a millisecond. Returns whether it came.
pub fn comes(rt: &impl Clock, sign: &AtomicBool) -> bool {
    for _ in 0..LOOKS {
        if sign.load(Ordering::SeqCst) {
            return true;
        }
        sleep(rt, Duration::from_millis(1));
    }
    false
}

/// Raises the fault, and then sends the pager a message, so that its last wait ends.
fn raise<R: Wait>(rt: &R, lock: &KernelLock, signs: &Signs, seat: Seat) -> Seat {
    let mut gate = lock.gate(rt, seat);
    signs.entering.store(true, Ordering::SeqCst);
    let answer = gate.enter(Call::fault(0x5678, 0x40_0100, Rights::R));
    signs
        .answered
        .store(answer == Ok(Reply::Answered), Ordering::SeqCst);
    let _ = gate.enter(send(PAGER, &[0]));
    gate.into_seat()
}

/// Pages 4 to 7 from pages 100 to 103, read and execute.
fn regions() -> RegionPager {
    let mut regions = RegionPager::new(PageSize::Kib4);
    let _ = regions.add(Entry {
        first: 4,
        source: 100,
        count: 4,
        rights: Rights::R.union(Rights::X),
    });
    regions
}

/// Serves the pager for one turn, once the fault is about to be entered.
fn answer<R: Wait + Clock>(rt: &R, lock: &KernelLock, signs: &Signs, seat: Seat) -> Seat {
    let mut gate = lock.gate(rt, seat);
    if comes(rt, &signs.entering) {
        let answers = serve(&mut gate, &regions(), 1);
        signs.served.store(answers == Ok(1), Ordering::SeqCst);
    }
    gate.into_seat()
}

/// What a thread does with its seat.
#[derive(Clone, Copy)]
enum Part {
    Raise,
    Answer,
}

/// Starts a thread that plays this part.
fn start<R: Threads + Wait + Clock + Copy + Send + Drop + 'static>(
    rt: &R,
    lock: &Shared<KernelLock>,
    signs: &Shared<Signs>,
    seat: Seat,
    part: Part,
) -> Result<JoinHandle<Seat>, AllocError> {
    let (own, lock, signs) = (*rt, Arc::try_clone(lock)?, Arc::try_clone(signs)?);
    let play = move || match part {
        Part::Raise => raise(&own, &lock, &signs, seat),
        Part::Answer => answer(&own, &lock, &signs, seat),
    };
    Ok(spawn(rt, play)?)
}

/// Sigma0 maps the frame into the pager's space.
fn hand_out<R: Threads + Wait + Sync>(
    rt: &R,
    lock: &KernelLock,
    sigma0: &mut Seat,
    pager: &mut Seat,
) -> bool {
    let (sent, received) = join(
        rt,
        || lock
            .call(rt, sigma0, send(PAGER, &[0x80, 0x6_5008, 0x6_50c7]))
            .is_ok(),
        || lock.call(rt, pager, receive()).is_ok(),
    );
    sent && received
}

/// What the page of the fault shows.
fn page_of_fault(kernel: &Kernel) -> Option<Mapping> {
    kernel.mapping(kernel.space_of(FAULTER)?, PAGE)
}

/// Makes the two threads, and gives the pager its frame.
fn prepare<R: Threads + Wait + Sync + Abort>(
    rt: &R,
    lock: &KernelLock,
    root: &mut Seat,
    sigma0: &mut Seat,
    pager: &mut Seat,
) {
    assert!(rt; lock.call(rt, root, create(PAGER)).is_ok());
    assert!(rt; lock.call(rt, root, create_for(FAULTER, PAGER)).is_ok());
    assert!(rt; hand_out(rt, lock, sigma0, pager));
}

/// Runs the two threads to their end. Returns their seats.
fn run<R: Threads + Wait + Clock + Abort + AllocGlobal + Copy + Send + Drop + 'static>(
    rt: &R,
    lock: &Shared<KernelLock>,
    pager: Seat,
    faulter: Seat,
) -> (Seat, Seat) {
    let signs = Signs {
        entering: AtomicBool::new(false),
        answered: AtomicBool::new(false),
        served: AtomicBool::new(false),
    };
    let signs = Arc::new(rt.alloc(), signs).expect(rt, "memory");
    let raising = start(rt, lock, &signs, faulter, Part::Raise).expect(rt, "a thread");
    let answering = start(rt, lock, &signs, pager, Part::Answer).expect(rt, "a thread");
    assert!(rt; comes(rt, &signs.answered), "the fault is answered");
    assert!(rt; comes(rt, &signs.served), "the pager's turn ends");
    (answering.join(rt), raising.join(rt))
}

/// Judges the history and the page of the fault.
fn judge(rt: &impl Abort, history: &History, kernel: &Kernel) {
    assert_eq!(rt; history.len(), 12);
    assert_eq!(rt; starts_of(history, PAGER), 3);
    assert_eq!(rt; starts_of(history, FAULTER), 2);
    let mapping = page_of_fault(kernel).expect(rt, "a page");
    assert_eq!(rt; mapping.frame, FRAME);
    assert_eq!(rt; mapping.rights, Rights::R.union(Rights::X));
}

/// Judges what a lock that is closed with its seats leaves.
fn judge_closed(rt: &impl Abort, lock: KernelLock, seats: Vec<Seat>) {
    match lock.unlock().close(seats) {
        Ok((history, kernel)) => judge(rt, &history, &kernel),
        Err(_) => panic!(rt; "not closed"),
    }
}

#[test]
fn fault_waits_for_pager(rt: HostRuntime) {
    let lock = new_lock(&rt, rt.alloc());
    let mut sigma0 = seat(&rt, &lock, SIGMA0);
    let mut root = seat(&rt, &lock, ROOT);
    let mut pager = seat(&rt, &lock, PAGER);
    prepare(&rt, &lock, &mut root, &mut sigma0, &mut pager);
    let faulter = seat(&rt, &lock, FAULTER);
    let lock = Arc::new(rt.alloc(), lock).expect(&rt, "memory");
    let (pager, faulter) = run(&rt, &lock, pager, faulter);
    let seats = list(&rt, rt.alloc(), [sigma0, root, pager, faulter]);
    match Arc::try_unwrap(lock) {
        Ok(lock) => judge_closed(&rt, lock, seats),
        Err(_) => panic!(rt; "the threads have ended"),
    }
}
