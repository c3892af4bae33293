//! What each thread does.

use l4_ipc::{ArrayVec, Block, Call, Fpage, MAX_WORDS, PageSize, Rights, ThreadId, Timeout};
use l4_lock::{KernelLock, Seat};
use l4_msg::map_answer;
use l4_pager::{Entry, Gate, RegionPager, serve};
use std::sync::Wait;
use std::thread::{Threads, join, sleep};
use std::time::{Clock, Duration};

/// The threads that are there from the start.
pub const SIGMA0: u32 = 1;

pub const ROOT: u32 = 2;

/// The pager, and the thread whose faults it answers.
pub const PAGER: u32 = 3;

pub const CLIENT: u32 = 4;

/// The first page of the client that the pager fills, and how many faults the client raises, one page after another.
pub const FIRST_PAGE: u32 = 4;

const FAULTS: u32 = 3;

/// The first of the pager's pages, which are sigma0's of the same numbers, and the binary logarithm of how many there are.
const PAGER_PAGE: u32 = 16;

const PAGER_LOG: u8 = 2;

/// The entries of the history once the pager waits for its pages, and once it waits for the first fault.
const PAGER_WAITS: u64 = 3;

const PAGER_SERVES: u64 = 6;

/// The entries at the end: four for each fault, and two for the message that ends the pager's last wait.
pub const ENTRIES: u64 = 20;

/// How often a thread looks at the board at most.
const LOOKS: u32 = 10_000;

/// The bytes of a page.
const PAGE_BYTES: u32 = 4096;

/// The size of the machine's pages and frames.
pub const SIZE: PageSize = PageSize::Kib4;

/// The seats of the threads that run at the same time.
#[derive(Drop)]
pub struct Runs {
    pub sigma0: Seat,
    pub pager: Seat,
    pub client: Seat,
}

/// Returns the id of a thread.
pub fn id(number: u32) -> ThreadId {
    match ThreadId::global(number, 1) {
        Some(id) => id,
        None => ThreadId::nil(),
    }
}

/// Makes a thread in a space of its own.
pub fn create(number: u32, pager: u32) -> Call {
    Call::create(id(number), id(number), id(pager))
}

/// Looks at the board until it shows this many entries. Returns the last number that it showed, or 0 if one was below the one before.
fn watch(rt: &impl Clock, lock: &KernelLock, entries: u64) -> u64 {
    let mut watch = lock.board().watch();
    let mut last = 0u64;
    for _ in 0..LOOKS {
        let seen = lock.board().look(&mut watch);
        if seen < last {
            return 0;
        }
        last = seen;
        if seen >= entries {
            return last;
        }
        sleep(rt, Duration::from_millis(1));
    }
    last
}

/// Sigma0 maps the pager's pages, once the pager waits for them.
fn hand_out<R: Wait + Clock>(rt: &R, lock: &KernelLock, mut seat: Seat) -> Seat {
    watch(rt, lock, PAGER_WAITS);
    let Some(block) = Block::new(PAGER_PAGE, PAGER_LOG) else {
        return seat;
    };
    if block.lies_in(SIZE) {
        let pages = map_answer(
            PAGER_PAGE * PAGE_BYTES,
            Fpage::of_block(block, SIZE, Rights::all()),
        );
        let _ = lock.call(
            rt,
            &mut seat,
            Call::send(id(PAGER), pages.write(), Timeout::Never),
        );
    }
    seat
}

/// Returns a pager's table: pages of the client, and the pager's pages for them, to be read and executed.
fn regions() -> RegionPager {
    let mut regions = RegionPager::new(SIZE);
    let _ = regions.add(Entry {
        first: FIRST_PAGE,
        source: PAGER_PAGE,
        count: 1 << PAGER_LOG,
        rights: Rights::R.union(Rights::X),
    });
    regions
}

/// The pager takes its pages from sigma0, and then answers the faults.
fn answer_faults<R: Wait>(rt: &R, lock: &KernelLock, seat: Seat) -> Seat {
    let mut gate = lock.gate(rt, seat);
    let window = Fpage::Complete(Rights::all());
    let _ = gate.enter(Call::receive(id(SIGMA0), window, Timeout::Never));
    let _ = serve(&mut gate, &regions(), FAULTS);
    gate.into_seat()
}

/// Returns the registers of a message without words: its tag alone.
fn no_words() -> ArrayVec<u32, MAX_WORDS> {
    let mut registers = ArrayVec::new();
    registers.push(0);
    registers
}

/// The client raises its faults once the pager serves, and at the end sends it a message without words, so that its last wait ends.
fn raise_faults<R: Wait + Clock>(rt: &R, lock: &KernelLock, mut seat: Seat) -> Seat {
    watch(rt, lock, PAGER_SERVES);
    for page in FIRST_PAGE..FIRST_PAGE + FAULTS {
        let fault = Call::fault(page * PAGE_BYTES, 0, Rights::R);
        let _ = lock.call(rt, &mut seat, fault);
    }
    let _ = lock.call(
        rt,
        &mut seat,
        Call::send(id(PAGER), no_words(), Timeout::Never),
    );
    seat
}

/// Runs all, each in a thread of its own, and one more that watches until the history is complete.
pub fn run_all<R: Clock + Threads + Wait + Sync>(
    rt: &R,
    lock: &KernelLock,
    runs: Runs,
) -> (Runs, u64) {
    let Runs {
        sigma0,
        pager,
        client,
    } = runs;
    let ((sigma0, pager), (client, seen)) = join(
        rt,
        || {
            join(
                rt,
                || hand_out(rt, lock, sigma0),
                || answer_faults(rt, lock, pager),
            )
        },
        || {
            join(
                rt,
                || raise_faults(rt, lock, client),
                || watch(rt, lock, ENTRIES),
            )
        },
    );
    let runs = Runs {
        sigma0,
        pager,
        client,
    };
    (runs, seen)
}
