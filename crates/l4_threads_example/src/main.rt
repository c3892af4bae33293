//! Four threads share one kernel. One raises page faults, another serves their pager, sigma0 maps the pager's pages, and one more watches
//! the length of the history. The entries that created the threads are handed out before. The receipts of each seat are printed at the end:
//! they are the same in every schedule, and name entries by their numbers since boot.
#![tactic(auto)]

mod files;
mod parties;
mod printing;

use files::are_read_back;
use l4_lock::{KernelLock, Seat, Segment};
use parties::{CLIENT, PAGER, ROOT, Runs, SIGMA0, SIZE, create, run_all};
use printing::{print_client, print_receipts};
use std::alloc::Global;
use std::io;
use std::process::ExitCode;
use std::sync::Wait;
use std::thread::Threads;
use std::time::Clock;

/// The page frames of the machine.
const FRAMES: u32 = 64;

/// Why the example ended early.
#[derive(Debug, Drop)]
enum Stop {
    NoMemory,
    NoSeat,
    NotMade,
    NotHandedOut,
    NotClosed,
    Output(io::Error),
}

/// The seats of the threads.
#[derive(Drop)]
struct Seats {
    root: Seat,
    runs: Runs,
}

/// Takes the seats, and makes the two threads: a pager, and one whose faults go to it.
fn begin<R: Wait>(rt: &R, lock: &KernelLock) -> Result<Seats, Stop> {
    let (Ok(mut root), Ok(sigma0), Ok(pager), Ok(client)) = (
        lock.seat(rt, ROOT),
        lock.seat(rt, SIGMA0),
        lock.seat(rt, PAGER),
        lock.seat(rt, CLIENT),
    ) else {
        return Err(Stop::NoSeat);
    };
    for (number, pager) in [(PAGER, SIGMA0), (CLIENT, PAGER)] {
        if lock.call(rt, &mut root, create(number, pager)).is_err() {
            return Err(Stop::NotMade);
        }
    }
    Ok(Seats {
        root,
        runs: Runs {
            sigma0,
            pager,
            client,
        },
    })
}

/// Returns the seats in one list, by rising number.
fn listed(alloc: Global, seats: Seats) -> Result<Vec<Seat>, Stop> {
    let Seats { root, runs } = seats;
    let Runs {
        sigma0,
        pager,
        client,
    } = runs;
    Vec::from_array(alloc, [sigma0, root, pager, client]).map_err(|_| Stop::NoMemory)
}

/// Prints how many entries the segments have, and whether they are read back from their files.
fn tell_segments<R: AllocGlobal + Print>(
    rt: &R,
    watched: u64,
    segments: &[Segment; 2],
) -> Result<(), Stop> {
    let (earlier, kept) = (segments[0].history.len(), segments[1].history.len());
    println!(rt; "watched {watched} entries: {earlier} handed out, {kept} kept").map_err(
        Stop::Output,
    )?;
    let Ok(read) = are_read_back(rt.alloc(), FRAMES, SIZE, segments) else {
        return Err(Stop::NoMemory);
    };
    println!(rt; "segments fit, and are read back from their files: {read}").map_err(Stop::Output)
}

/// Runs the threads, and prints what each has to show.
fn tell<R: AllocGlobal + Print + Clock + Threads + Wait + Sync>(rt: &R) -> Result<(), Stop> {
    let Ok((lock, _)) = KernelLock::new(rt.alloc(), FRAMES, SIZE, 0) else {
        return Err(Stop::NoMemory);
    };
    let Seats { root, runs } = begin(rt, &lock)?;
    let Some(segment) = lock.hand_out(rt) else {
        return Err(Stop::NotHandedOut);
    };
    let (runs, watched) = run_all(rt, &lock, runs);
    let seats = listed(rt.alloc(), Seats { root, runs })?;
    for seat in &seats {
        print_receipts(rt, seat).map_err(Stop::Output)?;
    }
    let Ok((history, kernel)) = lock.unlock().close(seats) else {
        return Err(Stop::NotClosed);
    };
    print_client(rt, &kernel).map_err(Stop::Output)?;
    let first = segment.history.len();
    tell_segments(rt, watched, &[segment, Segment { first, history }])
}

fn main(rt: HostRuntime) -> ExitCode {
    match tell(&rt) {
        Ok(()) => ExitCode::from(0),
        Err(_) => ExitCode::from(1),
    }
}
