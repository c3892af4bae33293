//! The locked kernel with its seats, and the provenance of a page.

use crate::kernel::{create, receive, send};
use crate::lock::{show_history, show_seat};
use crate::{end_memory, kernel, stop};
use l4_ipc::{Call, Outcome, PageSize, Place};
use l4_record::ChainLink;
use l4_seated_lock::{LockRefusal, SeatedLock};
use std::alloc::Global;
use std::io;

const FRAMES: u32 = 8;

/// The numbers whose seats are given: sigma0, the root and the two threads that it makes.
const SEATS: u32 = 4;

/// The calls that are entered.
const CALLS: usize = 6;

/// The message that maps page 4 with all rights, to page 1,024.
const FIRST: [u32; 3] = [0x80, 0x40_0008, 0x40c7];

/// The message that maps page 1,024 to be read, to page 7.
const SECOND: [u32; 3] = [0x80, 0x7008, 0x40_00c4];

/// The page to which both messages bring sigma0's page 4.
const PAGE: Place = Place { space: 3, page: 7 };

/// Returns the number of a seat and what it enters: each thread that sends waits for the one that receives.
fn asked(call: usize) -> (u32, Call) {
    match call {
        0 => (2, create(3)),
        1 => (2, create(4)),
        2 => (1, send(3, &FIRST)),
        3 => (3, receive()),
        4 => (3, send(4, &SECOND)),
        _ => (4, receive()),
    }
}

/// Prints each seat that was given.
fn show_seats(rt: &impl Print, lock: &SeatedLock) -> io::Result<()> {
    for number in 1..SEATS + 1 {
        if let Some(seat) = lock.seat(number) {
            show_seat(rt, seat)?;
        }
    }
    Ok(())
}

/// Prints the history, the seats and the kernel.
fn show(rt: &impl Print, lock: &SeatedLock) -> io::Result<()> {
    show_history(rt, lock.history())?;
    show_seats(rt, lock)?;
    kernel::show(rt, lock.kernel())
}

/// Prints what was done, and all that `show` tells.
fn show_done(rt: &impl Print, done: &str, lock: &SeatedLock) -> io::Result<()> {
    println!(rt; "done {done}")?;
    show(rt, lock)
}

/// Returns whether the last step of the history found no memory.
fn lacks(lock: &SeatedLock) -> bool {
    let history = lock.history();
    match history.get(history.len().wrapping_sub(1)) {
        Some(entry) => entry.answer.outcome == Outcome::NoMemory,
        None => false,
    }
}

/// Gives all seats, and enters the calls up to this one.
fn enter_up_to(lock: &mut SeatedLock, last: usize) -> Result<(), LockRefusal> {
    for number in 1..=SEATS {
        lock.give(number)?;
    }
    for call in 0..=last {
        enter_once(lock, call)?;
    }
    Ok(())
}

/// Returns a lock in which that was done, where there is memory for all of it.
fn entered(alloc: Global, last: usize) -> io::Result<SeatedLock> {
    let Ok(mut lock) = SeatedLock::new(alloc, FRAMES, PageSize::Kib4) else {
        return Err(stop());
    };
    match enter_up_to(&mut lock, last) {
        Ok(()) => Ok(lock),
        Err(_) => Err(stop()),
    }
}

fn enter_once(lock: &mut SeatedLock, call: usize) -> Result<(), LockRefusal> {
    let (number, call) = asked(call);
    match lock.enter(number, call) {
        Ok(_) => Ok(()),
        Err(refusal) => Err(refusal),
    }
}

/// Gives the seat of a number.
fn give(rt: &impl Print, lock: &mut SeatedLock, number: u32) -> io::Result<()> {
    if let Err(refusal) = lock.give(number) {
        println!(rt; "refused give {refusal:?}")?;
        show(rt, lock)?;
        if lock.give(number).is_err() {
            return Err(stop());
        }
    }
    show_done(rt, "give", lock)
}

/// Prints that a transfer found no memory, which it finds when the history is replayed, and continues with a lock in which it found some.
fn renew<R: AllocGlobal + Print>(rt: &R, lock: &mut SeatedLock, call: usize) -> io::Result<()> {
    let Err(fault) = lock.provenance(rt.alloc(), PAGE) else {
        return Err(stop());
    };
    println!(rt; "lacked enter_by_seat NoMemory {fault:?}")?;
    show(rt, lock)?;
    *lock = entered(rt.alloc(), call)?;
    Ok(())
}

/// Enters a call.
fn enter<R: AllocGlobal + Print>(rt: &R, lock: &mut SeatedLock, call: usize) -> io::Result<()> {
    if let Err(refusal) = enter_once(lock, call) {
        println!(rt; "refused enter_by_seat {refusal:?}")?;
        show(rt, lock)?;
        if enter_once(lock, call).is_err() {
            return Err(stop());
        }
    }
    if lacks(lock) {
        renew(rt, lock, call)?;
    }
    show_done(rt, "enter_by_seat", lock)
}

/// Prints links.
fn show_links(rt: &impl Print, links: &[ChainLink]) -> io::Result<()> {
    print!(rt; "done provenance")?;
    for link in links {
        print!(rt; " {link:?}")?;
    }
    println!(rt; "")
}

/// Returns how the page got there, once more if memory ran out.
fn provenance<R: AllocGlobal + Print>(rt: &R, lock: &SeatedLock) -> io::Result<Vec<ChainLink>> {
    for _ in 0..2 {
        match lock.provenance(rt.alloc(), PAGE) {
            Ok(Some(links)) => {
                show_links(rt, links.as_slice())?;
                show(rt, lock)?;
                return Ok(links);
            }
            Ok(None) => return Err(stop()),
            Err(fault) => {
                println!(rt; "refused provenance {fault:?}")?;
                show(rt, lock)?;
            }
        }
    }
    Err(stop())
}

/// Returns whether the links are that, once more if memory ran out.
fn check<R: AllocGlobal + Print>(rt: &R, lock: &SeatedLock, links: &[ChainLink]) -> io::Result<()> {
    for _ in 0..2 {
        match lock.check_provenance(rt.alloc(), PAGE, links) {
            Ok(right) => {
                println!(rt; "done check_provenance {right}")?;
                return show(rt, lock);
            }
            Err(fault) => {
                println!(rt; "refused check_provenance {fault:?}")?;
                show(rt, lock)?;
            }
        }
    }
    Err(stop())
}

/// Takes the replies that were left waiting, and looks how the page got there.
fn trace<R: AllocGlobal + Input + Print>(rt: &R, lock: &mut SeatedLock) -> io::Result<()> {
    end_memory(rt)?;
    for number in [1, 3] {
        let reply = lock.take(number);
        println!(rt; "done take {reply:?}")?;
        show(rt, lock)?;
    }
    let links = provenance(rt, lock)?;
    check(rt, lock, links.as_slice())
}

/// Gives seats, enters calls that bring a page to where it is, and looks how it came there.
fn tell_calls<R: AllocGlobal + Input + Print>(rt: &R, lock: &mut SeatedLock) -> io::Result<()> {
    show_done(rt, "new_seated", lock)?;
    for number in 1..=SEATS {
        give(rt, lock, number)?;
    }
    for call in 0..CALLS {
        enter(rt, lock, call)?;
    }
    trace(rt, lock)
}

/// Makes a lock and does that. Returns whether there was memory for it.
fn tell_once<R: AllocGlobal + Input + Print>(rt: &R) -> io::Result<bool> {
    let Ok(mut lock) = SeatedLock::new(rt.alloc(), FRAMES, PageSize::Kib4) else {
        println!(rt; "refused new_seated\n.")?;
        return Ok(false);
    };
    tell_calls(rt, &mut lock)?;
    Ok(true)
}

pub fn tell<R: AllocGlobal + Input + Print>(rt: &R) -> io::Result<()> {
    if tell_once(rt)? || tell_once(rt)? {
        return Ok(());
    }
    Err(stop())
}
