//! The locked kernel.
ghost use Rattle.std.specs.Prelude.{◌≡◌, IfOk};

use crate::kernel::{create, receive, send};
use crate::{end_memory, kernel, stop};
use l4_ipc::{Call, Kernel, PageSize, Refused};
use l4_lock::{Board, History, KernelLock, LockRefusal, Locked, Seat, Watch};
use std::alloc::Global;
use std::io;

const FRAMES: u32 = 8;

const ROOT: u32 = 2;

/// What a seat enters.
#[derive(Clone, Copy)]
enum Asked {
    Create,
    Receive,
    Send,
}

impl Asked {
    /// Returns the place of the seat that enters it.
    fn place(self) -> usize {
        match self {
            Asked::Create => 0,
            Asked::Receive => 1,
            Asked::Send => 0,
        }
    }

    fn call(self) -> Call {
        match self {
            Asked::Create => create(3),
            Asked::Receive => receive(),
            Asked::Send => send(3, &[2, 7, 8]),
        }
    }
}

/// Prints the history.
pub fn show_history(rt: &impl Print, history: &History) -> io::Result<()> {
    for entry in history.entries_from(0) {
        println!(rt; "entry {entry:?}")?;
    }
    Ok(())
}

/// Prints a seat and its receipts.
pub fn show_seat(rt: &impl Print, seat: &Seat) -> io::Result<()> {
    println!(rt;
        "seat {} starts {} waiting {}",
        seat.number(),
        seat.starts(),
        seat.waiting()
    )?;
    for receipt in seat.receipts().receipts_from(0) {
        println!(rt; "receipt {receipt:?}")?;
    }
    Ok(())
}

/// Prints the seats, and then the kernel.
fn show_seats(rt: &impl Print, seats: &[Seat], kernel: &Kernel) -> io::Result<()> {
    for seat in seats {
        show_seat(rt, seat)?;
    }
    kernel::show(rt, kernel)
}

/// Prints the board's word, the history, the seats and the kernel.
fn show(
    rt: &impl Print,
    locked: &Locked,
    seats: &[Seat],
    board: &Board,
    watch: &mut Watch,
) -> io::Result<()>
    requires { watch.old.board ≡ board.now }
    ensures { watch.new.board ≡ board.now }
{
    let word = board.look(watch);
    println!(rt; "board {word}")?;
    show_history(rt, locked.history())?;
    show_seats(rt, seats, locked.kernel())
}

/// Prints what was done, and all that `show` tells.
fn show_done(
    rt: &impl Print,
    done: &str,
    locked: &Locked,
    seats: &[Seat],
    board: &Board,
    watch: &mut Watch,
) -> io::Result<()>
    requires { watch.old.board ≡ board.now }
    ensures { watch.new.board ≡ board.now }
{
    println!(rt; "done {done}")?;
    show(rt, locked, seats, board, watch)
}

/// Lets a seat enter what is asked, and take the reply of the call before.
fn enter(
    rt: &impl Print,
    locked: &mut Locked,
    seats: &mut [Seat],
    asked: Asked,
    board: &Board,
    watch: &mut Watch,
) -> io::Result<()>
    requires { watch.old.board ≡ board.now }
    ensures { watch.new.board ≡ board.now }
{
    let place = asked.place();
    if place >= seats.len() {
        return Err(stop());
    }
    if let Err(refusal) = locked.enter(&mut seats[place], asked.call()) {
        println!(rt; "refused enter {refusal:?}")?;
        show(rt, locked, seats, board, watch)?;
        if locked.enter(&mut seats[place], asked.call()).is_err() {
            return Err(stop());
        }
    }
    show_done(rt, "enter", locked, seats, board, watch)
}

/// Returns the seat of a number.
fn seat(
    rt: &impl Print,
    locked: &mut Locked,
    number: u32,
    board: &Board,
    watch: &mut Watch,
) -> io::Result<Seat>
    requires { watch.old.board ≡ board.now }
    ensures { watch.new.board ≡ board.now }
{
    let seat = match locked.seat(number) {
        Ok(seat) => seat,
        Err(refusal) => {
            println!(rt; "refused seat {refusal:?}")?;
            show(rt, locked, &[], board, watch)?;
            let Ok(seat) = locked.seat(number) else {
                return Err(stop());
            };
            seat
        }
    };
    show_done(rt, "seat", locked, &[], board, watch)?;
    Ok(seat)
}

/// Returns the seats of the root and of the thread that it makes.
fn both_seats(
    rt: &impl Print,
    locked: &mut Locked,
    board: &Board,
    watch: &mut Watch,
) -> io::Result<(Seat, Seat)>
    requires { watch.old.board ≡ board.now }
    ensures { watch.new.board ≡ board.now }
{
    show_done(rt, "new_lock", locked, &[], board, watch)?;
    let root = seat(rt, locked, ROOT, board, watch)?;
    let third = seat(rt, locked, 3, board, watch)?;
    Ok((root, third))
}

/// Takes the reply of the second seat.
fn take(
    rt: &impl Print,
    locked: &mut Locked,
    seats: &mut [Seat],
    board: &Board,
    watch: &mut Watch,
) -> io::Result<()>
    requires { watch.old.board ≡ board.now }
    ensures { watch.new.board ≡ board.now }
{
    if seats.len() < 2 {
        return Err(stop());
    }
    let reply = locked.take(&mut seats[1]);
    println!(rt; "done take {reply:?}")?;
    show(rt, locked, seats, board, watch)
}

/// Lets the first seat make the second one's thread and send words to it, which the second one takes.
fn exchange<R: Input + Print>(
    rt: &R,
    locked: &mut Locked,
    seats: &mut [Seat],
    board: &Board,
    watch: &mut Watch,
) -> io::Result<()>
    requires { watch.old.board ≡ board.now }
    ensures { watch.new.board ≡ board.now }
{
    show_done(rt, "seats", locked, seats, board, watch)?;
    enter(rt, locked, seats, Asked::Create, board, watch)?;
    enter(rt, locked, seats, Asked::Receive, board, watch)?;
    enter(rt, locked, seats, Asked::Send, board, watch)?;
    end_memory(rt)?;
    take(rt, locked, seats, board, watch)
}

/// Prints the history's length and the kernel.
fn show_parts(rt: &impl Print, told: &str, history: &History, kernel: &Kernel) -> io::Result<()> {
    println!(rt; "{told} {}", history.len())?;
    kernel::show(rt, kernel)
}

/// Closes the lock, and tells the history's length and the kernel.
fn close(rt: &impl Print, locked: Locked, seats: Vec<Seat>) -> io::Result<()> {
    let Ok((history, kernel)) = locked.close(seats) else {
        return Err(stop());
    };
    show_parts(rt, "done close", &history, &kernel)
}

/// Prints that there was no memory for this.
fn refused(rt: &impl Print, told: &str) -> io::Result<bool> {
    println!(rt; "refused {told}\n.")?;
    Ok(false)
}

/// Lets a seat of another lock enter a call, which is refused. Returns whether its number was looked for: lack of memory comes before.
fn enter_foreign(rt: &impl Print, locked: &mut Locked, seat: &mut Seat) -> io::Result<bool> {
    let Err(refusal) = locked.enter(seat, create(3)) else {
        return Err(stop());
    };
    let (told, is_looked_for) = match refusal {
        LockRefusal::NoMemory => ("refused foreign NoMemory", false),
        LockRefusal::Kernel(Refused::UnknownThread) => ("done foreign UnknownThread", true),
        _ => return Err(stop()),
    };
    show_parts(rt, told, locked.history(), locked.kernel())?;
    Ok(is_looked_for)
}

/// Returns a seat of the root, of a lock of its own.
fn foreign_seat(alloc: Global) -> Result<Seat, LockRefusal> {
    let (mut other, _, _) = Locked::new(alloc, FRAMES, PageSize::Kib4, 0)?;
    other.seat(ROOT)
}

/// Returns a lock that threads may share, and a seat of another lock.
fn lock_and_seat(alloc: Global) -> Result<(KernelLock, Seat), LockRefusal> {
    let (lock, _) = KernelLock::new(alloc, FRAMES, PageSize::Kib4, 1)?;
    Ok((lock, foreign_seat(alloc)?))
}

/// Prints what was taken out of a lock, and lets a seat of another lock enter a call.
fn show_unlocked(rt: &impl Print, locked: &mut Locked, seat: &mut Seat) -> io::Result<()> {
    show_parts(rt, "done unlock", locked.history(), locked.kernel())?;
    if !enter_foreign(rt, locked, seat)? && !enter_foreign(rt, locked, seat)? {
        return Err(stop());
    }
    Ok(())
}

/// Takes a kernel out of a lock that threads may share, and lets a seat of another lock enter a call. Returns whether there was memory for
/// the locks.
fn unlock<R: AllocGlobal + Input + Print>(rt: &R) -> io::Result<bool> {
    let Ok((lock, mut seat)) = lock_and_seat(rt.alloc()) else {
        return refused(rt, "unlock");
    };
    end_memory(rt)?;
    let mut locked = lock.unlock();
    show_unlocked(rt, &mut locked, &mut seat)?;
    Ok(true)
}

/// Returns a lock with its board and a watch of it.
fn watched_lock(alloc: Global) -> Result<(Locked, Board, Watch), LockRefusal>
    ensures { IfOk result (λ made. made.2.board ≡ made.1) }
{
    let (locked, board, mut watches) = Locked::new(alloc, FRAMES, PageSize::Kib4, 1)?;
    match watches.pop() {
        Some(watch) => Ok((locked, board, watch)),
        None => Err(LockRefusal::NoMemory),
    }
}

/// Lets two seats exchange words, for which the list has room, and takes a reply.
fn tell_calls<R: Input + Print>(
    rt: &R,
    locked: &mut Locked,
    seats: &mut Vec<Seat>,
    board: &Board,
    watch: &mut Watch,
) -> io::Result<()>
    requires { watch.old.board ≡ board.now }
{
    let (root, third) = both_seats(rt, locked, board, watch)?;
    if seats.push(root).is_err() || seats.push(third).is_err() {
        return Err(stop());
    }
    exchange(rt, locked, seats.as_mut_slice(), board, watch)
}

/// Makes a lock, does that and closes it. Returns whether there was memory for a lock.
fn tell_once<R: AllocGlobal + Input + Print>(rt: &R) -> io::Result<bool> {
    let Ok(mut seats) = Vec::with_capacity(rt.alloc(), 2) else {
        return refused(rt, "new_lock");
    };
    let Ok((mut locked, board, mut watch)) = watched_lock(rt.alloc()) else {
        return refused(rt, "new_lock");
    };
    tell_calls(rt, &mut locked, &mut seats, &board, &mut watch)?;
    close(rt, locked, seats)?;
    Ok(true)
}

pub fn tell<R: AllocGlobal + Input + Print>(rt: &R) -> io::Result<()> {
    if !tell_once(rt)? && !tell_once(rt)? {
        return Err(stop());
    }
    if !unlock(rt)? && !unlock(rt)? {
        return Err(stop());
    }
    Ok(())
}
