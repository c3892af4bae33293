//! The locked kernel under a lock that threads share.
ghost use Rattle.std.specs.Prelude.{◌≡◌, ◌⊎◌, ◌+◌, ◌≤◌, ℕ, List, [], ◌∷◌, ◌++◌, drop, length, vec_len, map, IfOk, IfErr, OnErr, MatchOption, MatchResult};
ghost use Rattle.std.specs.List.{All};
ghost use Rattle.l4_fpage.specs.Pages.{max_frames};
ghost use Rattle.l4_board.specs.Board.{IsNewWatch};
ghost use Rattle.l4_lock.specs.Books.{seat_state};
ghost use Rattle.l4_lock.specs.Locked.{IsKept, RefusesBoot};
ghost use Rattle.l4_lock.specs.Inside.Sharing.{EndsOrWaits, TakesOwn};
ghost use Rattle.l4_lock.specs.Shared.{IsAnswered, IsCanceled, Declines, DeclinesCancel, DeclinesSeat, IsHandedOut, EndsSegments, gate_state, pairs_of};

use crate::entries::{Awaited, copy_call};
use crate::locked::Locked;
use crate::refusals::{Entered, LockRefusal};
use crate::seats::Seat;
use l4_board::{Board, Watch};
use l4_ipc::{Call, CancelCause, PageSize, Reply};
use l4_pager::{Gate, GateFault};
use l4_record::Segment;
use std::alloc::Global;
use std::marker::Model;
use std::sync::atomic::AtomicU64;
use std::sync::{Condvar, Mutex, Wait};

/// A locked kernel that threads share, and its board. Contracts see which board it is. They know the invariant of `Locked` for the value
/// under the lock, but not the value.
#[derive(Drop)]
pub struct KernelLock {
    pub(crate) locked: Mutex<Locked>,
    pub(crate) ended: Condvar,
    /// How often the waits with a limit were ended.
    pub(crate) ends: AtomicU64,
    board: Board,
}

impl Model for KernelLock {
    ghost use Rattle.atomic_table.specs.Seated.{TableId, table_id_coded};

    ghost Value = { TableId };

    ghost coded = { table_id_coded };

    ghost view = { λ l. l.board };
}

/// The state of a call that was entered under the lock.
#[derive(Drop)]
pub(crate) enum Began {
    /// It has ended with this reply.
    Done(Reply),
    /// It has not ended.
    Waits(Awaited),
}

/// Enters a call into the locked kernel that is under the lock.
pub(crate) fn enter_kept(
    locked: &mut Locked,
    seat: &mut Seat,
    call: Call,
) -> Result<Began, LockRefusal>
    ensures ok { IfOk result (EndsOrWaits seat.old seat.new call) }
    ensures err { OnErr result (seat.new ≡ seat.old) }
    ensures refuses { IfErr result (Declines seat.old.number call) }
{
    locked.law_kept();
    let own = Awaited {
        call: copy_call(&call),
        start: locked.count(),
    };
    let entered = match locked.enter(seat, call) {
        Ok(entered) => entered,
        Err(refusal) => return Err(refusal),
    };
    locked.law_kept();
    if let Entered::Done(reply) = entered {
        return Ok(Began::Done(reply));
    }
    Ok(Began::Waits(own))
}

/// Takes the reply of this call of the seat, which was left waiting, if it has ended since.
pub(crate) fn take_own(locked: &mut Locked, seat: &mut Seat, own: &Awaited) -> Option<Reply>
    ensures { MatchOption result (seat.new ≡ seat.old) (TakesOwn seat.old seat.new own.now) }
{
    locked.law_kept();
    locked.take_for(seat, own)
}

impl KernelLock {
    /// Boots a kernel with 1 to 4,096 frames of this size under a lock. Returns it with watches of its board.
    ///
    /// Returns `Kernel(BadFrames)` (L5) for any other number of frames. Returns `NoMemory` (L2), or `Kernel` with it, if an allocation
    /// fails.
    pub fn new(
        alloc: Global,
        frames: u32,
        size: PageSize,
        watches: usize,
    ) -> Result<(KernelLock, Vec<Watch>), LockRefusal>
        ensures { MatchResult result
            (λ r. (1 ≤ frames) × (frames ≤ max_frames) × (vec_len r.1 ≡ watches) × All (IsNewWatch r.0) r.1.items)
            (RefusesBoot frames) }
    {
        match Locked::new(alloc, frames, size, watches) {
            Ok((locked, board, watches)) => Ok((
                KernelLock {
                    locked: Mutex::new(locked),
                    ended: Condvar::new(),
                    ends: AtomicU64::new(0),
                    board,
                },
                watches,
            )),
            Err(refusal) => Err(refusal),
        }
    }

    /// Returns the board.
    pub fn board(&self) -> &Board
        ensures { result.now ≡ self.now }
    {
        &self.board
    }

    /// Gives the number its seat, once.
    ///
    /// Returns these refusals, tested in this order: `SeatTaken` (L4), if the number has an account under the lock; `NoMemory` (L2).
    pub fn seat<R: Wait>(&self, rt: &R, number: u32) -> Result<Seat, LockRefusal>
        ensures { MatchResult result (λ s. s ≡ seat_state number 0 []) (DeclinesSeat number) }
    {
        let mut guard = self.locked.lock(rt);
        guard.law_kept();
        let seat = match guard.seat(number) {
            Ok(seat) => seat,
            Err(refusal) => return Err(refusal),
        };
        Ok(seat)
    }

    /// Enters a call, and waits until it has ended; the lock is free meanwhile. The seat gains a receipt with this call and the reply, which
    /// is the machine's. The receipt starts at the place in the history at which the call was entered.
    ///
    /// Returns the refusals of `Locked::enter`, in the same order, for the state under the lock at that time. After a refusal, the seat is
    /// unchanged.
    pub fn call<R: Wait>(&self, rt: &R, seat: &mut Seat, call: Call) -> Result<Reply, LockRefusal>
        ensures ok { IfOk result (λ reply. IsAnswered seat.old seat.new call reply) }
        ensures err { OnErr result (seat.new ≡ seat.old) }
        ensures refuses { IfErr result (λ e. Declines seat.old.number call e) }
    {
        let mut guard = self.locked.lock(rt);
        let began = match enter_kept(&mut guard, seat, call) {
            Ok(began) => began,
            Err(refusal) => return Err(refusal),
        };
        self.ended.notify_all();
        let own = match began {
            Began::Done(reply) => return Ok(reply),
            Began::Waits(own) => own,
        };
        for _ in rt.forever() {
            if let Some(reply) = take_own(&mut guard, seat, &own) {
                return Ok(reply);
            }
            guard = self.ended.wait(rt, guard);
        }
        unreachable!()
    }

    /// Cancels the wait of a thread, and wakes the callers that wait: the caller of the call that ended returns its reply.
    ///
    /// Returns the refusals of `Locked::cancel`, in the same order, for the state under the lock at that time.
    pub fn cancel<R: Wait>(
        &self,
        rt: &R,
        number: u32,
        cause: CancelCause,
    ) -> Result<(), LockRefusal>
        ensures ok { IfOk result (λ _. IsCanceled number cause) }
        ensures refuses { IfErr result (λ e. DeclinesCancel number cause e) }
    {
        let mut guard = self.locked.lock(rt);
        guard.law_kept();
        guard.cancel(number, cause)?;
        self.ended.notify_all();
        Ok(())
    }

    /// Hands out the entries that are kept under the lock, as a segment. From then on, the entries of later calls are kept only. Their
    /// numbers continue.
    ///
    /// Returns `None` if more than 2^63 entries were recorded since boot. Then nothing has changed.
    pub fn hand_out<R: Wait>(&self, rt: &R) -> Option<Segment>
        ensures { MatchOption result EndsSegments IsHandedOut }
    {
        let mut guard = self.locked.lock(rt);
        guard.law_kept();
        guard.hand_out()
    }

    /// Returns a gate that enters calls of the seat.
    pub fn gate<'a, R: Wait>(&'a self, rt: &'a R, seat: Seat) -> LockGate<'a, R>
        ensures { result ≡ gate_state (length seat.receipts) seat }
    {
        let first = seat.receipts().len();
        LockGate {
            lock: self,
            rt,
            first,
            seat,
        }
    }

    /// Returns the locked kernel, with its invariant. No thread can hold the lock, so the call does not wait.
    pub fn unlock(self) -> Locked
        ensures { IsKept result }
    {
        let KernelLock {
            locked,
            ended: _,
            ends: _,
            board: _,
        } = self;
        let locked = locked.into_inner();
        locked.law_kept();
        locked
    }
}

/// A gate of a lock, with the seat whose calls it enters. Contracts see the seat, and the number of receipts that it had when the gate was
/// made.
pub struct LockGate<'a, R: Wait> {
    lock: &'a KernelLock,
    rt: &'a R,
    first: usize,
    seat: Seat,
}

impl<'a, R: Wait> Model for LockGate<'a, R> {
    ghost use Rattle.std.specs.Prelude.{◌≤◌, length};
    ghost use Rattle.l4_lock.specs.Shared.{GateState, gate_state};

    ghost Value = { GateState };

    ghost view = { λ g. gate_state g.first g.seat };

    ghost invariant = { λ g. g.first ≤ length g.seat.receipts };
}

impl<'a, R: Wait> LockGate<'a, R> {
    /// Returns the seat.
    pub fn into_seat(self) -> Seat
        ensures { result ≡ self.entry.seat }
    {
        let LockGate {
            lock: _,
            rt: _,
            first: _,
            seat,
        } = self;
        seat
    }
}

/// The calls and replies of the gate are the receipts that its seat gained.
impl<'a, R: Wait> Gate for LockGate<'a, R> {
    ghost use Rattle.std.specs.Prelude.{◌≡◌};
    ghost use Rattle.l4_lock.specs.Shared.{pairs_of, GateAccepts, GateRefuses};

    ghost pairs = { λ g. pairs_of g };

    ghost accepts = { λ before call reply after. GateAccepts before call reply after };

    ghost refuses = { λ before call fault after. GateRefuses before call fault after };

    fn enter(&mut self, call: Call) -> Result<Reply, GateFault> {
        let reply = match self.lock.call(self.rt, &mut self.seat, call) {
            Ok(reply) => reply,
            Err(refusal) => {
                return Err(GateFault {
                    code: refusal.number(),
                });
            }
        };
        Ok(reply)
    }
}
