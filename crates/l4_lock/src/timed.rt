//! Calls with a limit on their wait, through the lock that threads share.
ghost use Rattle.std.specs.Prelude.{◌≡◌, IfOk, IfErr, OnErr, MatchOption};
ghost use Rattle.l4_lock.specs.Shared.{IsAnswered, LeavesWaiting, IsTaken, Declines};

use crate::locked::Locked;
use crate::refusals::LockRefusal;
use crate::seats::Seat;
use crate::shared::{Began, KernelLock, enter_kept, take_own};
use l4_ipc::{Call, Reply};
use std::sync::atomic::Ordering;
use std::sync::{CondvarTimeouts, Wait};
use std::time::{Clock, Duration, Instant};

/// Returns how much longer a wait may last that began at this time. Returns `None` if the time is up, or the clock cannot be read.
fn time_left<C: Clock>(clock: &C, begin: Option<Instant>, limit: Duration) -> Option<Duration> {
    let passed = begin?.elapsed(clock).ok()?;
    let left = limit.checked_sub(passed)?;
    if left.is_zero() { None } else { Some(left) }
}

/// Takes the reply of a call that was left waiting and has ended since.
fn take_kept(locked: &mut Locked, seat: &mut Seat) -> Option<Reply>
    ensures { MatchOption result (seat.new ≡ seat.old) (IsTaken seat.old seat.new) }
{
    locked.law_kept();
    locked.take(seat)
}

impl KernelLock {
    /// Enters a call as `call` does, and waits at most this long until it has ended. Returns `None` if it has not ended by then, or if
    /// `end_waits` was called meanwhile. Then the call continues, and `take` or `wait_for` returns its reply.
    ///
    /// Returns the refusals of `call`. While an earlier call of the seat waits, the refusal is `Kernel(Busy)`.
    pub fn call_for<R: Wait + Clock>(
        &self,
        rt: &R,
        seat: &mut Seat,
        call: Call,
        limit: Duration,
    ) -> Result<Option<Reply>, LockRefusal>
        ensures ok { IfOk result
            (λ ended. MatchOption ended (LeavesWaiting seat.old seat.new call) (IsAnswered seat.old seat.new call)) }
        ensures err { OnErr result (seat.new ≡ seat.old) }
        ensures refuses { IfErr result (λ e. Declines seat.old.number call e) }
    {
        let begin = Instant::now(rt).ok();
        let mut guard = self.locked.lock(rt);
        let ends = self.ends.load(Ordering::SeqCst);
        let began = match enter_kept(&mut guard, seat, call) {
            Ok(began) => began,
            Err(refusal) => return Err(refusal),
        };
        self.ended.notify_all();
        let own = match began {
            Began::Done(reply) => return Ok(Some(reply)),
            Began::Waits(own) => own,
        };
        for _ in rt.forever() {
            if let Some(reply) = take_own(&mut guard, seat, &own) {
                return Ok(Some(reply));
            }
            if self.ends.load(Ordering::SeqCst) != ends {
                return Ok(None);
            }
            let Some(left) = time_left(rt, begin, limit) else {
                return Ok(None);
            };
            guard = self.ended.wait_timeout(rt, guard, left).0;
        }
        unreachable!()
    }

    /// Takes the reply of a call that was left waiting and has ended since. Returns `None` if it still waits, or if there is no such call.
    /// This function waits for the lock alone.
    pub fn take<R: Wait>(&self, rt: &R, seat: &mut Seat) -> Option<Reply>
        ensures { MatchOption result (seat.new ≡ seat.old) (IsTaken seat.old seat.new) }
    {
        let mut guard = self.locked.lock(rt);
        take_kept(&mut guard, seat)
    }

    /// Waits at most this long until a call that was left waiting has ended, and takes its reply. Returns `None` if it has not ended by
    /// then, if `end_waits` was called meanwhile, or if there is no such call.
    pub fn wait_for<R: Wait + Clock>(
        &self,
        rt: &R,
        seat: &mut Seat,
        limit: Duration,
    ) -> Option<Reply>
        ensures { MatchOption result (seat.new ≡ seat.old) (IsTaken seat.old seat.new) }
    {
        let begin = Instant::now(rt).ok();
        let mut guard = self.locked.lock(rt);
        let ends = self.ends.load(Ordering::SeqCst);
        for _ in rt.forever() {
            if let Some(reply) = take_kept(&mut guard, seat) {
                return Some(reply);
            }
            if seat.waiting() == 0 || self.ends.load(Ordering::SeqCst) != ends {
                return None;
            }
            let Some(left) = time_left(rt, begin, limit) else {
                return None;
            };
            guard = self.ended.wait_timeout(rt, guard, left).0;
        }
        unreachable!()
    }

    /// Ends all waits that have a limit: each `call_for` or `wait_for` that waits now returns `None`, unless its call has ended. The calls
    /// continue.
    pub fn end_waits<R: Wait>(&self, rt: &R) {
        let _guard = self.locked.lock(rt);
        self.ends.fetch_add(1, Ordering::SeqCst);
        self.ended.notify_all();
    }
}
