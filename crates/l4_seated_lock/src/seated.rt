//! A locked kernel together with its seats.
ghost use Rattle.std.specs.Prelude.{◌≡◌, ◌≢◌, ◌⊎◌, ◌+◌, ◌↔◌, [], ◌∷◌, ◌++◌, None, Some, length, map, ◌<◌, IsTrue, IfOk, IfErr, IfSome, IfNone, MatchResult, MatchOption, false};
ghost use Rattle.l4_ipc.specs.Machine.{Machine, IsBoot};
ghost use Rattle.l4_record.specs.Chains.{IsProvenance, IsAbsent};
ghost use Rattle.l4_record.specs.Replays.{IsBootWith, IsReplayed, IsNotRepeated};
ghost use Rattle.l4_record.specs.Laws.{IsWholeRun};
ghost use Rattle.l4_record.specs.Segments.{kept};
ghost use Rattle.l4_record.specs.Sizes.{max_handed_out};
ghost use Rattle.l4_lock.specs.Books.{book, book_at, reply_waits, forgotten_seat};
ghost use Rattle.l4_lock.specs.Closing.{IsShown, Closes, Mismatches, by_history};
ghost use Rattle.l4_lock.specs.Locked.{IsKept, RefusesBoot, Refuses, Cancels, RefusesCancel, HandsOut};
ghost use Rattle.l4_lock.specs.declared.refusals.LockRefusal.TheVariants.{SeatTaken, NoMemory as WantOfMemory};
ghost use Rattle.l4_seated_lock.specs.Seated.{seat_at, seats_back, EntersBySeat, TakesBySeat, IsNotTraced};
ghost use Rattle.l4_seated_lock.specs.Inside.Places.{RefusesUnseated};

use crate::closing::mismatch;
use crate::faults::TraceFault;
use crate::places::position;
use l4_ipc::{Call, CancelCause, Kernel, PageSize, Place, Refused, Reply};
use l4_lock::{Entered, History, LockRefusal, Locked, Mismatch, Seat, Segment};
use l4_provenance::provenance;
use l4_provenance_check::check_provenance;
use l4_record::{ChainLink, ReplayFault};
use std::alloc::Global;
use std::marker::Model;

/// Forgets the receipts of these seats.
fn forget_all(seats: &mut Vec<Seat>)
    ensures { seats.new.items ≡ map forgotten_seat seats.old.items }
{
    for i in 0..seats.len() {
        seats[i].forget();
    }
}

/// A locked kernel and all seats that it gave. Contracts see the locked kernel, whose books state the content of each seat.
#[derive(Drop)]
pub struct SeatedLock {
    locked: Locked,
    seats: Vec<Seat>,
}

impl Model for SeatedLock {
    ghost use Rattle.std.specs.Prelude.{◌≡◌, ℕ};
    ghost use Rattle.l4_lock.specs.Locked.{Lock};
    ghost use Rattle.l4_lock.specs.contracts.locked.Locked as inner;
    ghost use Rattle.l4_seated_lock.specs.Seated.{seat_at};
    ghost use Rattle.l4_seated_lock.specs.Inside.Places.{found};

    ghost Value = { Lock };

    ghost coded = { inner.the_row.coded };

    ghost view = { λ a. a.locked };

    ghost invariant = { λ a. (n : ℕ) → found a.seats.items n ≡ seat_at a.locked.books n };
}

impl SeatedLock {
    /// Boots a kernel with 1 to 4,096 frames of this size, an empty history and no seats.
    ///
    /// Returns `Kernel(BadFrames)` (L5) for any other number of frames. Returns `NoMemory` (L2), or `Kernel` with it, if an allocation
    /// fails.
    pub fn new(alloc: Global, frames: u32, size: PageSize) -> Result<SeatedLock, LockRefusal>
        ensures { MatchResult result
            (λ l. (l.frames ≡ frames) × (l.kernel.size ≡ size) × IsBoot frames l.kernel × (l.history ≡ []) × (l.books ≡ []))
            (RefusesBoot frames) }
    {
        match Locked::new(alloc, frames, size, 0) {
            Ok((locked, _board, _watches)) => Ok(SeatedLock {
                locked,
                seats: Vec::new(alloc),
            }),
            Err(refusal) => Err(refusal),
        }
    }

    /// Returns the number of frames at boot.
    pub fn frames(&self) -> u32
        ensures { result ≡ self.now.frames }
    {
        self.locked.frames()
    }

    /// Returns the kernel.
    pub fn kernel(&self) -> &Kernel
        ensures { result.now ≡ self.now.kernel }
    {
        self.locked.kernel()
    }

    /// Returns the entries that are kept: those that were recorded since the last segment was handed out, or since boot.
    pub fn history(&self) -> &History
        ensures { result.now.entries ≡ kept self.now.kept_from self.now.history }
    {
        self.locked.history()
    }

    /// Returns the number of entries since boot.
    pub fn count(&self) -> usize
        ensures { result ≡ length self.now.history }
    {
        self.locked.count()
    }

    /// Returns the number of the first entry that is kept. All entries with lower numbers were handed out.
    pub fn kept_from(&self) -> usize
        ensures { result ≡ self.now.kept_from }
    {
        self.locked.kept_from()
    }

    /// Hands out the entries that are kept, as a segment, and forgets the receipts. From then on, the entries and receipts of later calls
    /// are kept only. Their numbers continue.
    ///
    /// Returns `None` if more than 2^63 entries were recorded since boot. Then nothing has changed.
    pub fn hand_out(&mut self) -> Option<Segment>
        ensures some { IfSome result (HandsOut self.old self.new) }
        ensures none { IfNone result
            ((max_handed_out < length self.old.history) × (self.new ≡ self.old)) }
    {
        self.locked.law_kept();
        let segment = self.locked.hand_out();
        self.locked.law_kept();
        if segment.is_some() {
            forget_all(&mut self.seats);
        }
        segment
    }

    /// Ghost function: gives a proof the invariant of the locked kernel. It compiles to nothing.
    pub fn law_kept(&self)
        ensures { IsKept self.now }
    {
        self.locked.law_kept();
    }

    /// Ghost function: gives a proof the invariant of the whole history. It compiles to nothing.
    pub fn law_history(&self)
        ensures { IsWholeRun self.now.frames self.now.history self.now.kernel }
    {
        self.locked.law_history();
    }

    /// Gives the number its seat, once.
    ///
    /// Returns these refusals, tested in this order: `SeatTaken` (L4), `NoMemory` (L2). After either, nothing has changed.
    pub fn give(&mut self, number: u32) -> Result<(), LockRefusal>
        ensures { MatchResult result
            (λ _. (book_at self.old.books number ≡ None) × (self.new ≡ record self.old { books = self.old.books ++ book number None [] ∷ [] }))
            (λ e. (self.new ≡ self.old)
            × (((e ≡ SeatTaken) × (book_at self.old.books number ≢ None)) ⊎ ((e ≡ WantOfMemory) × (book_at self.old.books number ≡ None)))) }
    {
        if position(self.seats.as_slice(), number).is_some() {
            return Err(LockRefusal::SeatTaken);
        }
        if self.seats.reserve(1).is_err() {
            return Err(LockRefusal::NoMemory);
        }
        match self.locked.seat(number) {
            Ok(seat) => {
                self.seats.push_reserved(seat);
                Ok(())
            }
            Err(refusal) => Err(refusal),
        }
    }

    /// Returns the seat of a number, if it was given: its receipts, each of which agrees with the history, and the number of calls that it
    /// has started.
    pub fn seat(&self, number: u32) -> Option<&Seat>
        ensures { MatchOption result (book_at self.now.books number ≡ None)
            (λ seat. (seat_at self.now.books number ≡ Some seat.now) × IsShown self.now seat.now) }
    {
        let Some(at) = position(self.seats.as_slice(), number) else {
            return None;
        };
        self.locked.law_kept();
        Some(&self.seats[at])
    }

    /// Returns the refusal of a call under a number without a seat.
    fn refuse_unseated(&self) -> LockRefusal
        ensures { RefusesUnseated self.now result }
    {
        if self.locked.is_full() {
            LockRefusal::HistoryFull
        } else {
            LockRefusal::Kernel(Refused::UnknownThread)
        }
    }

    /// Enters a call of the number's thread. Executes its start, and then the steps that come next, until there is none: at most 128. All
    /// of them are appended to the history.
    ///
    /// Returns these refusals, tested in this order: `ReplyWaiting` (L3), `HistoryFull` (L1), `NoMemory` (L2), `Kernel` (L5), which is
    /// `UnknownThread` if the number has no seat. After a refusal, nothing has changed.
    pub fn enter(&mut self, number: u32, call: Call) -> Result<Entered, LockRefusal>
        ensures ok { IfOk result (EntersBySeat self.old self.new number call) }
        ensures err { IfErr result (λ e. Refuses self.old number call e × (self.new ≡ self.old)) }
    {
        let Some(at) = position(self.seats.as_slice(), number) else {
            return Err(self.refuse_unseated());
        };
        self.locked.law_kept();
        let entered = self.locked.enter(&mut self.seats[at], call);
        self.locked.law_kept();
        entered
    }

    /// Cancels the wait of a thread. Its seat takes the reply as after any other end of its call.
    ///
    /// Returns the refusals of `Locked::cancel`, in the same order. After a refusal, nothing has changed.
    pub fn cancel(&mut self, number: u32, cause: CancelCause) -> Result<(), LockRefusal>
        ensures ok { IfOk result (λ _. Cancels self.old self.new number cause) }
        ensures err { IfErr result
            (λ e. RefusesCancel self.old number cause e × (self.new ≡ self.old)) }
    {
        let canceled = self.locked.cancel(number, cause);
        if let Err(refusal) = canceled {
            return Err(refusal);
        }
        Ok(())
    }

    /// Takes the reply of a call of the number's thread that was left waiting and has ended since. Each reply is returned once. Returns
    /// `None` if no reply waits.
    pub fn take(&mut self, number: u32) -> Option<Reply>
        ensures some { IfSome result (TakesBySeat self.old self.new number) }
        ensures none { IfNone result
            ((self.new ≡ self.old) × (reply_waits self.old.books number ≡ false)) }
    {
        let Some(at) = position(self.seats.as_slice(), number) else {
            return None;
        };
        self.locked.take(&mut self.seats[at])
    }

    /// Returns the provenance of a page of a space, by the history: the transfers that brought the page there from a page that sigma0 had
    /// at boot, in their order. Returns `Ok(None)` if the page is not present.
    ///
    /// The history is executed again on a separate kernel, and once up to each link. Returns `HandedOut` (L8) if entries were handed out.
    /// Otherwise the faults are those of a replay: `NoMemory` if memory runs out, and `OtherAnswer` only with the entry of a transfer that
    /// ran out of memory when it was entered, and does not run out now. A lock never has a number of frames for which `BadFrames` is
    /// returned.
    pub fn provenance(
        &self,
        alloc: Global,
        place: Place,
    ) -> Result<Option<Vec<ChainLink>>, TraceFault>
        ensures { MatchResult result
            (λ found. (boot : Machine) × IsBootWith self.now.frames self.now.kernel.size boot
            × MatchOption found (IsAbsent boot self.now.history place) (λ links. IsProvenance boot self.now.history place links.items))
            (IsNotTraced self.now) }
    {
        if self.kept_from() != 0 {
            return Err(TraceFault::HandedOut);
        }
        match self.trace(alloc, place) {
            Ok(found) => Ok(found),
            Err(fault) => Err(TraceFault::Replay(fault)),
        }
    }

    /// Does what `provenance` does if no entries were handed out.
    fn trace(&self, alloc: Global, place: Place) -> Result<Option<Vec<ChainLink>>, ReplayFault>
        requires { self.now.kept_from ≡ 0 }
        ensures { MatchResult result
            (λ found. (boot : Machine) × IsBootWith self.now.frames self.now.kernel.size boot
            × MatchOption found (IsAbsent boot self.now.history place) (λ links. IsProvenance boot self.now.history place links.items))
            (IsNotRepeated self.now.frames self.now.kernel.size self.now.history) }
    {
        self.locked.law_history();
        let size = self.kernel().page_size();
        provenance(alloc, self.locked.frames(), size, self.history(), place)
    }

    /// Returns whether the list of links is that provenance. The checker shares no code with the finder. If the page is not present, the
    /// result is `false` for every list. The faults are those of `provenance`: the whole history is executed again, also if the links are
    /// wrong.
    pub fn check_provenance(
        &self,
        alloc: Global,
        place: Place,
        links: &[ChainLink],
    ) -> Result<bool, TraceFault>
        ensures { MatchResult result
            (λ yes. (boot : Machine) × IsBootWith self.now.frames self.now.kernel.size boot × IsReplayed boot self.now.history
            × (IsTrue yes ↔ IsProvenance boot self.now.history place links.now))
            (IsNotTraced self.now) }
    {
        if self.kept_from() != 0 {
            return Err(TraceFault::HandedOut);
        }
        match self.check_trace(alloc, place, links) {
            Ok(yes) => Ok(yes),
            Err(fault) => Err(TraceFault::Replay(fault)),
        }
    }

    /// Does what `check_provenance` does if no entries were handed out.
    fn check_trace(
        &self,
        alloc: Global,
        place: Place,
        links: &[ChainLink],
    ) -> Result<bool, ReplayFault>
        requires { self.now.kept_from ≡ 0 }
        ensures { MatchResult result
            (λ yes. (boot : Machine) × IsBootWith self.now.frames self.now.kernel.size boot × IsReplayed boot self.now.history
            × (IsTrue yes ↔ IsProvenance boot self.now.history place links.now))
            (IsNotRepeated self.now.frames self.now.kernel.size self.now.history) }
    {
        self.locked.law_history();
        let size = self.kernel().page_size();
        check_provenance(
            alloc,
            self.locked.frames(),
            size,
            self.history(),
            place,
            links,
        )
    }

    /// Compares the seats of these numbers with the given seats, as closing a lock does when its seats are returned.
    ///
    /// Returns the least number whose seat is missing (X1), or else the least number that was not given or is returned twice (X2). Each
    /// given seat agrees with what the lock kept of it, so there is never a wrong receipt (X3). Returns `None` if exactly the given seats
    /// are returned, each once.
    pub fn mismatch(&self, numbers: &[u32]) -> Option<Mismatch>
        ensures { MatchOption result (Closes self.now (seats_back self.now.books numbers.now))
            (Mismatches (by_history self.now.history) self.now.books (seats_back self.now.books numbers.now)) }
    {
        self.locked.law_kept();
        mismatch(self.seats.as_slice(), numbers)
    }
}
