//! The locked kernel.
ghost use Rattle.std.specs.Prelude.{◌≡◌, ◌≢◌, ◌⊎◌, ◌+◌, ℕ, List, [], ◌∷◌, ◌++◌, None, IfOk, IfErr, IfSome, IfNone, true, false, MatchOption, MatchResult, length, vec_len, ◌<◌, ◌↔◌, IsTrue};
ghost use Rattle.l4_record.specs.Segments.{kept, kept_count};
ghost use Rattle.l4_record.specs.Sizes.{last_start, max_handed_out};
ghost use Rattle.l4_ipc.specs.Machine.{IsBoot};
ghost use Rattle.l4_lock.specs.Books.{seat_state, book, book_at, pending_at, reply_waits};
ghost use Rattle.l4_lock.specs.Closing.{Closes, Mismatches, by_history};
ghost use Rattle.l4_record.specs.Laws.{IsWholeRun};
ghost use Rattle.l4_lock.specs.Locked.{IsKept, RefusesBoot, Enters, Cancels, Tells, Refuses, RefusesCancel, Takes, HandsOut};
ghost use Rattle.l4_lock.specs.declared.refusals.LockRefusal.TheVariants.{SeatTaken, NoMemory as WantOfMemory};
ghost use Rattle.l4_lock.specs.Inside.Accounts.{Awaits};
ghost use Rattle.l4_lock.specs.Inside.Entering.{IsAdmitted};
ghost use Rattle.l4_board.specs.Board.{IsNewWatch};
ghost use Rattle.std.specs.List.{All};

use crate::accounts::Accounts;
use crate::closing::{Unclosed, first_mismatch};
use crate::entries::Awaited;
use crate::refusals::{Entered, LockRefusal, refusal_of};
use crate::seats::Seat;
use crate::steps::{begin, cancel};
use l4_ipc::{Call, CancelCause, Kernel, PageSize, Refused, Reply};
use l4_record::{Appended, Board, History, Recorder, Segment, Watch};
use std::alloc::Global;
use std::marker::Model;

/// A kernel with the history of its steps. The history is legal, and leads from boot to the state of the kernel. No step is enabled. The
/// entries since the last segment that was handed out are kept.
#[derive(Drop)]
pub struct Locked {
    recorder: Recorder,
    accounts: Accounts,
    appended: Appended,
    alloc: Global,
}

impl Model for Locked {
    ghost use Rattle.l4_threads.specs.contracts.Thread as thread;
    ghost use Rattle.l4_record.specs.contracts.entries.Entry as entry;
    ghost use Rattle.l4_lock.specs.contracts.seats.Account as account;
    ghost use Rattle.l4_lock.specs.Locked.{Lock, lock, lock_code, IsKept};

    ghost Value = { Lock };

    ghost coded = { lock_code thread.the_row.coded entry.the_row.coded account.the_row.coded };

    ghost view = { λ a. lock a.recorder.frames a.recorder.kernel a.recorder.history a.recorder.kept_from a.accounts.items a.recorder.board a.recorder.published };

    ghost invariant = { λ a. IsKept (lock a.recorder.frames a.recorder.kernel a.recorder.history a.recorder.kept_from a.accounts.items a.recorder.board a.recorder.published) };
}

impl Locked {
    ghost use Rattle.std.specs.Prelude.{Some};

    /// Boots a kernel with 1 to 4,096 frames of this size and an empty history. Returns it with its board, whose word is 0, and with
    /// watches of the board.
    ///
    /// Returns `Kernel(BadFrames)` (L5) for any other number of frames. Returns `NoMemory` (L2), or `Kernel` with it, if an allocation
    /// fails.
    pub fn new(
        alloc: Global,
        frames: u32,
        size: PageSize,
        watches: usize,
    ) -> Result<(Locked, Board, Vec<Watch>), LockRefusal>
        ensures { MatchResult result
            (λ r. (r.0.frames ≡ frames) × (r.0.kernel.size ≡ size) × IsBoot frames r.0.kernel × (r.0.history ≡ []) × (r.0.kept_from ≡ 0) × (r.0.books ≡ []) × (r.1 ≡ r.0.board)
            × (vec_len r.2 ≡ watches) × All (IsNewWatch r.0.board) r.2.items)
            (RefusesBoot frames) }
    {
        let (recorder, board, watches) = match Recorder::new(alloc, frames, size, watches) {
            Ok(parts) => parts,
            Err(refusal) => return Err(refusal_of(refusal)),
        };
        recorder.law_kept();
        let locked = Locked {
            recorder,
            accounts: Accounts::new(alloc),
            appended: Appended::new(),
            alloc,
        };
        Ok((locked, board, watches))
    }

    /// Returns the number of frames at boot.
    pub fn frames(&self) -> u32
        ensures { result ≡ self.now.frames }
    {
        self.recorder.frames()
    }

    /// Returns the kernel.
    pub fn kernel(&self) -> &Kernel
        ensures { result.now ≡ self.now.kernel }
    {
        self.recorder.kernel()
    }

    /// Returns the entries that are kept: those that were recorded since the last segment was handed out, or since boot.
    pub fn history(&self) -> &History
        ensures { result.now.entries ≡ kept self.now.kept_from self.now.history }
    {
        self.recorder.history()
    }

    /// Returns the number of entries since boot.
    pub fn count(&self) -> usize
        ensures { result ≡ length self.now.history }
    {
        self.recorder.count()
    }

    /// Returns the number of the first entry that is kept. All entries with lower numbers were handed out.
    pub fn kept_from(&self) -> usize
        ensures { result ≡ self.now.kept_from }
    {
        self.recorder.kept_from()
    }

    /// Returns whether there is no room for the entries of another call.
    pub fn is_full(&self) -> bool
        ensures { IsTrue result
            ↔ (last_start < kept_count self.now.kept_from self.now.history) }
    {
        self.recorder.is_full()
    }

    /// Ghost function: gives a proof the invariant of the locked kernel. It compiles to nothing.
    pub fn law_kept(&self)
        ensures { IsKept self.now }
    {
        let _ = &self.alloc;
    }

    /// Ghost function: gives a proof the invariants of the whole history. The history is one run of the machine from boot. Each present
    /// page has its provenance in it, a flush removes what came through its pages, and each delivered delegation has its whole effect. It
    /// compiles to nothing.
    pub fn law_history(&self)
        ensures { IsWholeRun self.now.frames self.now.history self.now.kernel }
    {
        self.recorder.law_history();
    }

    /// Gives the number its seat, once.
    ///
    /// Returns these refusals, tested in this order: `SeatTaken` (L4), `NoMemory` (L2). After either, nothing has changed.
    pub fn seat(&mut self, number: u32) -> Result<Seat, LockRefusal>
        ensures { MatchResult result
            (λ s. (s ≡ seat_state number 0 []) × (book_at self.old.books number ≡ None)
            × (self.new ≡ record self.old { books = self.old.books ++ book number None [] ∷ [] }))
            (λ e. (self.new ≡ self.old)
            × (((e ≡ SeatTaken) × (book_at self.old.books number ≢ None)) ⊎ ((e ≡ WantOfMemory) × (book_at self.old.books number ≡ None)))) }
    {
        self.open(number)?;
        Ok(Seat::new(self.alloc, number))
    }

    /// Opens the account of a number that has none.
    fn open(&mut self, number: u32) -> Result<(), LockRefusal>
        ensures { MatchResult result
            (λ _. (book_at self.old.books number ≡ None) × (self.new ≡ record self.old { books = self.old.books ++ book number None [] ∷ [] }))
            (λ e. (self.new ≡ self.old)
            × (((e ≡ SeatTaken) × (book_at self.old.books number ≢ None)) ⊎ ((e ≡ WantOfMemory) × (book_at self.old.books number ≡ None)))) }
    {
        if self.accounts.position(number).is_some() {
            return Err(LockRefusal::SeatTaken);
        }
        if self.accounts.add(self.alloc, number).is_err() {
            return Err(LockRefusal::NoMemory);
        }
        Ok(())
    }

    /// Enters a call of the seat's thread. Executes its start, and then the next step until no step is enabled, at most 128 times. All of
    /// these steps are appended to the history.
    ///
    /// Returns these refusals, tested in this order: `ReplyWaiting` (L3), `HistoryFull` (L1), `NoMemory` (L2), `Kernel` (L5), which is
    /// `UnknownThread` if the seat was not given by this lock. After a refusal, nothing has changed.
    pub fn enter(&mut self, seat: &mut Seat, call: Call) -> Result<Entered, LockRefusal>
        ensures ok { IfOk result
            (λ e. Enters self.old self.new seat.old.number call
            × Tells self.old self.new seat.old seat.new call e) }
        ensures err { IfErr result
            (λ e. Refuses self.old seat.old.number call e × (self.new ≡ self.old)
            × (seat.new ≡ seat.old)) }
    {
        let number = seat.number();
        let has_room = seat.wait_more();
        let at = match self.admit(number, has_room, &call) {
            Ok(at) => at,
            Err(refusal) => {
                if has_room {
                    seat.wait_less();
                }
                return Err(refusal);
            }
        };
        if let Some(reply) = self.accounts.finish(at, seat) {
            return Ok(Entered::Done(reply));
        }
        Ok(Entered::Waiting)
    }

    /// Does the part of `enter` that does not change the seat, for which the seat has room. Returns the index of the seat's account.
    fn admit(&mut self, number: u32, has_room: bool, call: &Call) -> Result<usize, LockRefusal>
        ensures ok { IfOk result (λ at. IsAdmitted self.old self.new number call.now at) }
        ensures room { IfOk result (λ _. has_room ≡ true) }
        ensures err { IfErr result
            (λ e. Refuses self.old number call.now e × (self.new ≡ self.old)) }
    {
        if self.accounts.reply_waits(number) {
            return Err(LockRefusal::ReplyWaiting);
        }
        if self.recorder.is_full() {
            return Err(LockRefusal::HistoryFull);
        }
        if !has_room {
            return Err(LockRefusal::NoMemory);
        }
        let Some(at) = self.accounts.position(number) else {
            return Err(LockRefusal::Kernel(Refused::UnknownThread));
        };
        let begun = begin(
            &mut self.recorder,
            &mut self.accounts,
            at,
            number,
            call,
            &mut self.appended,
        );
        if let Err(refusal) = begun {
            return Err(refusal);
        }
        Ok(at)
    }

    /// Cancels the wait of a thread. Appends this step to the history, with seat 0. The seat of the thread takes the reply as after any
    /// other end of its call.
    ///
    /// Returns these refusals, tested in this order: `HistoryFull` (L1), `NoMemory` (L2), and `Kernel(NotEnabled)` (L5 with K1) if no
    /// thread with this number waits. After a refusal, nothing has changed.
    pub fn cancel(&mut self, number: u32, cause: CancelCause) -> Result<(), LockRefusal>
        ensures ok { IfOk result (λ _. Cancels self.old self.new number cause) }
        ensures err { IfErr result
            (λ e. RefusesCancel self.old number cause e × (self.new ≡ self.old)) }
    {
        cancel(&mut self.recorder, &mut self.accounts, number, cause)?;
        Ok(())
    }

    /// Takes the reply of a call that was left waiting and has since ended. Returns None if there is no such reply.
    pub fn take(&mut self, seat: &mut Seat) -> Option<Reply>
        ensures some { IfSome result
            (λ reply. Takes self.old self.new seat.old seat.new reply) }
        ensures none { IfNone result ((self.new ≡ self.old) × (seat.new ≡ seat.old)
            × ((seat.old.waiting ≡ 0) ⊎ (reply_waits self.old.books seat.old.number ≡ false))) }
    {
        if seat.waiting() == 0 {
            return None;
        }
        let Some(at) = self.accounts.position(seat.number()) else {
            return None;
        };
        self.accounts.finish(at, seat)
    }

    /// Takes the reply of this call of the seat, which was left waiting, if it has since ended. Returns None also if the call that the
    /// lock keeps for the seat's number is another one.
    pub(crate) fn take_for(&mut self, seat: &mut Seat, own: &Awaited) -> Option<Reply>
        ensures some { IfSome result
            (λ reply. Takes self.old self.new seat.old seat.new reply
            × Awaits (pending_at self.old.books seat.old.number) own.now) }
        ensures none { IfNone result ((self.new ≡ self.old) × (seat.new ≡ seat.old)) }
    {
        if seat.waiting() == 0 {
            return None;
        }
        let Some(at) = self.accounts.position(seat.number()) else {
            return None;
        };
        if !self.accounts.awaits(at, own) {
            return None;
        }
        self.accounts.finish(at, seat)
    }

    /// Hands out the entries that are kept, as a segment. From then on, the entries of later calls are kept only. Their numbers continue, and
    /// receipts name entries by these numbers. Forgets the copies of receipts; seats forget theirs by `Seat::forget`.
    ///
    /// Returns `None` if more than 2^63 entries were recorded since boot. Then nothing has changed.
    pub fn hand_out(&mut self) -> Option<Segment>
        ensures some { IfSome result (HandsOut self.old self.new) }
        ensures none { IfNone result
            ((max_handed_out < length self.old.history) × (self.new ≡ self.old)) }
    {
        let segment = self.recorder.hand_out();
        self.recorder.law_kept();
        if segment.is_some() {
            self.accounts.forget();
        }
        segment
    }

    /// Closes the lock, if exactly the seats that were given come back and agree with their accounts. Returns the entries that are kept, and
    /// the kernel. The contract states the invariants of the whole history since boot.
    ///
    /// Otherwise returns everything that was passed, and the first difference: X1, X2 or X3.
    pub fn close(self, seats: Vec<Seat>) -> Result<(History, Kernel), Unclosed>
        ensures ok { IfOk result
            (λ r. (r.0.entries ≡ kept self.kept_from self.history) × (r.1 ≡ self.kernel)
            × Closes self seats.items) }
        ensures history { IfOk result (λ r. IsWholeRun self.frames self.history r.1) }
        ensures err { IfErr result
            (λ u. (u.locked ≡ self) × (u.seats.items ≡ seats.items)
            × Mismatches (by_history self.history) self.books seats.items u.mismatch) }
    {
        if let Some(mismatch) = first_mismatch(self.accounts.as_slice(), seats.as_slice()) {
            return Err(Unclosed {
                mismatch,
                locked: self,
                seats,
            });
        }
        Ok(self.recorder.into_parts())
    }
}
