//! The kernel of a script: a recorded kernel, and the numbers of the threads that may enter calls.
ghost use Rattle.std.specs.Prelude.{◌≡◌, ◌≤◌, ◌<◌, ◌↔◌, false, IsTrue, IfOk, IfErr, IfSome, IfNone, MatchResult, length};
ghost use Rattle.l4_record.specs.Recording.{RefusesBoot};
ghost use Rattle.l4_record.specs.Seated.{is_among, IsNew, with_number, MayEnter, HandsOut, Refuses, RefusesCancel};
ghost use Rattle.l4_record.specs.Segments.{kept, kept_count};
ghost use Rattle.l4_record.specs.Sizes.{max_handed_out};
ghost use Rattle.l4_record.specs.Entering.{Enters, Cancels};

use crate::{Appended, Board, History, RecordRefusal, Recorder, Segment, Watch};
use l4_ipc::{Call, CancelCause, Kernel, NoMemory, PageSize, Refused};
use std::alloc::Global;
use std::marker::Model;

/// A recorded kernel, the thread numbers that have their seats, and a watch of the kernel's board. A number without a seat cannot enter
/// calls.
#[derive(Drop)]
pub struct SeatedKernel {
    recorder: Recorder,
    numbers: Vec<u32>,
    board: Board,
    watch: Watch,
}

impl Model for SeatedKernel {
    ghost use Rattle.std.specs.Prelude.{◌≡◌};
    ghost use Rattle.l4_threads.specs.contracts.Thread as thread;
    ghost use Rattle.l4_record.specs.contracts.entries.Entry as entry;
    ghost use Rattle.l4_record.specs.Seated.{Seated, seated, seated_code};

    ghost Value = { Seated };

    ghost coded = { seated_code thread.the_row.coded entry.the_row.coded };

    ghost view = { λ a. seated a.recorder.kernel a.recorder.history a.numbers.items a.watch.seen a.recorder.kept_from };

    ghost invariant = { λ a. a.watch.board ≡ a.board };
}

impl SeatedKernel {
    /// Boots a kernel with 1 to 4,096 frames of this size, an empty history and no seats.
    pub fn new(alloc: Global, frames: u32, size: PageSize) -> Result<SeatedKernel, RecordRefusal>
        ensures { MatchResult result (IsNew frames size) (RefusesBoot frames) }
    {
        let (recorder, board, mut watches) = match Recorder::new(alloc, frames, size, 1) {
            Ok(parts) => parts,
            Err(refusal) => return Err(refusal),
        };
        let Some(watch) = watches.pop() else {
            unreachable!()
        };
        Ok(SeatedKernel {
            recorder,
            numbers: Vec::new(alloc),
            board,
            watch,
        })
    }

    /// Returns a copy of the kernel, its history and its seats in memory of its own. The number on its board was not looked at yet.
    ///
    /// Returns `NoMemory` if an allocation fails.
    pub fn copy(&self, alloc: Global) -> Result<SeatedKernel, NoMemory>
        ensures { IfOk result (λ copy. copy ≡ record self.now { seen = 0 }) }
    {
        let (recorder, board, mut watches) = match self.recorder.copy(alloc, 1) {
            Ok(parts) => parts,
            Err(refusal) => return Err(refusal),
        };
        let Some(watch) = watches.pop() else {
            unreachable!()
        };
        let mut numbers = Vec::new(alloc);
        if numbers.extend_from_slice(self.numbers.as_slice()).is_err() {
            return Err(NoMemory);
        }
        Ok(SeatedKernel {
            recorder,
            numbers,
            board,
            watch,
        })
    }

    /// Returns the kernel.
    pub fn kernel(&self) -> &Kernel
        ensures { result.now ≡ self.now.machine }
    {
        self.recorder.kernel()
    }

    /// Returns the entries that are kept: those that were recorded since the last segment was handed out, or since boot.
    pub fn history(&self) -> &History
        ensures { result.now.entries ≡ kept self.now.kept_from self.now.history }
    {
        self.recorder.history()
    }

    /// Returns the numbers that have their seats.
    pub fn seats(&self) -> &[u32]
        ensures { result.now ≡ self.now.numbers }
    {
        self.numbers.as_slice()
    }

    /// Returns whether the number has its seat. Seats are mostly given in the order of their numbers, from 1 on, so the entry at that index
    /// is tested first.
    fn has_seat(&self, number: u32) -> bool
        ensures { result ≡ is_among number self.now.numbers }
    {
        let numbers = self.numbers.as_slice();
        let place = (number as usize).saturating_sub(1);
        if place < numbers.len() && numbers[place] == number {
            return true;
        }
        numbers.contains(&number)
    }

    /// Gives the number its seat, unless it has one.
    ///
    /// Returns `NoMemory` if an allocation fails, and then nothing has changed. This cannot happen if the number has its seat.
    pub fn give(&mut self, number: u32) -> Result<(), NoMemory>
        ensures { MatchResult result
            (λ _. self.new ≡ record self.old { numbers = with_number self.old.numbers number })
            (λ _. (self.new ≡ self.old) × (is_among number self.old.numbers ≡ false)) }
    {
        if self.has_seat(number) {
            return Ok(());
        }
        if self.numbers.reserve(1).is_err() {
            return Err(NoMemory);
        }
        self.numbers.push_reserved(number);
        Ok(())
    }

    /// Returns whether a call of the number's thread may be entered now: the number has its seat, the history has room for the call, and
    /// the thread runs.
    pub fn may_enter(&self, number: u32) -> bool
        ensures { IsTrue result
            ↔ MayEnter self.now.machine (kept_count self.now.kept_from self.now.history)
            self.now.numbers number }
    {
        if !self.has_seat(number) {
            return false;
        }
        if self.recorder.is_full() {
            return false;
        }
        self.recorder.kernel().runs(number)
    }

    /// Enters a call of the number's thread, if the number has its seat. Executes the start of the call, and then the next step until no
    /// step is enabled. Writes what was appended to the history to `appended`.
    ///
    /// Returns these refusals, tested in this order: `Kernel(UnknownThread)` if the number has no seat, `HistoryFull`, `NoMemory`,
    /// `Kernel`. After a refusal, nothing has changed.
    pub fn enter_if_seated(
        &mut self,
        number: u32,
        call: &Call,
        appended: &mut Appended,
    ) -> Result<(), RecordRefusal>
        ensures ok { IfOk result (λ _. Enters self.old self.new number call.now appended.new) }
        ensures err { IfErr result
            (λ e. Refuses self.old.machine (kept_count self.old.kept_from self.old.history)
            self.old.numbers number call.now e × (self.new ≡ self.old)) }
    {
        if !self.has_seat(number) {
            return Err(RecordRefusal::Kernel(Refused::UnknownThread));
        }
        self.recorder.enter(number, call, appended)
    }

    /// Cancels the wait of this thread, and appends this step to the history. The number needs no seat, because the environment takes the
    /// step, and no thread.
    ///
    /// Returns these refusals, tested in this order: `HistoryFull`, `NoMemory`, and `Kernel(NotEnabled)` if no thread with this number
    /// waits. After a refusal, nothing has changed.
    pub fn cancel(&mut self, number: u32, cause: CancelCause) -> Result<(), RecordRefusal>
        ensures ok { IfOk result (λ _. Cancels self.old self.new number cause) }
        ensures err { IfErr result
            (λ e. RefusesCancel self.old.machine (kept_count self.old.kept_from self.old.history) number
            cause e × (self.new ≡ self.old)) }
    {
        self.recorder.cancel(number, cause)
    }

    /// Returns the number on the board: the length of the history. It never falls.
    pub fn steps(&mut self) -> u64
        ensures rises { self.old.seen ≤ result }
        ensures seen { self.new ≡ record self.old { seen = result } }
    {
        let SeatedKernel {
            recorder: _,
            numbers: _,
            board,
            watch,
        } = self;
        board.look(watch)
    }

    /// Hands out the entries that are kept, as a segment. From then on, the kernel keeps the entries of later calls only. Their numbers
    /// continue.
    ///
    /// Returns `None` if more than 2^63 entries were recorded since boot. Then nothing has changed.
    pub fn hand_out(&mut self) -> Option<Segment>
        ensures some { IfSome result (HandsOut self.old self.new) }
        ensures none { IfNone result
            ((max_handed_out < length self.old.history) × (self.new ≡ self.old)) }
    {
        self.recorder.hand_out()
    }

    /// Returns the entries that are kept.
    pub fn into_history(self) -> History
        ensures { result.entries ≡ kept self.kept_from self.history }
    {
        let SeatedKernel {
            recorder,
            numbers: _,
            board: _,
            watch: _,
        } = self;
        let (history, _) = recorder.into_parts();
        history
    }
}
