//! The recorder.
ghost use Rattle.std.specs.Prelude.{◌≡◌, ◌<◌, ◌↔◌, [], IsTrue, IfOk, IfErr, IfSome, IfNone, MatchResult, length, vec_len};
ghost use Rattle.std.specs.List.{All};
ghost use Rattle.l4_board.specs.Board.{IsNewWatch};
ghost use Rattle.l4_ipc.specs.Machine.{IsBoot};
ghost use Rattle.l4_record.specs.Laws.{IsWholeRun};
ghost use Rattle.l4_record.specs.Recording.{IsKept, RefusesBoot, Enters, Cancels, HandsOut, Refuses, RefusesCancel};
ghost use Rattle.l4_record.specs.Segments.{kept, kept_count};
ghost use Rattle.l4_record.specs.Sizes.{last_start, max_handed_out};

use crate::appended::Appended;
use crate::history::History;
use crate::past::Past;
use crate::refusals::RecordRefusal;
use crate::segments::Segment;
use crate::steps::{begin, end_wait};
use l4_board::{Board, Publisher, Watch};
use l4_ipc::{Call, CancelCause, Kernel, NoMemory, PageSize};
use std::alloc::Global;
use std::marker::Model;
use std::mem::replace;

/// The maximum number of entries that a recorder keeps.
pub const MAX_ENTRIES: usize = 1_000_000;

/// The maximum number of entries that a recorder hands out.
pub const MAX_HANDED_OUT: usize = 0x8000_0000_0000_0000;

/// The maximum number of next steps that are executed after the start of a call.
pub const MAX_STEPS: usize = 128;

/// The maximum number of entries of a call: its start and the next steps.
const CALL_ENTRIES: usize = MAX_STEPS + 1;

/// The greatest number of kept entries at which another call can be entered.
const LAST_START: usize = MAX_ENTRIES - CALL_ENTRIES;

/// A kernel with the history of its steps. The history is legal, and leads from boot to the state of the kernel. No step is enabled. The
/// board has the number of entries. The recorder keeps the entries since the last segment that it handed out.
#[derive(Drop)]
pub struct Recorder {
    frames: u32,
    kernel: Kernel,
    past: Past,
    kept_from: usize,
    history: History,
    publisher: Publisher,
    alloc: Global,
}

impl Model for Recorder {
    ghost use Rattle.std.specs.Prelude.{◌≡◌, ◌++◌, length};
    ghost use Rattle.l4_threads.specs.contracts.Thread as thread;
    ghost use Rattle.l4_record.specs.contracts.entries.Entry as entry;
    ghost use Rattle.l4_record.specs.Recording.{Recording, recording, recording_code, IsKept};

    ghost Value = { Recording };

    ghost coded = { recording_code thread.the_row.coded entry.the_row.coded };

    ghost view = { λ a. recording a.frames a.kernel (a.past.entries ++ a.history.entries) a.kept_from a.publisher.board a.publisher.shown };

    ghost invariant = { λ a. IsKept (recording a.frames a.kernel (a.past.entries ++ a.history.entries) a.kept_from a.publisher.board a.publisher.shown)
        × (length a.past.entries ≡ a.kept_from) };
}

impl Recorder {
    /// Boots a kernel with 1 to 4,096 frames of this size and an empty history. Returns it with its board, whose word is 0, and with
    /// watches of the board.
    ///
    /// Returns `Kernel(BadFrames)` for any other number of frames. Returns `NoMemory`, or `Kernel` with it, if an allocation fails.
    pub fn new(
        alloc: Global,
        frames: u32,
        size: PageSize,
        watches: usize,
    ) -> Result<(Recorder, Board, Vec<Watch>), RecordRefusal>
        ensures { MatchResult result
            (λ r. (r.0.frames ≡ frames) × (r.0.kernel.size ≡ size) × IsBoot frames r.0.kernel × (r.0.history ≡ []) × (r.0.kept_from ≡ 0) × (r.1 ≡ r.0.board)
            × (vec_len r.2 ≡ watches) × All (IsNewWatch r.0.board) r.2.items)
            (RefusesBoot frames) }
    {
        let kernel = match Kernel::boot(alloc, frames, size) {
            Ok(kernel) => kernel,
            Err(refused) => return Err(RecordRefusal::Kernel(refused)),
        };
        kernel.law_forest();
        let Ok(publisher) = Publisher::new(alloc) else {
            return Err(RecordRefusal::NoMemory);
        };
        let Ok(board) = publisher.board() else {
            return Err(RecordRefusal::NoMemory);
        };
        let Ok(watches) = board.watches(alloc, watches) else {
            return Err(RecordRefusal::NoMemory);
        };
        let recorder = Recorder {
            frames,
            kernel,
            past: Past::new(),
            kept_from: 0,
            history: History::new(alloc),
            publisher,
            alloc,
        };
        Ok((recorder, board, watches))
    }

    /// Returns a copy of the kernel and its history in memory of its own. The copy has its own board, which has the same length, and watches
    /// of that board. Calls that are entered in one of them do not change the other.
    ///
    /// Returns `NoMemory` if an allocation fails.
    pub fn copy(
        &self,
        alloc: Global,
        watches: usize,
    ) -> Result<(Recorder, Board, Vec<Watch>), NoMemory>
        ensures { IfOk result
            (λ r. (r.0.frames ≡ self.now.frames) × (r.0.kernel ≡ self.now.kernel) × (r.0.history ≡ self.now.history)
            × (r.0.kept_from ≡ self.now.kept_from) × (r.1 ≡ r.0.board) × (vec_len r.2 ≡ watches) × All (IsNewWatch r.0.board) r.2.items) }
    {
        let Ok(kernel) = self.kernel.copy() else {
            return Err(NoMemory);
        };
        let Ok(history) = self.history.copy(alloc) else {
            return Err(NoMemory);
        };
        let Ok(mut publisher) = Publisher::new(alloc) else {
            return Err(NoMemory);
        };
        let Ok(board) = publisher.board() else {
            return Err(NoMemory);
        };
        let Ok(watches) = board.watches(alloc, watches) else {
            return Err(NoMemory);
        };
        publisher.publish(self.count() as u64);
        let recorder = Recorder {
            frames: self.frames,
            kernel,
            past: self.past.copy(),
            kept_from: self.kept_from,
            history,
            publisher,
            alloc,
        };
        Ok((recorder, board, watches))
    }

    /// Returns the number of frames at boot.
    pub fn frames(&self) -> u32
        ensures { result ≡ self.now.frames }
    {
        self.frames
    }

    /// Returns the kernel.
    pub fn kernel(&self) -> &Kernel
        ensures { result.now ≡ self.now.kernel }
    {
        &self.kernel
    }

    /// Returns the entries that are kept: those that were recorded since the last segment was handed out, or since boot.
    pub fn history(&self) -> &History
        ensures { result.now.entries ≡ kept self.now.kept_from self.now.history }
    {
        &self.history
    }

    /// Returns the number of the first entry that is kept. All entries with lower numbers were handed out.
    pub fn kept_from(&self) -> usize
        ensures { result ≡ self.now.kept_from }
    {
        self.kept_from
    }

    /// Returns the number of entries since boot.
    pub fn count(&self) -> usize
        ensures { result ≡ length self.now.history }
    {
        self.kept_from + self.history.len()
    }

    /// Returns whether there is no room for the entries of another call.
    pub fn is_full(&self) -> bool
        ensures { IsTrue result
            ↔ (last_start < kept_count self.now.kept_from self.now.history) }
    {
        self.history.len() > LAST_START
    }

    /// Ghost function: gives a proof the invariant of the recorder. It compiles to nothing.
    pub fn law_kept(&self)
        ensures { IsKept self.now }
    {
        let _ = &self.frames;
    }

    /// Ghost function: gives a proof the invariants of the whole history. The history is one run of the machine from boot. Each present
    /// page has its provenance in it, a flush removes what came through its pages, and each delivered delegation has its whole effect. It
    /// compiles to nothing.
    pub fn law_history(&self)
        ensures { IsWholeRun self.now.frames self.now.history self.now.kernel }
    {
        let _ = &self.frames;
    }

    /// Enters a call of this thread. Appends its start to the history, and then the next step until no step is enabled, at most 128 times.
    /// Overwrites `appended` with what was appended.
    ///
    /// Returns these refusals, tested in this order: `HistoryFull`, `NoMemory`, `Kernel`. After a refusal, nothing has changed, and the
    /// content of `appended` is unspecified.
    pub fn enter(
        &mut self,
        number: u32,
        call: &Call,
        appended: &mut Appended,
    ) -> Result<(), RecordRefusal>
        ensures ok { IfOk result (λ _. Enters self.old self.new number call.now appended.new) }
        ensures err { IfErr result
            (λ e. Refuses self.old number call.now e × (self.new ≡ self.old)) }
    {
        if self.history.len() > LAST_START {
            return Err(RecordRefusal::HistoryFull);
        }
        if self.history.reserve(CALL_ENTRIES).is_err() {
            return Err(RecordRefusal::NoMemory);
        }
        let begun = begin(&mut self.kernel, &mut self.history, number, call, appended);
        if let Err(refused) = begun {
            return Err(RecordRefusal::Kernel(refused));
        }
        let count = self.kept_from + self.history.len();
        self.publisher.publish(count as u64);
        Ok(())
    }

    /// Cancels the wait of this thread, and appends this step to the history, with seat 0, which is no thread's. No other step is enabled
    /// after it.
    ///
    /// Returns these refusals, tested in this order: `HistoryFull`, `NoMemory`, and `Kernel(NotEnabled)` if no thread with this number
    /// waits. After a refusal, nothing has changed.
    pub fn cancel(&mut self, number: u32, cause: CancelCause) -> Result<(), RecordRefusal>
        ensures ok { IfOk result (λ _. Cancels self.old self.new number cause) }
        ensures err { IfErr result
            (λ e. RefusesCancel self.old number cause e × (self.new ≡ self.old)) }
    {
        let kept = self.history.len();
        if kept > LAST_START {
            return Err(RecordRefusal::HistoryFull);
        }
        if self.history.reserve(1).is_err() {
            return Err(RecordRefusal::NoMemory);
        }
        let ended = end_wait(number, cause, &mut self.history, &mut self.kernel);
        if let Err(refused) = ended {
            return Err(RecordRefusal::Kernel(refused));
        }
        let length = self.kept_from + self.history.len();
        self.publisher.publish(length as u64);
        Ok(())
    }

    /// Hands out the entries that are kept, as a segment. From then on, the recorder keeps the entries of later calls only. Their numbers
    /// continue.
    ///
    /// Returns `None` if more than 2^63 entries were recorded since boot. Then nothing has changed.
    pub fn hand_out(&mut self) -> Option<Segment>
        ensures some { IfSome result (HandsOut self.old self.new) }
        ensures none { IfNone result
            ((max_handed_out < length self.old.history) × (self.new ≡ self.old)) }
    {
        let first = self.kept_from;
        let end = first + self.history.len();
        if end > MAX_HANDED_OUT {
            return None;
        }
        self.past = Past::with(&self.past, &self.history);
        self.kept_from = end;
        let history = replace(&mut self.history, History::new(self.alloc));
        Some(Segment { first, history })
    }

    /// Returns the entries that are kept, and the kernel. The contract states the invariants of the whole history since boot.
    #[inline(never)]
    pub fn into_parts(self) -> (History, Kernel)
        ensures same { (result.0.entries ≡ kept self.kept_from self.history)
            × (result.1 ≡ self.kernel) }
        ensures history { IsWholeRun self.frames self.history result.1 }
    {
        let Recorder {
            frames: _,
            kernel,
            past: _,
            kept_from: _,
            history,
            publisher: _,
            alloc: _,
        } = self;
        (history, kernel)
    }
}
