//! Executes scripts from a reader to a sink.
ghost use Rattle.std.specs.Prelude.{◌≡◌, ◌≤◌, IfSome};
ghost use Rattle.l4_fpage.specs.Pages.{max_frames};
ghost use Rattle.l4_shell.specs.Scripts.{Runs};
ghost use Rattle.l4_shell.specs.Inside.Scripts.{TellsScript, KeepsScript, HasFirstSeats};
ghost use Rattle.l4_shell.specs.Sessions.{session, state};

use crate::answering::Script;
use crate::segments::{hand_out_between_lines, hand_out_rest};
use l4_answers::Sink;
use l4_commands::ROOT;
use l4_ipc::PageSize;
use l4_record::{SeatedKernel, SegmentSink};
use l4_servers::Servers;
use l4_text::{Ending, LineReader, RunFault};
use std::alloc::Global;
use std::io::Read;

/// sigma0's thread.
const SIGMA0: u32 = 1;

/// Boots a kernel in which sigma0 and root have their seats.
pub(crate) fn booted(alloc: Global, frames: u32, size: PageSize) -> Option<SeatedKernel>
    ensures { IfSome result (HasFirstSeats frames size) }
{
    let Ok(mut kernel) = SeatedKernel::new(alloc, frames, size) else {
        return None;
    };
    if kernel.give(SIGMA0).is_err() {
        return None;
    }
    if kernel.give(ROOT).is_err() {
        return None;
    }
    Some(kernel)
}

impl Script {
    /// Answers all lines, up to the end of the script or until the sink is closed. Hands out the history between lines. Returns the number of
    /// lines, or `Write` if a segment could not be kept.
    #[inline(never)]
    pub(crate) fn answer_all<R: Read, S: Sink, K: SegmentSink>(
        &mut self,
        reader: &mut R,
        sink: &mut S,
        segments: &mut K,
    ) -> Result<u64, RunFault>
        ensures told { TellsScript (K.takes segments.old)
            (state self.old.session.kernel self.old.session.servers self.old.names)
            (state self.new.session.kernel self.new.session.servers self.new.names)
            (R.remaining reader.old) (R.remaining reader.new)
            S.has_told S.closed sink.old sink.new result }
        ensures kept { self.old.session.kernel.kept_from ≡ 0
            → KeepsScript (K.takes segments.old) K.has_kept segments.old segments.new
            (session self.new.session.kernel self.new.session.servers) result }
        ensures takes { K.takes segments.new ≡ K.takes segments.old }
    {
        let mut lines = LineReader::new();
        for number in 1..u64::MAX {
            sink.before_line(&lines);
            if sink.is_closed() {
                return Ok(number - 1);
            }
            let next = match lines.next(reader) {
                Ok(next) => next,
                Err(_) => return Err(RunFault::Read),
            };
            let Some(ending) = next else {
                return Ok(number - 1);
            };
            self.answer_line(number, ending, lines.line(), sink);
            if !hand_out_between_lines(&mut self.session.kernel, segments) {
                return Err(RunFault::Write);
            }
            if ending == Ending::Cut {
                return Ok(number);
            }
        }
        Err(RunFault::Read)
    }
}

/// Executes the script of the reader on a kernel of its own, with 1 to 4,096 frames of this size. Answers it line by line, and returns the
/// number of lines. This includes empty lines, comments and refused lines, and a last line without a newline. The sink is flushed before
/// each read for the next line.
///
/// If `segments` takes segments, the history is handed out to it: after each line that leaves 100,000 entries or more, and at the end. Then
/// the history never becomes full.
///
/// A read requests 4,096 bytes, and there are at most 16,777,216 reads.
///
/// Returns these faults. `Memory`: there is no memory for a kernel, and nothing was read or written. `Read`: a read failed, or the script
/// did not end within that number of reads; the preceding lines were answered, and their answers were written. `Write`: a write failed or
/// took no byte, and a prefix of the answers was written; or a segment could not be kept, and the answers up to the line after which it was
/// handed out were written.
pub fn run<R: Read, S: Sink, K: SegmentSink>(
    alloc: Global,
    frames: u32,
    size: PageSize,
    reader: &mut R,
    sink: &mut S,
    segments: &mut K,
) -> Result<u64, RunFault>
    requires some { 1 ≤ frames }
    requires fit { frames ≤ max_frames }

    // The answers are those of what was read: to its end, of the whole lines before a failed read,
    // or a prefix of them after a failed write. Lack of memory comes before everything else.
    // The segments that were kept are the history of these lines, unless a write failed.
    ensures { Runs (K.takes segments.old) frames size
        (R.remaining reader.old) (R.remaining reader.new)
        S.has_told S.is_out S.closed sink.old sink.new K.has_kept segments.old segments.new result }
{
    let Some(kernel) = booted(alloc, frames, size) else {
        return Err(RunFault::Memory);
    };
    let mut script = Script::new(kernel, Servers::new(alloc, frames, size));
    let answered = script.answer_all(reader, sink, segments);
    let ended = hand_out_rest(answered, &mut script.session.kernel, segments);
    match sink.finish() {
        Ok(()) => ended,
        Err(_) => Err(RunFault::Write),
    }
}
