//! Executes scripts of which the history is needed.
ghost use Rattle.std.specs.Prelude.{◌≡◌, ◌≤◌, MatchOption};
ghost use Rattle.l4_fpage.specs.Pages.{max_frames};
ghost use Rattle.l4_shell.specs.Histories.{Records};

use crate::answering::Script;
use crate::running::booted;
use l4_answers::Sink;
use l4_ipc::PageSize;
use l4_record::{History, NoSegments};
use l4_servers::Servers;
use l4_text::RunFault;
use std::alloc::Global;
use std::io::Read;

/// Executes the script of the reader as `run` does, without finishing the sink. Returns the history of the lines that were answered, and
/// what `run` returns. Returns None if there is no memory for a kernel; then nothing was read or reported.
pub fn record<R: Read, S: Sink>(
    alloc: Global,
    frames: u32,
    size: PageSize,
    reader: &mut R,
    sink: &mut S,
) -> Option<(History, Result<u64, RunFault>)>
    requires some { 1 ≤ frames }
    requires fit { frames ≤ max_frames }
    ensures { MatchOption result
        ((R.remaining reader.new ≡ R.remaining reader.old) × (sink.new ≡ sink.old))
        (λ r. Records frames size (R.remaining reader.old) (R.remaining reader.new) S.has_told
        S.closed sink.old sink.new r.0.entries r.1) }
{
    let Some(kernel) = booted(alloc, frames, size) else {
        return None;
    };
    let mut script = Script::new(kernel, Servers::new(alloc, frames, size));
    let mut none = NoSegments;
    let answered = script.answer_all(reader, sink, &mut none);
    Some((script.into_history(), answered))
}
