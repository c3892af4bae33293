//! Writes the history in segments as a step list.
ghost use Rattle.std.specs.Prelude.{◌≡◌, ℕ, List, IfOk, IfErr};
ghost use Rattle.l4_text.specs.Streams.{Tells};
ghost use Rattle.l4_saved.specs.Inside.Telling.{entry_text};
ghost use Rattle.l4_saved.specs.Inside.Replaying.{HasTold, HasStopped};
ghost use Rattle.l4_saved.specs.Telling.{TellsSegments};

use crate::entries::SavedEntries;
use crate::following::{HistoryFault, continue_with};
use l4_ipc::Kernel;
use l4_provenance::Replayable;
use l4_record::Entry;
use l4_segments::Joined;
use l4_step_lines::{put_answer, put_step};
use l4_text::Output;
use std::alloc::Global;
use std::io::Write;

/// Stands before each answer, so that the line is skipped as a comment.
const MARK: &[u8] = b"# ";

/// The kernel that executes a history again, and the seat of the last entry.
#[derive(Drop)]
struct Replay {
    kernel: Kernel,
    last: Option<u32>,
}

/// Writes the step of an entry, and its answer below it if `answers`.
fn put_entry<W: Write>(
    kernel: &Kernel,
    entry: &Entry,
    answers: bool,
    out: &mut Output,
    writer: &mut W,
)
    ensures { Tells (W.contents writer.old) (W.contents writer.new) out.old out.new
        (entry_text answers entry.now kernel.now) }
{
    put_step(&entry.step, out, writer);
    if answers {
        put_answer(kernel, &entry.answer, MARK, out, writer);
    }
}

/// Executes and writes the entries, up to the first that does not continue a legal history.
fn tell_entries<W: Write>(
    replay: &mut Replay,
    entries: &SavedEntries<'_>,
    answers: bool,
    out: &mut Output,
    writer: &mut W,
) -> Result<(), HistoryFault>
    ensures ok { IfOk result
        (λ _. (text : List ℕ)
        × HasTold answers replay.old replay.new entries.now.joined.now.entries text
        × Tells (W.contents writer.old) (W.contents writer.new) out.old out.new text) }
    ensures err { IfErr result
        (λ fault. (text : List ℕ)
        × HasStopped answers replay.old entries.now.joined.now.first
        entries.now.joined.now.entries fault text
        × Tells (W.contents writer.old) (W.contents writer.new) out.old out.new text) }
{
    let first = entries.joined.first();
    for number in 0..entries.count() {
        let Some(entry) = entries.get(number) else {
            unreachable!()
        };
        if let Err(fault) = continue_with(&mut replay.kernel, replay.last, first + number, &entry) {
            return Err(fault);
        }
        replay.last = Some(entry.seat);
        put_entry(&replay.kernel, &entry, answers, out, writer);
    }
    Ok(())
}

/// Executes the history in segments on a separate kernel. Writes each of its steps as a line that `run` of `l4_step_lines` reads, and, with
/// `answers`, below it the entry's answer after `# `.
///
/// Returns `NotNext` or `OtherAnswer` if the entries are not a legal history from boot on, and the number of the first entry that does not
/// continue one. Returns `Memory` if an allocation failed. The lines of the entries before were then written. Returns `Write` if a write
/// failed; a prefix of the lines was then written.
pub fn segments_history<W: Write>(
    alloc: Global,
    joined: &Joined<'_>,
    answers: bool,
    writer: &mut W,
) -> Result<(), HistoryFault>
    ensures { TellsSegments answers joined.now
        (W.contents writer.old) (W.contents writer.new) result }
{
    let Ok(kernel) = Kernel::boot(alloc, joined.frames(), joined.size()) else {
        return Err(HistoryFault::Memory);
    };
    let mut replay = Replay { kernel, last: None };
    let mut out = Output::new();
    let entries = SavedEntries { joined };
    let told = tell_entries(&mut replay, &entries, answers, &mut out, writer);
    match out.finish(writer) {
        Ok(()) => told,
        Err(_) => Err(HistoryFault::Write),
    }
}
