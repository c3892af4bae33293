//! Reads a script, and writes the step list of its history.
ghost use Rattle.std.specs.Prelude.{◌≡◌, ◌≤◌, ◌↔◌, ℕ, List, [], IsTrue, Ok, true, false};
ghost use Rattle.std.specs.List.{flat_map};
ghost use Rattle.l4_fpage.specs.Pages.{max_frames};
ghost use Rattle.l4_history.specs.Histories.{mark, TellsHistory};
ghost use Rattle.l4_history.specs.Inside.Telling.{TellsUpTo};
ghost use Rattle.l4_ipc.specs.Steps.{Steps};
ghost use Rattle.l4_record.specs.History.{steps_of};
ghost use Rattle.l4_record.specs.declared.entries.Entry.{Entry as AnEntry};
ghost use Rattle.l4_step_lines.specs.Steps.{step_line};
ghost use Rattle.l4_text.specs.Streams.{Tells, HasTold};

use l4_ipc::{Kernel, PageSize};
use l4_record::{Entry, History};
use l4_sinks::{Ended, record_script};
use l4_step_lines::{put_answer, put_step};
use l4_text::{Output, RunFault};
use std::alloc::Global;
use std::io::{Read, Write};

/// Stands before each answer, so that the line is skipped as a comment.
const MARK: &[u8] = b"# ";

/// Writes the steps of a history.
fn tell_steps<W: Write>(history: &History, out: &mut Output, writer: &mut W)
    ensures { Tells (W.contents writer.old) (W.contents writer.new) out.old out.new
        (flat_map step_line (steps_of history.now.entries)) }
{
    for entry in history.entries_from(0) {
        put_step(&entry.step, out, writer);
    }
}

/// Executes the step of an entry. Returns whether it gets the answer that the entry has.
pub(crate) fn repeats(kernel: &mut Kernel, entry: &Entry) -> bool
    ensures { IsTrue result → Steps kernel.old entry.now.step (Ok entry.now.answer) kernel.new }
{
    match kernel.step(&entry.step) {
        Ok(answer) => answer == entry.answer,
        Err(_) => false,
    }
}

/// Executes the steps of a history on a kernel, and writes each with the history's answer below it, up to the first step that gets another
/// answer. Returns whether there is no such step.
fn tell_answered<W: Write>(
    kernel: &mut Kernel,
    history: &History,
    out: &mut Output,
    writer: &mut W,
) -> bool
    ensures { (left : List AnEntry) × (text : List ℕ) × (IsTrue result ↔ (left ≡ [])) × TellsUpTo kernel.old history.now.entries left text
        × Tells (W.contents writer.old) (W.contents writer.new) out.old out.new text }
{
    for done in history.entries_from(0) {
        if !repeats(kernel, &done) {
            return false;
        }
        put_step(&done.step, out, writer);
        put_answer(kernel, &done.answer, MARK, out, writer);
    }
    true
}

/// Executes the script of the reader as `run` of `l4_shell` does. Instead of its answers, writes the steps of its history, each as a line
/// that `run` of `l4_step_lines` reads. Writes nothing before the last line was read. A strict script ends at its first refused line, and
/// the history of the preceding lines is written. Returns how the script ended, as `answer_script` of `l4_sinks` does.
///
/// The caller must pass 1 to 4,096 frames.
///
/// Returns the faults of `run`. `Read`: a read failed, and the history of the preceding lines was written. `Write`: a write failed, and a
/// prefix of the history was written. `Memory`: the kernel's allocation failed, and nothing was read or written.
pub fn history<R: Read, W: Write>(
    alloc: Global,
    frames: u32,
    size: PageSize,
    strict: bool,
    reader: &mut R,
    writer: &mut W,
) -> Result<Ended, RunFault>
    requires some { 1 ≤ frames }
    requires fit { frames ≤ max_frames }
    ensures { TellsHistory frames size strict false (R.remaining reader.old) (R.remaining reader.new)
        (W.contents writer.old) (W.contents writer.new) result }
{
    let Some((history, answered)) = record_script(alloc, frames, size, strict, reader) else {
        return Err(RunFault::Memory);
    };
    let mut out = Output::new();
    tell_steps(&history, &mut out, writer);
    match out.finish(writer) {
        Ok(()) => answered,
        Err(_) => Err(RunFault::Write),
    }
}

/// Does what `history` does, and writes the history's answer below each step, after `# `, as `run` of `l4_step_lines` writes it. To find out
/// how calls ended, it executes the steps again on a separate kernel.
///
/// Returns `Memory` also if a step gets another answer there, because memory ran out in one of the two executions. The history up to that step
/// was then written.
pub fn answered_history<R: Read, W: Write>(
    alloc: Global,
    frames: u32,
    size: PageSize,
    strict: bool,
    reader: &mut R,
    writer: &mut W,
) -> Result<Ended, RunFault>
    requires some { 1 ≤ frames }
    requires fit { frames ≤ max_frames }
    ensures { TellsHistory frames size strict true (R.remaining reader.old) (R.remaining reader.new)
        (W.contents writer.old) (W.contents writer.new) result }
{
    let Ok(mut kernel) = Kernel::boot(alloc, frames, size) else {
        return Err(RunFault::Memory);
    };
    let Some((history, answered)) = record_script(alloc, frames, size, strict, reader) else {
        return Err(RunFault::Memory);
    };
    let mut out = Output::new();
    let whole = tell_answered(&mut kernel, &history, &mut out, writer);
    if let Err(_) = out.finish(writer) {
        return Err(RunFault::Write);
    }
    if !whole {
        return Err(RunFault::Memory);
    }
    answered
}
