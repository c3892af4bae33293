//! Lists of steps from a reader to a writer.
ghost use Rattle.l4_step_lines.specs.Lists.{Runs};
ghost use Rattle.l4_step_lines.specs.Inside.Telling.{TellsList};

use crate::session::answer_line;
use l4_ipc::{Kernel, PageSize};
use l4_reasons::Reason;
use l4_text::{Ending, LineReader, Output, RunFault};
use std::alloc::Global;
use std::io::{Read, Write};
use thiserror::Error;

/// Why a run stopped before the end of its list. All lines before a fault have been answered, unless a write failed
/// or there was no memory.
#[derive(Debug, Drop, Error)]
pub enum Fault {
    /// A read or a write failed, or there was no memory for a kernel.
    #[error("error: the run stopped before the end of the list")]
    Stopped(RunFault),
    /// The input ends within the line of this number.
    #[error("error: line {0} does not end with a newline")]
    Cut(u64),
    /// The line of this number has more than 4,096 bytes.
    #[error("error: line {0} is longer than 4096 bytes")]
    Long(u64),
    /// The line of this number cannot be read, for this reason.
    #[error("error: {1}")]
    Unread(u64, Reason),
}

/// Answers line after line, to the end of the list.
fn answer_all<R: Read, W: Write>(
    kernel: &mut Kernel,
    reader: &mut R,
    out: &mut Output,
    writer: &mut W,
) -> Result<(), Fault>
    ensures { TellsList kernel.old kernel.new (R.remaining reader.old) (R.remaining reader.new)
        (W.contents writer.old) (W.contents writer.new) out.old out.new result }
{
    let mut lines = LineReader::new();
    for number in 1..u64::MAX {
        out.send_before_line(&lines, writer);
        if out.has_failed() {
            return Err(Fault::Stopped(RunFault::Write));
        }
        let next = match lines.next(reader) {
            Ok(next) => next,
            Err(_) => return Err(Fault::Stopped(RunFault::Read)),
        };
        let Some(ending) = next else {
            return Ok(());
        };
        match answer_line(kernel, number, ending, lines.line(), out, writer) {
            Ok(()) => {}
            Err(fault) => return Err(fault),
        }
    }
    Err(Fault::Stopped(RunFault::Read))
}

/// Answers the list that the reader gives, line by line, on a new kernel with this many frames, 1 to 4,096, of this size. Any other number
/// of frames is the fault `Memory`. The answers to a line are written before the next line is read.
///
/// Each read requests 4,096 bytes, and there are at most 16,777,216 reads. An error of any kind is a fault, and so is a write that accepts
/// no byte. After a fault too, the answers before it are written.
pub fn run<R: Read, W: Write>(
    alloc: Global,
    frames: u32,
    size: PageSize,
    reader: &mut R,
    writer: &mut W,
) -> Result<(), Fault>
    // What goes out is the text of the answers to the lines in front of the first that ends the list. After a failed read that is all
    // whole lines, and after a failed write a beginning of the text went out.
    ensures { Runs frames size (R.remaining reader.old) (R.remaining reader.new)
        (W.contents writer.old) (W.contents writer.new) result }
{
    let Ok(mut kernel) = Kernel::boot(alloc, frames, size) else {
        return Err(Fault::Stopped(RunFault::Memory));
    };
    let mut out = Output::new();
    let answered = answer_all(&mut kernel, reader, &mut out, writer);
    match out.finish(writer) {
        Ok(()) => answered,
        Err(_) => Err(Fault::Stopped(RunFault::Write)),
    }
}
