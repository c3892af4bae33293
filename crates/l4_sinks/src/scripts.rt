//! Scripts from a reader to a writer, or to the history that they leave.
ghost use Rattle.std.specs.Prelude.{◌≡◌, ◌≤◌, MatchOption, option_map};
ghost use Rattle.l4_fpage.specs.Pages.{max_frames};
ghost use Rattle.l4_sinks.specs.Scripts.{explains_by, FindsRefusal, RunsScript, RecordsScript};

use crate::reasons::LineRefusal;
use crate::silent::Silent;
use crate::teller::Teller;
use l4_fpage::PageSize;
use l4_reasons::Reason;
use l4_record::{History, SegmentSink};
use l4_shell::{record, run};
use l4_text::RunFault;
use std::alloc::Global;
use std::io::{Read, Write};

/// How the answers of a script are written.
#[derive(Clone, Copy)]
pub struct Style {
    /// Whether the script ends at the first refused line.
    pub strict: bool,
    /// Whether an explanation is written below each answer.
    pub explain: bool,
}

/// How a script ended that was read without a fault.
#[derive(Drop)]
pub struct Ended {
    /// The number of lines that were answered: empty ones, comments and refused ones too.
    pub lines: u64,
    /// Why the line was refused that ended a strict run.
    pub refused: Option<Reason>,
}

/// Where the answers and the history of a script go.
#[derive(Drop)]
pub struct Outputs<W, K> {
    /// The writer of the answers.
    pub answers: W,
    /// The receiver of the history, which `NoSegments` leaves with the kernel.
    pub segments: K,
}

fn explains_by(explain: bool, size: PageSize) -> Option<PageSize>
    ensures { result ≡ explains_by explain size }
{
    if explain { Some(size) } else { None }
}

/// Executes the script that the reader gives, line by line, on a new kernel with this many frames, 1 to 4,096, of this size, and writes the
/// answers to each line in this style. Hands out the history if a receiver takes segments. Returns the outputs, and how the script ended.
/// Faults are those of `l4_shell::run`.
pub fn answer_script<R: Read, W: Write, K: SegmentSink>(
    alloc: Global,
    frames: u32,
    size: PageSize,
    style: Style,
    reader: &mut R,
    outputs: Outputs<W, K>,
) -> (Outputs<W, K>, Result<Ended, RunFault>)
    requires some { 1 ≤ frames }
    requires fit { frames ≤ max_frames }
    ensures { RunsScript (K.takes outputs.segments) frames size style.strict style.explain
        (R.remaining reader.old) (R.remaining reader.new)
        (W.contents outputs.answers) (W.contents result.0.answers)
        K.has_kept outputs.segments result.0.segments result.1 }
{
    let Outputs { answers, segments } = outputs;
    let mut segments = segments;
    let mut teller = Teller::new(answers, style.strict, explains_by(style.explain, size));
    let answered = run(alloc, frames, size, reader, &mut teller, &mut segments);
    let (answers, refused) = teller.into_parts();
    let outputs = Outputs { answers, segments };
    match answered {
        Ok(lines) => (outputs, Ok(Ended { lines, refused })),
        Err(fault) => (outputs, Err(fault)),
    }
}

/// Returns the text of why a line is refused.
fn reason_of(refused: Option<LineRefusal>) -> Option<Reason>
    ensures { result ≡ option_map (λ r. r.reason) refused }
{
    match refused {
        Some(refusal) => Some(refusal.reason),
        None => None,
    }
}

/// Executes the script that the reader gives as `answer_script` does, without writing its answers. A strict run ends at the first refused
/// line. Returns the history of the lines that were answered, and how the script ended. Returns None if there is no memory for a kernel;
/// then nothing was read.
///
/// `Read`: a read failed, and the history is that of the preceding lines.
pub fn record_script<R: Read>(
    alloc: Global,
    frames: u32,
    size: PageSize,
    strict: bool,
    reader: &mut R,
) -> Option<(History, Result<Ended, RunFault>)>
    requires some { 1 ≤ frames }
    requires fit { frames ≤ max_frames }
    ensures { MatchOption result (R.remaining reader.new ≡ R.remaining reader.old)
        (λ r. RecordsScript frames size strict (R.remaining reader.old) (R.remaining reader.new) r.0.entries r.1) }
{
    let mut silent = Silent::new(strict);
    let Some((history, answered)) = record(alloc, frames, size, reader, &mut silent) else {
        return None;
    };
    let refused = reason_of(silent.into_refused());
    match answered {
        Ok(lines) => Some((history, Ok(Ended { lines, refused }))),
        Err(fault) => Some((history, Err(fault))),
    }
}

/// Executes the script that the reader gives as a strict `record_script` does. Returns why the first refused line is refused, or None if no line
/// is.
///
/// `Memory`: there is no memory for a kernel; then nothing was read. `Read`: a read failed, and no line before that is refused.
pub fn first_refusal<R: Read>(
    alloc: Global,
    frames: u32,
    size: PageSize,
    reader: &mut R,
) -> Result<Option<LineRefusal>, RunFault>
    requires some { 1 ≤ frames }
    requires fit { frames ≤ max_frames }
    ensures { FindsRefusal frames size (R.remaining reader.old) (R.remaining reader.new) result }
{
    let mut silent = Silent::new(true);
    let Some((_history, answered)) = record(alloc, frames, size, reader, &mut silent) else {
        return Err(RunFault::Memory);
    };
    let refused = silent.into_refused();
    match answered {
        Ok(_) => Ok(refused),
        Err(fault) => Err(fault),
    }
}
