//! The line of a script that caused each of its steps.
ghost use Rattle.std.specs.Prelude.{◌≡◌, ◌++◌, ◌-◌, ℕ, List, replicate, OnOk, IfOk};
ghost use Rattle.l4_answers.specs.Reports.{Report};
ghost use Rattle.l4_commands.specs.Requests.{asked_at};
ghost use Rattle.l4_shell.specs.ByLines.{state_of};
ghost use Rattle.l4_shell.specs.Sessions.{AnswersLine};
ghost use Rattle.l4_text.specs.Grammar.{ending_of, lines_of};
ghost use Rattle.l4_page.specs.Causes.{causes_in, AreCauses, TellsCauses};
ghost use Rattle.l4_page.specs.Given.{HasFrames, InMachine};
ghost use Rattle.l4_page.specs.Told.{TellsNothing};

use crate::given::machine_of;
use crate::telling::{NO_MEMORY, Told, refused, tell};
use l4_answers::{first_line, later_lines};
use l4_fpage::PageSize;
use l4_shell::ScriptRun;
use l4_sinks::Teller;
use l4_text::Ending;
use std::alloc::{AllocError, Global};

/// The maximum number of bytes of a line that is read.
const MAX_LINE: usize = 4_096;

/// Returns how a line ends, by its bytes and by whether a newline stands behind them.
fn ending_of(bytes: &[u8], whole: bool) -> Ending
    ensures { result ≡ ending_of (record { bytes = bytes.now; whole = whole }) }
{
    if !whole {
        return Ending::Cut;
    }
    if bytes.len() > MAX_LINE {
        return Ending::Long;
    }
    Ending::Whole
}

/// Answers the line with this number. The answers are not kept.
fn answer(alloc: Global, run: &mut ScriptRun, number: u64, ending: Ending, bytes: &[u8])
    ensures { (told : List Report) × AnswersLine (state_of run.old) number
        (asked_at (state_of run.old).session.machine.size (state_of run.old).names ending bytes.now)
        told (state_of run.new) }
{
    let mut teller = Teller::new(Vec::new(alloc), false, None);
    run.answer_line(number, ending, bytes, &mut teller);
}

/// Appends a number this many times.
fn append(alloc: Global, number: u64, count: usize, causes: &mut Vec<u64>) -> Result<(), AllocError>
    ensures { OnOk result (causes.new.items ≡ causes.old.items ++ replicate count number) }
{
    let more = vec![in alloc; number; count]?;
    causes.extend_from_slice(more.as_slice())
}

/// Answers the line with this number, and appends the number once for each step that the line appended to the history.
fn cause_line(
    alloc: Global,
    run: &mut ScriptRun,
    number: u64,
    ending: Ending,
    bytes: &[u8],
    causes: &mut Vec<u64>,
) -> Result<(), AllocError>
    ensures { OnOk result ((told : List Report) × AnswersLine (state_of run.old) number
        (asked_at (state_of run.old).session.machine.size (state_of run.old).names ending bytes.now)
        told (state_of run.new)
        × (causes.new.items ≡ causes.old.items
        ++ causes_in (state_of run.old) number (state_of run.new))) }
{
    let before = run.history().len();
    answer(alloc, run, number, ending, bytes);
    let after = run.history().len();
    append(alloc, number, after.saturating_sub(before), causes)
}

/// Answers the lines of a script, and returns the number of the line that caused each step of its history.
fn causes(alloc: Global, run: &mut ScriptRun, script: &[u8]) -> Result<Vec<u64>, AllocError>
    ensures { IfOk result (λ causes. AreCauses (state_of run.old) 1 (lines_of script.now)
        causes.items (state_of run.new)) }
{
    let mut causes = Vec::new(alloc);
    let mut rest = script;
    for number in 1..u64::MAX {
        if rest.is_empty() {
            return Ok(causes);
        }
        let line = first_line(rest);
        let ending = ending_of(line, line.len() < rest.len());
        cause_line(alloc, run, number, ending, line, &mut causes)?;
        rest = later_lines(rest);
    }
    Err(AllocError)
}

/// Runs a script, and writes the number of the line that caused each step of its history.
fn caused(alloc: Global, script: &[u8], frames: u32, size: PageSize, out: &mut [u64]) -> Told
    requires { HasFrames frames }
    ensures { TellsCauses frames size script.now out.old out.new result }
{
    let Some(mut run) = ScriptRun::new(alloc, frames, size) else {
        return refused(NO_MEMORY);
    };
    match causes(alloc, &mut run, script) {
        Ok(causes) => tell(causes.as_slice(), true, 0, out),
        Err(_) => refused(NO_MEMORY),
    }
}

/// Writes for each step of a script's history the number of the line that caused it: the line in which it was executed. The steps are those of
/// `page_history`, in the same order.
#[unsafe(no_mangle)]
pub extern "C" fn page_causes(
    alloc: Global,
    script: &[u8],
    frames: u32,
    page_bytes: u32,
    out: &mut [u64],
) -> Told
    ensures { InMachine page_bytes frames
        (λ size. TellsCauses frames size script.now out.old out.new result)
        (λ code. TellsNothing code out.old out.new result) }
{
    match machine_of(page_bytes, frames) {
        Ok(size) => caused(alloc, script, frames, size, out),
        Err(refusal) => refused(refusal),
    }
}
