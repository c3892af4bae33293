//! Executes steps that are given as lines of text, and compares another kernel's answers with those of a kernel.
ghost use Rattle.std.specs.Prelude.{◌≡◌, Ok};
ghost use Rattle.l4_c.specs.Watched.{TellsJudged, JudgesFor, Judges, unanswered_code, WritesAnswer, ExecutesFor, ExecutesLine};

use crate::judgements::{JudgeResult, expected_of, judge_told, unjudged};
use l4_c_queries::{CountResult, counted};
use l4_c_texts::write_text;
use l4_c_values::{EMPTY, KernelHandle, NO_MEMORY, NO_SUCH_STEP};
use l4_ipc::Kernel;
use l4_judging::{Judgement, Unjudged, execute_step, judge_step};
use std::alloc::Global;

/// Writes the line that was expected, and returns the result.
fn tell(judgement: &Judgement, out: &mut [u8]) -> JudgeResult
    ensures { TellsJudged (Ok judgement.now) out.old result out.new }
{
    write_text(expected_of(judgement), out);
    judge_told(judgement)
}

/// Executes a step or query on a kernel, compares another kernel's answer with this kernel's, and writes the line that was expected.
fn judge(
    alloc: Global,
    kernel: &mut Kernel,
    line: &[u8],
    found: &[u8],
    out: &mut [u8],
) -> JudgeResult
    ensures { JudgesFor kernel.old line.now found.now out.old result out.new kernel.new }
{
    match judge_step(alloc, kernel, line, found) {
        Ok(judgement) => tell(&judgement, out),
        Err(Unjudged::Unread) => unjudged(NO_SUCH_STEP),
        Err(Unjudged::Memory) => unjudged(NO_MEMORY),
    }
}

/// Executes a step or query on the handle's kernel, compares another kernel's answer with this kernel's, and writes the line that was
/// expected where they differ.
///
/// Returns these refusals, tested in this order: B1, if the handle is empty; B5, if the line is not a step or query; NoMemory, after which
/// the step has been executed. Nothing is written after a refusal.
#[unsafe(no_mangle)]
pub extern "C" fn l4_judge(
    alloc: Global,
    handle: &mut KernelHandle,
    line: &[u8],
    found: &[u8],
    out: &mut [u8],
) -> JudgeResult
    ensures { Judges handle.old.value line.now found.now out.old result out.new handle.new.value }
{
    let Some(mut kernel) = handle.take(alloc) else {
        return unjudged(EMPTY);
    };
    let told = judge(alloc, &mut kernel, line, found, out);
    handle.put(kernel);
    told
}

/// Returns the number of the reason why there is no answer.
fn unanswered(why: Unjudged) -> u32
    ensures { result ≡ unanswered_code why }
{
    match why {
        Unjudged::Unread => NO_SUCH_STEP,
        Unjudged::Memory => NO_MEMORY,
    }
}

/// Writes a text to the array, and returns its length.
fn write_answer(text: &[u8], out: &mut [u8]) -> CountResult
    ensures { WritesAnswer text.now out.old result out.new }
{
    counted(0, write_text(text, out) as u64)
}

/// Executes a step or query on a kernel, and writes the lines of its answer.
fn execute(alloc: Global, kernel: &mut Kernel, line: &[u8], out: &mut [u8]) -> CountResult
    ensures { ExecutesFor kernel.old line.now out.old result out.new kernel.new }
{
    match execute_step(alloc, kernel, line) {
        Ok(text) => write_answer(text.as_slice(), out),
        Err(why) => counted(unanswered(why), 0),
    }
}

/// Executes a step or query on the handle's kernel, writes the lines of its answer as far as there is room, and returns their length.
///
/// Returns these refusals, tested in this order: B1, if the handle is empty; B5, if the line is not a step or query; NoMemory, after which
/// the step has been executed. Nothing is written after a refusal.
#[unsafe(no_mangle)]
pub extern "C" fn l4_execute(
    alloc: Global,
    handle: &mut KernelHandle,
    line: &[u8],
    out: &mut [u8],
) -> CountResult
    ensures { ExecutesLine handle.old.value line.now out.old result out.new handle.new.value }
{
    let Some(mut kernel) = handle.take(alloc) else {
        return counted(EMPTY, 0);
    };
    let told = execute(alloc, &mut kernel, line, out);
    handle.put(kernel);
    told
}
