//! Runs of scripts.
ghost use Rattle.std.specs.Prelude.{true, false};
ghost use Rattle.l4_page.specs.Given.{HasFrames, InMachine};
ghost use Rattle.l4_page.specs.Told.{TellsNothing};
ghost use Rattle.l4_page.specs.Scripts.{TellsAnswers, TellsAnnotated, TellsHistoryOf};

use crate::given::machine_of;
use crate::telling::{NO_MEMORY, Told, refused, tell};
use l4_fpage::PageSize;
use l4_history::{Annotations, annotated_script, answered_history, history};
use l4_record::NoSegments;
use l4_sinks::{Outputs, Style, answer_script};
use std::alloc::Global;

/// Runs a script on a machine with this number of frames, and writes its answers, explained if `explain` is true.
fn answered(
    alloc: Global,
    script: &[u8],
    frames: u32,
    size: PageSize,
    explain: bool,
    out: &mut [u8],
) -> Told
    requires { HasFrames frames }
    ensures { TellsAnswers frames size explain script.now out.old out.new result }
{
    let mut rest = script;
    let style = Style {
        strict: false,
        explain,
    };
    let outputs = Outputs {
        answers: Vec::new(alloc),
        segments: NoSegments,
    };
    let (outputs, ran) = answer_script(alloc, frames, size, style, &mut rest, outputs);
    match ran {
        Ok(ended) => tell(outputs.answers.as_slice(), true, ended.lines, out),
        Err(_) => refused(NO_MEMORY),
    }
}

/// Writes what `l4 run` writes for a script.
#[unsafe(no_mangle)]
pub extern "C" fn page_run(
    alloc: Global,
    script: &[u8],
    frames: u32,
    page_bytes: u32,
    out: &mut [u8],
) -> Told
    ensures { InMachine page_bytes frames
        (λ size. TellsAnswers frames size false script.now out.old out.new result)
        (λ code. TellsNothing code out.old out.new result) }
{
    match machine_of(page_bytes, frames) {
        Ok(size) => answered(alloc, script, frames, size, false, out),
        Err(refusal) => refused(refusal),
    }
}

/// Writes what `l4 run --explain` writes for a script.
#[unsafe(no_mangle)]
pub extern "C" fn page_explain(
    alloc: Global,
    script: &[u8],
    frames: u32,
    page_bytes: u32,
    out: &mut [u8],
) -> Told
    ensures { InMachine page_bytes frames
        (λ size. TellsAnswers frames size true script.now out.old out.new result)
        (λ code. TellsNothing code out.old out.new result) }
{
    match machine_of(page_bytes, frames) {
        Ok(size) => answered(alloc, script, frames, size, true, out),
        Err(refusal) => refused(refusal),
    }
}

/// Runs a script, and writes its answers with numbers and moves.
fn annotated(alloc: Global, script: &[u8], frames: u32, size: PageSize, out: &mut [u8]) -> Told
    requires { HasFrames frames }
    ensures { TellsAnnotated frames size script.now out.old out.new result }
{
    let mut rest = script;
    let mut text = Vec::new(alloc);
    let notes = Annotations {
        style: Style {
            strict: false,
            explain: false,
        },
        number: true,
        moves: true,
    };
    match annotated_script(alloc, frames, size, notes, &mut rest, &mut text) {
        Ok(ended) => tell(text.as_slice(), true, ended.lines, out),
        Err(_) => refused(NO_MEMORY),
    }
}

/// Writes what `l4 run --number --moves` writes for a script.
#[unsafe(no_mangle)]
pub extern "C" fn page_annotate(
    alloc: Global,
    script: &[u8],
    frames: u32,
    page_bytes: u32,
    out: &mut [u8],
) -> Told
    ensures { InMachine page_bytes frames
        (λ size. TellsAnnotated frames size script.now out.old out.new result)
        (λ code. TellsNothing code out.old out.new result) }
{
    match machine_of(page_bytes, frames) {
        Ok(size) => annotated(alloc, script, frames, size, out),
        Err(refusal) => refused(refusal),
    }
}

/// Runs a script, and writes its history.
fn recorded(
    alloc: Global,
    script: &[u8],
    frames: u32,
    size: PageSize,
    answers: bool,
    out: &mut [u8],
) -> Told
    requires { HasFrames frames }
    ensures { TellsHistoryOf frames size answers script.now out.old out.new result }
{
    let mut rest = script;
    let mut text = Vec::new(alloc);
    let told = if answers {
        answered_history(alloc, frames, size, false, &mut rest, &mut text)
    } else {
        history(alloc, frames, size, false, &mut rest, &mut text)
    };
    match told {
        Ok(ended) => tell(text.as_slice(), true, ended.lines, out),
        Err(_) => refused(NO_MEMORY),
    }
}

/// Writes what `l4 history` writes for a script, with `--answers` if `answers` is true.
#[unsafe(no_mangle)]
pub extern "C" fn page_history(
    alloc: Global,
    script: &[u8],
    frames: u32,
    page_bytes: u32,
    answers: bool,
    out: &mut [u8],
) -> Told
    ensures { InMachine page_bytes frames
        (λ size. TellsHistoryOf frames size answers script.now out.old out.new result)
        (λ code. TellsNothing code out.old out.new result) }
{
    match machine_of(page_bytes, frames) {
        Ok(size) => recorded(alloc, script, frames, size, answers, out),
        Err(refusal) => refused(refusal),
    }
}
