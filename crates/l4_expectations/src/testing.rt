//! Tests of scripts.
ghost use Rattle.std.specs.Prelude.{◌≡◌, ◌≤◌, ◌<◌, ◌+◌, ◌^◌, ℕ, List, [], length, Option, None, Some, IfSome, MatchOption, true, false, if◌then◌else◌};
ghost use Rattle.std.specs.Option.{option_copied};
ghost use Rattle.l4_fpage.specs.Pages.{max_frames};
ghost use Rattle.l4_shell.specs.ByLines.{state_of};
ghost use Rattle.l4_expectations.specs.Expectations.{compared_by, HasAnswers};
ghost use Rattle.l4_expectations.specs.Tests.{is_ended, is_test, allows_more, Tests};
ghost use Rattle.l4_expectations.specs.Inside.Lines.{Reports, ReportsRefusal, EndsWhole, Closes, ComparesAnswer, AnswersNext, TestsLine, TestsEnd, TestsLines, IsFirst};

use crate::due::{Due, Stage, is_rest};
use crate::marks::{expected_in, is_marked, is_silent};
use crate::outcomes::{Difference, Failure, Fault, Passed, UnexpectedRefusal};
use crate::refusals::find_refusal;
use l4_answers::{AnswerLines, Sink};
use l4_fpage::PageSize;
use l4_shell::ScriptRun;
use l4_sinks::Teller;
use l4_text::{Ending, LineReader, RunFault};
use std::alloc::Global;
use std::io::Read;

/// What was tested so far.
#[derive(Drop)]
pub(crate) struct Tested {
    alloc: Global,
    /// Whether refusals need no expectation, and the script need not expect any answer.
    lenient: bool,
    due: Option<Due>,
    expectations: u64,
}

/// A copy of these bytes. None if there is not enough memory.
fn copied(alloc: Global, bytes: &[u8]) -> Option<Vec<u8>>
    ensures { IfSome result (λ v. v.items ≡ bytes.now) }
{
    Vec::from_slice(alloc, bytes).ok()
}

/// The failure of a difference at the line of this number.
fn differing(alloc: Global, line: u64, expected: &[u8], found: &[u8]) -> Failure
    ensures { Reports line expected.now found.now result }
{
    let Some(expected) = copied(alloc, expected) else {
        return Failure::Stopped(RunFault::Memory);
    };
    let Some(found) = copied(alloc, found) else {
        return Failure::Stopped(RunFault::Memory);
    };
    Failure::Differs(Difference {
        line,
        expected,
        found,
    })
}

/// Whether `..` allows all answers that are left.
fn is_ended(due: &Due) -> bool
    ensures { result ≡ is_ended due.now.stage }
{
    match due.stage {
        Stage::Untouched => false,
        Stage::Begun => false,
        Stage::Rest => true,
    }
}

/// Whether the answers that are left need not be expected one by one.
fn allows_more(due: &Due) -> bool
    ensures { result ≡ allows_more due.now.stage }
{
    match due.stage {
        Stage::Untouched => true,
        Stage::Begun => false,
        Stage::Rest => true,
    }
}

/// The failure of a refusal, among the answers to the line of this number, that no expectation states.
fn unexpected(alloc: Global, line: u64, answer: &[u8]) -> Failure
    ensures { ReportsRefusal line answer.now result }
{
    match copied(alloc, answer) {
        Some(answer) => Failure::Refused(UnexpectedRefusal { line, answer }),
        None => Failure::Stopped(RunFault::Memory),
    }
}

/// Tests at the next line with answers, or at the end, that the answers that are left agree with what is expected: none is left of a line
/// whose answers are expected one by one. Otherwise none of them is a refusal, unless the test is lenient.
fn close(alloc: Global, lenient: bool, due: Option<Due>) -> Result<(), Failure>
    ensures { Closes lenient due result }
{
    let Some(mut due) = due else {
        return Ok(());
    };
    if !allows_more(&due) {
        if due.left.is_empty() {
            return Ok(());
        }
        return Err(differing(alloc, due.number, b"", due.left.first()));
    }
    if lenient {
        return Ok(());
    }
    if find_refusal(&mut due.left) {
        return Err(unexpected(alloc, due.number, due.left.first()));
    }
    Ok(())
}

/// The text of the answers to a line. None if there is not enough memory.
pub fn answered(alloc: Global, run: &mut ScriptRun, number: u64, line: &[u8]) -> Option<Vec<u8>>
    ensures { IfSome result
        (λ text. HasAnswers (state_of run.old) number line.now text.items (state_of run.new)) }
{
    let mut teller = Teller::new(Vec::new(alloc), false, None);
    run.answer_line(number, Ending::Whole, line, &mut teller);
    let finished = teller.finish();
    let (text, _) = teller.into_parts();
    match finished {
        Ok(()) => Some(text),
        Err(_) => None,
    }
}

/// Returns how many answers this expectation compares: one, or none if it is `..`.
fn compared_by(answer: &[u8]) -> u64
    ensures value { result ≡ length (compared_by (Some answer.now)) }
    ensures few { result ≤ 1 }
{
    if is_rest(answer) { 0 } else { 1 }
}

/// Compares the answer that a line expects with the next one.
fn compare(tested: &mut Tested, number: u64, answer: &[u8]) -> Result<(), Failure>
    requires { tested.old.expectations + 1 < 2 ^ 64 }
    ensures { ComparesAnswer tested.old number answer.now tested.new result }
{
    let Some(mut due) = tested.due.take() else {
        return Err(Failure::Malformed(number, Fault::NoLine));
    };
    if is_ended(&due) {
        return Err(Failure::Malformed(number, Fault::AfterRest));
    }
    if !due.take(answer) {
        return Err(differing(tested.alloc, number, answer, due.left.first()));
    }
    tested.due = Some(due);
    tested.expectations += compared_by(answer);
    Ok(())
}

/// Answers a line, after the answers to the line above it have been compared.
fn answer(run: &mut ScriptRun, tested: &mut Tested, number: u64, line: &[u8]) -> Result<(), Failure>
    ensures { AnswersNext (state_of run.old) tested.old number line.now (state_of run.new)
        tested.new result }
{
    match close(tested.alloc, tested.lenient, tested.due.take()) {
        Ok(()) => {}
        Err(failure) => return Err(failure),
    }
    let Some(text) = answered(tested.alloc, run, number, line) else {
        return Err(Failure::Stopped(RunFault::Memory));
    };
    tested.due = Some(Due {
        number,
        left: AnswerLines::new(text),
        stage: Stage::Untouched,
    });
    Ok(())
}

/// Tests the line of this number, which ends with a newline and is not too long.
fn test_line(
    run: &mut ScriptRun,
    tested: &mut Tested,
    number: u64,
    line: &[u8],
) -> Result<(), Failure>
    requires { tested.old.expectations < number }
    ensures { TestsLine (state_of run.old) tested.old number line.now (state_of run.new)
        tested.new result }
{
    if !is_silent(line) {
        return answer(run, tested, number, line);
    }
    if !is_marked(line) {
        return Ok(());
    }
    let Some(expected) = expected_in(line) else {
        return Err(Failure::Malformed(number, Fault::NoAnswer));
    };
    compare(tested, number, expected)
}

/// Checks the ending of the line of this number.
pub(crate) fn check_ending(number: u64, ending: Ending) -> Result<(), Failure>
    ensures { (bytes : List ℕ) → EndsWhole number ending bytes result }
{
    match ending {
        Ending::Whole => Ok(()),
        Ending::Long => Err(Failure::Malformed(number, Fault::Long)),
        Ending::Cut => Err(Failure::Malformed(number, Fault::Cut)),
    }
}

/// Whether a script with this number of expectations is a test.
fn is_test(lenient: bool, expectations: u64) -> bool
    ensures { result ≡ is_test lenient expectations }
{
    lenient || expectations != 0
}

/// Tests the end of a script with this number of lines.
fn test_end(tested: &mut Tested, lines: u64) -> Result<Passed, Failure>
    ensures { TestsEnd tested.old lines result }
{
    match close(tested.alloc, tested.lenient, tested.due.take()) {
        Ok(()) => {}
        Err(failure) => return Err(failure),
    }
    if !is_test(tested.lenient, tested.expectations) {
        return Err(Failure::NoExpectations);
    }
    Ok(Passed {
        lines,
        expectations: tested.expectations,
    })
}

/// Tests line after line, to the end of the script or to the first failure.
fn test_lines<R: Read>(
    run: &mut ScriptRun,
    tested: &mut Tested,
    reader: &mut R,
) -> Result<Passed, Failure>
    requires { IsFirst tested.old }
    ensures { TestsLines tested.old.lenient (state_of run.old) (R.remaining reader.old) (R.remaining reader.new)
        result }
{
    let mut lines = LineReader::new();
    for number in 1..u64::MAX {
        let next = match lines.next(reader) {
            Ok(next) => next,
            Err(_) => return Err(Failure::Stopped(RunFault::Read)),
        };
        let Some(ending) = next else {
            return test_end(tested, number - 1);
        };
        match check_ending(number, ending) {
            Ok(()) => {}
            Err(failure) => return Err(failure),
        }
        match test_line(run, tested, number, lines.line()) {
            Ok(()) => {}
            Err(failure) => return Err(failure),
        }
    }
    Err(Failure::Stopped(RunFault::Read))
}

/// Tests the script that the reader gives, on a new kernel with this many frames, 1 to 4,096, of this size: executes it line by line as
/// `l4_shell::run` does, and compares the answers to each line with those that are expected in the lines below it.
///
/// An expectation is a line of `#= ` and an answer. It belongs to the nearest line above it that is neither empty nor a comment. The
/// expectations of a line are all of its answers, in order. If the last one is `..`, further answers may follow. A line without
/// expectations may have any answers. A refusal is an answer that has to be expected: neither `..` nor a line without expectations allows
/// one, and a script that expects no answer, or `..` alone, does not pass. A lenient test allows both.
///
/// Returns the number of lines and of expected answers, without `..`, if all agree. Returns these failures, whichever comes first: `Differs`
/// with the first difference; `Refused` with the first refusal that is not expected; `Malformed` with the first line that cannot be part of
/// a test; `NoExpectations` at the end; `Stopped` if a read failed or there was not enough memory, which is possible at the start and at any
/// line.
pub fn test_script<R: Read>(
    alloc: Global,
    frames: u32,
    size: PageSize,
    lenient: bool,
    reader: &mut R,
) -> Result<Passed, Failure>
    requires { frames ≤ max_frames }
    ensures { Tests lenient frames size (R.remaining reader.old) (R.remaining reader.new) result }
{
    let Some(mut run) = ScriptRun::new(alloc, frames, size) else {
        return Err(Failure::Stopped(RunFault::Memory));
    };
    let mut tested = Tested {
        alloc,
        lenient,
        due: None,
        expectations: 0,
    };
    test_lines(&mut run, &mut tested, reader)
}
