//! Copies of scripts that expect the actual answers.
ghost use Rattle.std.specs.Prelude.{◌≡◌, ◌≤◌, ◌<◌, ◌+◌, ◌++◌, ◌∷◌, [], ℕ, List, codes, length, drop, IfOk, IfErr, MatchResult};
ghost use Rattle.l4_fpage.specs.Pages.{max_frames};
ghost use Rattle.l4_shell.specs.ByLines.{state_of};
ghost use Rattle.l4_text.specs.Grammar.{lines_of};
ghost use Rattle.l4_expectations.specs.Copies.{expecting_all, CopiesScript};
ghost use Rattle.l4_expectations.specs.Inside.Copying.{Adds, AddsAnswered, IsLeftOut, NotLeftOut, CopiesNext, FailsToCopy, CopiesAll, FailsCopy, IsNothing, IsFew, IsMemory};
ghost use Rattle.l4_expectations.specs.declared.copying.Above.TheVariants.{Answers};

use crate::due::is_rest;
use crate::marks::{expected_in, is_marked, is_silent};
use crate::outcomes::{Failure, Fault, Passed};
use crate::testing::{answered, check_ending, test_script};
use l4_answers::line_len;
use l4_fpage::PageSize;
use l4_shell::ScriptRun;
use l4_text::{LineReader, RunFault};
use std::alloc::Global;
use std::io::Read;

/// A copy of a script that expects all answers, and its size.
#[derive(Drop)]
pub struct Copied {
    pub text: Vec<u8>,
    pub size: Passed,
}

/// What an expectation in the next line is about.
#[derive(Clone, Copy)]
pub(crate) enum Above {
    /// Nothing: no line was answered yet.
    Nothing,
    /// The answers to the last line that was answered.
    Answers,
    /// The same, after `..` for all further ones.
    Rest,
}

/// What was copied so far.
#[derive(Drop)]
pub(crate) struct Copying {
    alloc: Global,
    text: Vec<u8>,
    lines: u64,
    above: Above,
}

/// The failure for want of memory.
fn no_memory() -> Failure
    ensures { IsMemory result }
{
    Failure::Stopped(RunFault::Memory)
}

/// Why there is no copy, where the test of the copy fails with this failure: it expects nothing, or there was not enough memory.
fn copy_failure(failure: Failure) -> Failure
    ensures { FailsCopy failure result }
{
    match failure {
        Failure::NoExpectations => Failure::NoExpectations,
        _ => no_memory(),
    }
}

impl Copying {
    /// Adds a line behind a mark, and a newline. Returns whether there was memory for them.
    fn add(&mut self, mark: &[u8], line: &[u8]) -> bool
        requires { IsFew self.old }
        ensures { Adds self.old (mark.now ++ (line.now ++ 10 ∷ [])) 1 self.new result }
    {
        if self.text.extend_from_slice(mark).is_err() {
            return false;
        }
        if self.text.extend_from_slice(line).is_err() {
            return false;
        }
        if self.text.push(b'\n').is_err() {
            return false;
        }
        let _ = self.text.len();
        self.lines += 1;
        true
    }

    /// Adds an expectation of each answer in this text. Returns whether there was memory for them.
    fn add_answers(&mut self, text: &[u8]) -> bool
        requires { IsFew self.old }
        ensures { Adds self.old (expecting_all text.now) (length (lines_of text.now)) self.new
            result }
    {
        let mut rest = text;
        while !rest.is_empty() {
            let len = line_len(rest);
            if !self.add(b"#= ", &rest[..len]) {
                return false;
            }
            rest = &rest[(len + 1).min(rest.len())..];
        }
        true
    }

    /// Adds a line that has answers, and below it expectations of the answers that it has at its place in the copy. Returns whether there was
    /// memory for them.
    fn add_answered(&mut self, run: &mut ScriptRun, line: &[u8]) -> bool
        requires { IsFew self.old }
        ensures { AddsAnswered (state_of run.old) self.old line.now (state_of run.new) self.new
            result }
    {
        if !self.add(b"", line) {
            return false;
        }
        let Some(text) = answered(self.alloc, run, self.lines, line) else {
            return false;
        };
        self.above = Above::Answers;
        self.add_answers(text.as_slice())
    }

    /// Leaves an expectation out, in the line of this number.
    fn leave_out(&mut self, number: u64, line: &[u8]) -> Result<(), Failure>
        ensures { MatchResult result (λ _. IsLeftOut self.old line.now self.new)
            (NotLeftOut self.old.above number line.now) }
    {
        let Some(answer) = expected_in(line) else {
            return Err(Failure::Malformed(number, Fault::NoAnswer));
        };
        match self.above {
            Above::Nothing => return Err(Failure::Malformed(number, Fault::NoLine)),
            Above::Rest => return Err(Failure::Malformed(number, Fault::AfterRest)),
            Above::Answers => {}
        }
        if is_rest(answer) {
            self.above = Above::Rest;
        }
        Ok(())
    }

    /// Copies the line of this number, which ends with a newline and is not too long.
    fn copy_line(&mut self, run: &mut ScriptRun, number: u64, line: &[u8]) -> Result<(), Failure>
        requires { IsFew self.old }
        ensures { MatchResult result
            (λ _. CopiesNext (state_of run.old) self.old line.now (state_of run.new) self.new)
            (FailsToCopy self.old.above number line.now) }
    {
        if is_silent(line) {
            if is_marked(line) {
                return self.leave_out(number, line);
            }
            if self.add(b"", line) {
                return Ok(());
            }
            return Err(no_memory());
        }
        if self.add_answered(run, line) {
            return Ok(());
        }
        Err(no_memory())
    }

    /// Copies line after line, to the end of the script or to the first failure.
    fn copy_lines<R: Read>(&mut self, run: &mut ScriptRun, reader: &mut R) -> Result<(), Failure>
        requires { IsNothing self.old }
        ensures { CopiesAll (state_of run.old) (R.remaining reader.old)
            (R.remaining reader.new) self.new result }
    {
        let mut lines = LineReader::new();
        for number in 1..u64::MAX {
            let next = match lines.next(reader) {
                Ok(next) => next,
                Err(_) => return Err(Failure::Stopped(RunFault::Read)),
            };
            let Some(ending) = next else {
                return Ok(());
            };
            match check_ending(number, ending) {
                Ok(()) => {}
                Err(failure) => return Err(failure),
            }
            match self.copy_line(run, number, lines.line()) {
                Ok(()) => {}
                Err(failure) => return Err(failure),
            }
        }
        Err(Failure::Stopped(RunFault::Read))
    }
}

/// Copies the script that the reader gives, with its answers on a new kernel with this many frames, 1 to 4,096, of this size. Below each line
/// that has answers, the copy expects all of them. The expectations of the script are left out. All other lines are as they were, in the same
/// order.
///
/// A line's refusal has the number of the line in the copy. The copy passes the test, which is not lenient: before it is returned,
/// `test_script` has tested it.
///
/// Returns these failures, whichever comes first: `Malformed` with the first line that cannot be part of a test; `NoExpectations` if no line
/// has answers; `Stopped` if a read failed or there was not enough memory, which is possible at the start and at any line, and also when the
/// copy is tested.
pub fn copy_script<R: Read>(
    alloc: Global,
    frames: u32,
    size: PageSize,
    reader: &mut R,
) -> Result<Copied, Failure>
    requires { frames ≤ max_frames }
    ensures { CopiesScript frames size (R.remaining reader.old) (R.remaining reader.new) result }
{
    let Some(mut run) = ScriptRun::new(alloc, frames, size) else {
        return Err(no_memory());
    };
    let mut copying = Copying {
        alloc,
        text: Vec::new(alloc),
        lines: 0,
        above: Above::Nothing,
    };
    match copying.copy_lines(&mut run, reader) {
        Ok(()) => {}
        Err(failure) => return Err(failure),
    }
    let mut rest = copying.text.as_slice();
    match test_script(alloc, frames, size, false, &mut rest) {
        Ok(passed) => Ok(Copied {
            text: copying.text,
            size: passed,
        }),
        Err(failure) => Err(copy_failure(failure)),
    }
}
