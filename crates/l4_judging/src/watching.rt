//! Another kernel's answer to one step or query.
ghost use Rattle.std.specs.Prelude.{◌≡◌, ◌==◌, length, Some, None, MatchOption, IfOk, IfErr, if◌then◌else◌};
ghost use Rattle.l4_answers.specs.Lines.{first_line};
ghost use Rattle.l4_judging.specs.Watching.{said_lines, differs_from, Executes, HasNoAnswer, JudgesStep};

use crate::expected::has_said;
use crate::judging::{answered, copied};
use l4_answers::{AnswerLines, first_line, later_lines};
use l4_ipc::{Kernel, Step};
use l4_step_lines::read_request;
use std::alloc::Global;
use thiserror::Error;

/// The first line of another kernel's answer that differs from this kernel's.
#[derive(Drop)]
pub struct Difference {
    /// Its place among the lines of the answer, from 0. If the answer has fewer lines than this kernel's, the number of its lines.
    pub place: usize,
    /// The line of this kernel's answer at that place, without its newline. Empty if this kernel's answer has no further line.
    pub expected: Vec<u8>,
}

/// What was found about an answer.
#[derive(Drop)]
pub struct Judgement {
    /// The difference. None if the answers agree.
    pub difference: Option<Difference>,
    /// The step that is enabled afterwards.
    pub next: Option<Step>,
}

/// Why there is no answer, or why it was not compared.
#[derive(Debug, Drop, Error)]
pub enum Unjudged {
    /// The line is not a step or query. Nothing has changed.
    #[error("the line is not a step or query")]
    Unread,
    /// There is not enough memory for the answer or the comparison. The step has been executed.
    #[error("there was not enough memory")]
    Memory,
}

/// The place behind the last line of an answer, if there are further lines that are due.
fn lack_at(due: &AnswerLines, place: usize) -> Option<usize>
    ensures { result ≡ (if length due.now == 0 then None else Some place) }
{
    if due.is_empty() { None } else { Some(place) }
}

/// Compares the lines of an answer with the lines that are due, up to the first difference. Returns its place, and leaves the lines that are
/// due there.
fn first_difference(due: &mut AnswerLines, answer: &[u8]) -> Option<usize>
    ensures { MatchOption result (differs_from 0 due.old (said_lines answer.now) ≡ None)
        (λ place. differs_from 0 due.old (said_lines answer.now) ≡ Some (place, first_line due.new)) }
{
    let mut rest = answer;
    for place in 0..answer.len() {
        if rest.is_empty() {
            return lack_at(due, place);
        }
        if !has_said(due, first_line(rest)) {
            return Some(place);
        }
        due.go_on();
        rest = later_lines(rest);
    }
    lack_at(due, answer.len())
}

/// Executes a step or query, which is given as a line of a step list without its newline. Returns the lines that `run` writes for it.
///
/// Returns `Unread` if the line is not a step or query, a comment included.
pub fn execute_step(alloc: Global, kernel: &mut Kernel, line: &[u8]) -> Result<Vec<u8>, Unjudged>
    ensures ok { IfOk result (λ text. Executes kernel.old line.now text.items kernel.new) }
    ensures err { IfErr result (λ why. HasNoAnswer kernel.old line.now why kernel.new) }
{
    let Some(request) = read_request(line) else {
        return Err(Unjudged::Unread);
    };
    match answered(alloc, kernel, request) {
        Some(text) => Ok(text),
        None => Err(Unjudged::Memory),
    }
}

/// Executes a step or query, which is given as a line of a step list without its newline, and compares another kernel's answer with this
/// kernel's as `judge` does.
///
/// The answer has the lines that `run` writes; the last one may lack its newline. A line `?` matches any one line. An answer without lines
/// differs at its first line. Returns `Unread` if the line is not a step or query, a comment included.
pub fn judge_step(
    alloc: Global,
    kernel: &mut Kernel,
    line: &[u8],
    answer: &[u8],
) -> Result<Judgement, Unjudged>
    ensures { JudgesStep kernel.old line.now answer.now result kernel.new }
{
    let Some(request) = read_request(line) else {
        return Err(Unjudged::Unread);
    };
    let Some(text) = answered(alloc, kernel, request) else {
        return Err(Unjudged::Memory);
    };
    let next = kernel.enabled();
    let mut due = AnswerLines::new(text);
    let Some(place) = first_difference(&mut due, answer) else {
        return Ok(Judgement {
            difference: None,
            next,
        });
    };
    let Some(expected) = copied(alloc, due.first()) else {
        return Err(Unjudged::Memory);
    };
    Ok(Judgement {
        difference: Some(Difference { place, expected }),
        next,
    })
}
