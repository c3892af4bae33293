//! Step lists with another kernel's answers.
ghost use Rattle.std.specs.Prelude.{ℕ, List, ◌≡◌, ◌<◌, ◌+◌, ◌^◌, option_map, IfSome, ◌||◌, not, true, Ok};
ghost use Rattle.l4_answers.specs.Lines.{later_lines};
ghost use Rattle.l4_step_lines.specs.Lists.{Answers};
ghost use Rattle.l4_text.specs.Streams.{Tells};
ghost use Rattle.l4_judging.specs.Agreeing.{AllAgrees};
ghost use Rattle.l4_judging.specs.Judging.{said_in, answer_count, after_answer, step_count, stops, agreed_text, is_agreement, verdict_of, IsExpected, Judges};
ghost use Rattle.l4_judging.specs.Inside.Judged.{MatchesAnswer, TellsRequest, TellsJudged, TellsEnd, TellsLines, EndsEarly, SkipsRest};

use crate::calls::{LastCalls, starts_call};
use crate::ending::check_ending;
use crate::expected::{Expected, is_unknown};
use crate::reports::{agrees_text, compare, compare_end, compare_request, put_short};
use l4_answers::AnswerLines;
use l4_ipc::{Kernel, PageSize};
use l4_step_lines::{Fault, Request, answer, is_silent, read_request, unread_reason};
use l4_text::{LineReader, Output, RunFault};
use std::alloc::Global;
use std::io::{Read, Write};
use thiserror::Error;

/// Why a list was not judged to its end, or is no agreement although nothing differs. All lines before a fault have been judged, unless a write
/// failed.
#[derive(Debug, Drop, Error)]
pub enum JudgeFault {
    /// The list cannot be executed further, or the run stopped.
    #[error("{0}")]
    List(Fault),
    /// The line of this number is an answer, and no step or query is above it.
    #[error("error: line {0} is an answer without a step or query above it")]
    NoStep(u64),
    /// The list has no step or query. It ended before the line of this number.
    #[error("error: line {0}: the list has no step or query")]
    Empty(u64),
    /// No line of an answer was compared.
    #[error("error: no answer was compared")]
    Uncompared,
}

/// What a judged list must have, and what is reported.
#[derive(Drop)]
pub struct Wanted {
    /// The steps and queries that the list must have, line by line. None: any.
    pub requests: Option<AnswerLines>,
    /// Whether steps and queries may be without answers.
    pub partial: bool,
    /// Whether every difference is reported, and not only the first.
    pub all: bool,
    /// Whether the last calls of the threads that a step names are reported with each difference.
    pub calls: bool,
}

/// What a list must have below the part that has been judged, and what was found in that part.
#[derive(Drop)]
pub(crate) struct Judged {
    alloc: Global,
    requests: Option<AnswerLines>,
    partial: bool,
    all: bool,
    keeps_calls: bool,
    calls: LastCalls,
    expected: Option<Expected>,
    steps: u64,
    answers: u64,
    differs: bool,
}

/// The answer that a line has after `# `. None for any other line.
fn said_in(line: &[u8]) -> Option<&[u8]>
    ensures { option_map (λ s. s.now) result ≡ said_in line.now }
{
    let [first, second, said @ ..] = line else {
        return None;
    };
    if *first == b'#' && *second == b' ' {
        Some(said)
    } else {
        None
    }
}

/// 1 for an answer that is counted, 0 for `?`.
fn answer_count(said: &[u8]) -> u64
    ensures { result ≡ answer_count said.now }
{
    if is_unknown(said) { 0 } else { 1 }
}

/// Whether there was a difference before, or there is one here.
fn differs(before: bool, same: bool) -> bool
    ensures { result ≡ (before || not same) }
{
    before || !same
}

/// Whether a difference ends the list.
fn stops(all: bool, differs: bool) -> bool
    ensures { result ≡ stops all differs }
{
    differs && !all
}

/// What is expected after the answer at the line of this number.
fn after_answer(expected: Expected, number: u64) -> Expected
    ensures { result ≡ after_answer expected number }
{
    let mut after = expected;
    after.due.go_on();
    after.last = number;
    after.answered = true;
    after
}

/// Judges the answer at the line of this number. Returns false if no step or query is above it.
fn judge_answer<W: Write>(
    judged: &mut Judged,
    number: u64,
    said: &[u8],
    out: &mut Output,
    writer: &mut W,
) -> bool
    requires { judged.old.answers < number }
    ensures { MatchesAnswer judged.old judged.new number said.now (W.contents writer.old)
        (W.contents writer.new) out.old out.new result }
{
    let Some(expected) = judged.expected.take() else {
        return false;
    };
    let same = compare(&expected, number, said, out, writer);
    judged.expected = Some(after_answer(expected, number));
    judged.answers += answer_count(said);
    judged.differs = differs(judged.differs, same);
    true
}

/// A copy of a line. None if there is not enough memory.
pub(crate) fn copied(alloc: Global, line: &[u8]) -> Option<Vec<u8>>
    ensures { IfSome result (λ v. v.items ≡ line.now) }
{
    let mut copy = Vec::new(alloc);
    match copy.extend_from_slice(line) {
        Ok(()) => Some(copy),
        Err(_) => None,
    }
}

/// Executes a request. Returns the text of the answer, or None if there is not enough memory for it.
pub(crate) fn answered(alloc: Global, kernel: &mut Kernel, request: Request) -> Option<Vec<u8>>
    ensures value { IfSome result (λ text. Answers kernel.old request text.items kernel.new) }
    ensures done { (text : List ℕ) × Answers kernel.old request text kernel.new }
{
    let mut text = Vec::new(alloc);
    let mut out = Output::new();
    answer(kernel, request, &mut out, &mut text);
    match out.finish(&mut text) {
        Ok(()) => Some(text),
        Err(_) => None,
    }
}

/// What is expected below the line of this number, which has this request. None if there is not enough memory.
fn expect(
    alloc: Global,
    kernel: &mut Kernel,
    calls: &LastCalls,
    request: Request,
    number: u64,
    line: &[u8],
) -> Option<Expected>
    ensures { IfSome result
        (λ expected. IsExpected kernel.old calls.now request number line.now expected kernel.new) }
{
    let line = copied(alloc, line)?;
    let calls = calls.named(alloc, &request)?;
    let text = answered(alloc, kernel, request)?;
    Some(Expected {
        line,
        due: AnswerLines::new(text),
        calls,
        next: kernel.enabled(),
        last: number,
        answered: false,
    })
}

/// 1 for a step, 0 for a query.
fn step_count(request: &Request) -> u64
    ensures { result ≡ step_count request.now }
{
    match request {
        Request::Do(_) => 1,
        Request::Enabled | Request::Reply(_) | Request::Space(_) | Request::Pages(_) => 0,
    }
}

/// The requests of the list after the first of them, if there is a list.
fn later_requests(requests: Option<AnswerLines>) -> Option<AnswerLines>
    ensures { result ≡ option_map later_lines requests }
{
    let mut later = requests?;
    later.go_on();
    Some(later)
}

/// Judges a step or query, below which this is expected: whether the answer above it is complete, and whether it is the next request of the
/// list. The second is not reported if the first ends the list.
fn judge_request<W: Write>(
    judged: &mut Judged,
    steps: u64,
    expected: Expected,
    out: &mut Output,
    writer: &mut W,
)
    requires { (steps < 2) × (judged.old.steps + 1 < 2 ^ 64) }
    ensures { TellsRequest judged.old judged.new steps expected
        (W.contents writer.old) (W.contents writer.new) out.old out.new }
{
    let short = put_short(judged.expected.as_ref(), judged.partial, out, writer);
    let same = compare_request(
        stops(judged.all, short),
        judged.requests.as_ref(),
        expected.last,
        expected.line.as_slice(),
        out,
        writer,
    );
    judged.requests = later_requests(judged.requests.take());
    judged.expected = Some(expected);
    judged.steps += steps;
    judged.differs = differs(differs(judged.differs, !short), same);
}

/// Judges the line of this number, which ends with a newline and is not too long.
fn judge_line<W: Write>(
    kernel: &mut Kernel,
    judged: &mut Judged,
    number: u64,
    line: &[u8],
    out: &mut Output,
    writer: &mut W,
) -> Result<(), JudgeFault>
    requires { (judged.old.steps < number) × (judged.old.answers < number) }
    ensures { TellsJudged kernel.old kernel.new judged.old judged.new number line.now
        (W.contents writer.old) (W.contents writer.new) out.old out.new result }
{
    if let Some(said) = said_in(line) {
        if judge_answer(judged, number, said, out, writer) {
            return Ok(());
        }
        return Err(JudgeFault::NoStep(number));
    }
    if is_silent(line) {
        return Ok(());
    }
    let Some(request) = read_request(line) else {
        return Err(JudgeFault::List(Fault::Unread(number, unread_reason(number, line))));
    };
    let steps = step_count(&request);
    let caller = starts_call(&request);
    let Some(expected) = expect(judged.alloc, kernel, &judged.calls, request, number, line) else {
        return Err(JudgeFault::List(Fault::Stopped(RunFault::Memory)));
    };
    if !judged
        .calls
        .keep(judged.alloc, judged.keeps_calls, caller, number, line)
    {
        return Err(JudgeFault::List(Fault::Stopped(RunFault::Memory)));
    }
    judge_request(judged, steps, expected, out, writer);
    Ok(())
}

/// The verdict on a list of which so much was judged, and whose last request is the one above. The next line would have this number.
fn verdict_of(judged: &Judged, differs: bool, number: u64) -> Result<bool, JudgeFault>
    ensures { result ≡ verdict_of differs judged.now number }
{
    if differs {
        return Ok(false);
    }
    if judged.expected.is_none() {
        return Err(JudgeFault::Empty(number));
    }
    if judged.answers == 0 {
        return Err(JudgeFault::Uncompared);
    }
    Ok(true)
}

/// Whether this is the verdict that a list agrees.
fn is_agreement(verdict: &Result<bool, JudgeFault>) -> bool
    ensures { result ≡ is_agreement verdict.now }
{
    match verdict {
        Ok(agrees) => *agrees,
        Err(_) => false,
    }
}

/// Writes that a list agrees, if it does.
fn put_agreement<W: Write>(
    verdict: &Result<bool, JudgeFault>,
    judged: &Judged,
    out: &mut Output,
    writer: &mut W,
)
    ensures { Tells (W.contents writer.old) (W.contents writer.new) out.old out.new
        (agreed_text verdict.now judged.now) }
{
    if !is_agreement(verdict) {
        return;
    }
    out.put(writer, &agrees_text(judged.steps, judged.answers));
}

/// Judges the end of a list, which is before the line of this number.
fn judge_end<W: Write>(
    judged: &Judged,
    number: u64,
    out: &mut Output,
    writer: &mut W,
) -> Result<bool, JudgeFault>
    ensures { TellsEnd judged.now number (W.contents writer.old) (W.contents writer.new) out.old
        out.new result }
{
    let short = put_short(judged.expected.as_ref(), judged.partial, out, writer);
    let complete = compare_end(
        stops(judged.all, short),
        judged.requests.as_ref(),
        number,
        out,
        writer,
    );
    let found = differs(differs(judged.differs, !short), complete);
    let verdict = verdict_of(judged, found, number);
    put_agreement(&verdict, judged, out, writer);
    verdict
}

/// Reads the rest of a list, which is not judged. Returns false if a read failed.
fn read_rest<R: Read>(lines: &mut LineReader, reader: &mut R) -> bool
    ensures { SkipsRest (R.remaining reader.old) (R.remaining reader.new) result }
{
    for turn in 1..u64::MAX {
        let next = match lines.next(reader) {
            Ok(next) => next,
            Err(_) => return false,
        };
        let Some(_) = next else {
            return true;
        };
    }
    false
}

/// Reads on to the end of a list after a difference, so that its writer can write all of it. The report goes out before.
fn end_early<R: Read, W: Write>(
    reader: &mut R,
    out: &mut Output,
    writer: &mut W,
) -> Result<bool, JudgeFault>
    ensures { EndsEarly (R.remaining reader.old) (R.remaining reader.new) (W.contents writer.old)
        (W.contents writer.new) out.old out.new result }
{
    let mut rest = LineReader::new();
    out.send_before_line(&rest, writer);
    if read_rest(&mut rest, reader) {
        return Ok(false);
    }
    Err(JudgeFault::List(Fault::Stopped(RunFault::Read)))
}

/// Judges line after line, to the end of the list. After the first difference, the other lines are only read, unless `all`. Returns whether
/// the list agrees.
fn judge_lines<R: Read, W: Write>(
    kernel: &mut Kernel,
    judged: &mut Judged,
    reader: &mut R,
    out: &mut Output,
    writer: &mut W,
) -> Result<bool, JudgeFault>
    requires { (judged.old.steps ≡ 0) × (judged.old.answers ≡ 0) }
    ensures { TellsLines kernel.old judged.old (R.remaining reader.old) (R.remaining reader.new)
        (W.contents writer.old) (W.contents writer.new) out.old out.new result }
{
    let mut lines = LineReader::new();
    for number in 1..u64::MAX {
        if stops(judged.all, judged.differs) {
            return end_early(reader, out, writer);
        }
        out.send_before_line(&lines, writer);
        if out.has_failed() {
            return Err(JudgeFault::List(Fault::Stopped(RunFault::Write)));
        }
        let next = match lines.next(reader) {
            Ok(next) => next,
            Err(_) => return Err(JudgeFault::List(Fault::Stopped(RunFault::Read))),
        };
        let Some(ending) = next else {
            return judge_end(judged, number, out, writer);
        };
        match check_ending(number, ending) {
            Ok(()) => {}
            Err(fault) => return Err(JudgeFault::List(fault)),
        }
        match judge_line(kernel, judged, number, lines.line(), out, writer) {
            Ok(()) => {}
            Err(fault) => return Err(fault),
        }
    }
    Err(JudgeFault::List(Fault::Stopped(RunFault::Read)))
}

/// Judges the list that the reader gives: executes its steps and queries as `run` does, and compares the answers below them, in lines that
/// begin with `# `, with those that `run` writes. Writes the first difference, or each difference if `all`. If there is none, writes
/// `agrees` with the number of steps and of answers that were compared. Returns whether the list agrees. After a difference too, the reader
/// is read to its end.
///
/// A step or query has as many answers below it as `run` writes lines; or none, if `partial`. `?` matches any one of them, and is not
/// counted. Other comments are skipped. If requests are given, the steps and queries of the list must be these lines, byte for byte.
///
/// Returns the faults of `run`, `NoStep` for an answer above the first step or query, `Empty` for a list without a step or query, and
/// `Uncompared` if nothing differs, but no answer was compared. `Memory` is possible at any step or query.
pub fn judge<R: Read, W: Write>(
    alloc: Global,
    frames: u32,
    size: PageSize,
    wanted: Wanted,
    reader: &mut R,
    writer: &mut W,
) -> Result<bool, JudgeFault>
    // What was written is the reports on the lines before the one that ended the list, or to its end.
    ensures run { Judges frames size wanted (R.remaining reader.old) (R.remaining reader.new)
        (W.contents writer.old) (W.contents writer.new) result }
    // If the list agrees, each of its requests is wanted, and has the machine's answers.
    ensures agreement { result ≡ Ok true → AllAgrees frames size wanted (R.remaining reader.old) (R.remaining reader.new) }
{
    let Ok(mut kernel) = Kernel::boot(alloc, frames, size) else {
        return Err(JudgeFault::List(Fault::Stopped(RunFault::Memory)));
    };
    let mut judged = Judged {
        alloc,
        requests: wanted.requests,
        partial: wanted.partial,
        all: wanted.all,
        keeps_calls: wanted.calls,
        calls: LastCalls::new(alloc),
        expected: None,
        steps: 0,
        answers: 0,
        differs: false,
    };
    let mut out = Output::new();
    let agrees = judge_lines(&mut kernel, &mut judged, reader, &mut out, writer);
    match out.finish(writer) {
        Ok(()) => agrees,
        Err(_) => Err(JudgeFault::List(Fault::Stopped(RunFault::Write))),
    }
}
