//! The results of calls, as C gets them.
ghost use Rattle.std.specs.Prelude.{◌≡◌, ◌≤◌, [], length};
ghost use Rattle.l4_ipc.specs.NextSteps.{step_of, answer_of};
ghost use Rattle.l4_c_values.specs.Told.{told_place, filled, outcome_number, refusal_result, answer_result, step_result, no_step_result, next_result, done_result, no_page_result, page_result};

use crate::numbers::{kernel_detail, kernel_number, outcome_number};
use l4_ipc::{Answer, MAX_THREADS, MAX_WORDS, NextStep, Outcome, Refused, Step};

/// The outcome of a step, or the reason why it was refused.
#[repr(C)]
#[derive(Clone, Copy)]
pub struct StepResult {
    pub refusal: u32,
    pub detail: u32,
    pub outcome: u32,
    pub ended_count: u32,
    pub ended: [u32; MAX_THREADS],
    pub reserved: [u32; 2],
}

/// The next step. Once it has been executed, it also has its outcome.
#[repr(C)]
#[derive(Clone, Copy)]
pub struct NextResult {
    pub refusal: u32,
    pub kind: u32,
    pub thread: u32,
    pub receiver: u32,
    pub outcome: u32,
    pub ended_count: u32,
    pub ended: [u32; 2],
    pub reserved: [u32; 2],
}

/// A call that was entered.
#[repr(C)]
#[derive(Clone, Copy)]
pub struct EnterResult {
    pub start: StepResult,
    pub step_count: u32,
}

/// How a call ended.
#[repr(C)]
#[derive(Clone, Copy)]
pub struct ReplyResult {
    pub refusal: u32,
    pub kind: u32,
    pub tag: u32,
    pub error: u32,
    pub from: u32,
    pub word_count: u32,
    pub words: [u32; MAX_WORDS],
    pub reserved: [u32; 2],
}

/// The space of a thread.
#[repr(C)]
#[derive(Clone, Copy)]
pub struct SpaceResult {
    pub refusal: u32,
    pub there: u32,
    pub space: u64,
}

/// The page size of a kernel.
#[repr(C)]
#[derive(Clone, Copy)]
pub struct SizeResult {
    pub refusal: u32,
    pub page_bytes: u32,
}

/// The mapping of a page.
#[repr(C)]
#[derive(Clone, Copy)]
pub struct MappingResult {
    pub refusal: u32,
    pub there: u32,
    pub frame: u32,
    pub rights: u32,
    pub has_parent: u32,
    pub parent_page: u32,
    pub parent_space: u64,
    pub reserved: [u32; 2],
}

/// A page.
#[repr(C)]
#[derive(Clone, Copy)]
pub struct PageResult {
    pub refusal: u32,
    pub there: u32,
    pub page: u32,
}

/// Returns the result for a refused step.
pub fn refused(refusal: u32, detail: u32) -> StepResult
    ensures { result ≡ refusal_result refusal detail }
{
    StepResult {
        refusal,
        detail,
        outcome: 0,
        ended_count: 0,
        ended: [0; MAX_THREADS],
        reserved: [0; 2],
    }
}

/// Returns the result without a step, for this refusal (0 for none).
pub fn no_step(refusal: u32) -> NextResult
    ensures { result ≡ no_step_result refusal }
{
    NextResult {
        refusal,
        kind: 0,
        thread: 0,
        receiver: 0,
        outcome: 0,
        ended_count: 0,
        ended: [0; 2],
        reserved: [0; 2],
    }
}

/// Returns the result without a page, for this refusal.
pub fn no_page(refusal: u32) -> PageResult
    ensures { result ≡ no_page_result refusal }
{
    PageResult {
        refusal,
        there: 0,
        page: 0,
    }
}

/// Returns the result for a page.
pub fn page_told(page: u32) -> PageResult
    ensures { result ≡ page_result page }
{
    PageResult {
        refusal: 0,
        there: 1,
        page,
    }
}

/// Returns the result for the next step.
pub fn step_told(step: &Step) -> NextResult
    ensures { result ≡ next_result step.now }
{
    let mut told = no_step(0);
    match step {
        Step::Transfer(sender, receiver) => {
            told.kind = 1;
            told.thread = *sender;
            told.receiver = *receiver;
        }
        Step::Expire(thread) => {
            told.kind = 2;
            told.thread = *thread;
        }
        Step::Start(_, _) => {}
        Step::Cancel(_, _) => {}
    }
    told
}

/// Returns the result for a transfer that was executed as the next step, with its outcome and the threads whose calls ended in it.
fn transfer_told(
    sender: u32,
    receiver: u32,
    outcome: Outcome,
    ended_count: u32,
    ended: [u32; 2],
) -> NextResult
    ensures { result ≡ record {
      refusal = 0;
      kind = 1;
      thread = sender;
      receiver = receiver;
      outcome = outcome_number outcome;
      ended_count = ended_count;
      ended = ended;
      reserved = filled 2 [];
    } }
{
    NextResult {
        refusal: 0,
        kind: 1,
        thread: sender,
        receiver,
        outcome: outcome_number(outcome),
        ended_count,
        ended,
        reserved: [0; 2],
    }
}

/// Returns the result for a next step that was executed.
pub fn done_told(next: NextStep) -> NextResult
    ensures { result ≡ done_result (step_of next) (answer_of next) }
{
    match next {
        NextStep::Transfer(sender, receiver, outcome, true) => {
            transfer_told(sender, receiver, outcome, 2, [sender, receiver])
        }
        NextStep::Transfer(sender, receiver, outcome, false) => {
            transfer_told(sender, receiver, outcome, 1, [receiver, 0])
        }
        NextStep::Expire(thread) => NextResult {
            refusal: 0,
            kind: 2,
            thread,
            receiver: 0,
            outcome: outcome_number(Outcome::Expired),
            ended_count: 1,
            ended: [thread, 0],
            reserved: [0; 2],
        },
    }
}

/// Returns an index as C gets it: 0xffffffff if it is greater than that.
pub fn place_told(at: usize) -> u32
    ensures { result ≡ told_place at }
{
    if at <= 0xffff_ffff {
        at as u32
    } else {
        0xffff_ffff
    }
}

/// Returns an array with these numbers, and zeros after them.
pub fn padded<const N: usize>(numbers: &[u32]) -> [u32; N]
    requires { length numbers.now ≤ N }
    ensures { result ≡ filled N numbers.now }
{
    let mut all = [0; N];
    for i in 0..numbers.len() {
        all[i] = numbers[i];
    }
    all
}

/// Returns the result for an answer.
pub fn answered(answer: &Answer) -> StepResult
    ensures { result ≡ answer_result answer.now }
{
    StepResult {
        refusal: 0,
        detail: 0,
        outcome: outcome_number(answer.outcome),
        ended_count: answer.ended.len() as u32,
        ended: padded(answer.ended.as_slice()),
        reserved: [0; 2],
    }
}

/// Returns the result for an answer or a refusal.
pub fn told(given: &Result<Answer, Refused>) -> StepResult
    ensures { result ≡ step_result given.now }
{
    match given {
        Ok(answer) => answered(answer),
        Err(e) => refused(kernel_number(*e), kernel_detail(*e)),
    }
}
