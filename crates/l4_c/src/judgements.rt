//! The result of comparing another kernel's answer, as C gets it.
ghost use Rattle.std.specs.Prelude.{◌≡◌};
ghost use Rattle.l4_c.specs.Judged.{verdict_of, place_of, expected_of, judge_result, unjudged_result};

use l4_c_values::{NextResult, no_step, step_told};
use l4_judging::Judgement;

/// The result of comparing another kernel's answer.
#[repr(C)]
#[derive(Clone, Copy)]
pub struct JudgeResult {
    pub refusal: u32,
    pub verdict: u32,
    pub place: u64,
    pub length: u64,
    pub enabled: NextResult,
    pub reserved: [u32; 2],
}

/// This kernel's answer to a step that is not enabled.
const NOT_ENABLED: &[u8] = b"refused K1";

/// Returns 1 if there is no difference, 3 if this kernel refuses the step with K1, and 2 for any other difference.
fn verdict_of(judgement: &Judgement) -> u32
    ensures { result ≡ verdict_of judgement.now.difference }
{
    match &judgement.difference {
        None => 1,
        Some(difference) if difference.expected.as_slice() == NOT_ENABLED => 3,
        Some(_) => 2,
    }
}

/// Returns the place of the difference, or 0.
fn place_of(judgement: &Judgement) -> u64
    ensures { result ≡ place_of judgement.now.difference }
{
    match &judgement.difference {
        None => 0,
        Some(difference) => difference.place as u64,
    }
}

/// Returns the line that was expected, or none.
pub(crate) fn expected_of(judgement: &Judgement) -> &[u8]
    ensures { result.now ≡ expected_of judgement.now.difference }
{
    match &judgement.difference {
        None => b"",
        Some(difference) => difference.expected.as_slice(),
    }
}

/// Returns the result for an answer that was not compared.
pub(crate) fn unjudged(refusal: u32) -> JudgeResult
    ensures { result ≡ unjudged_result refusal }
{
    JudgeResult {
        refusal,
        verdict: 0,
        place: 0,
        length: 0,
        enabled: no_step(0),
        reserved: [0; 2],
    }
}

/// Returns the result of a comparison.
pub(crate) fn judge_told(judgement: &Judgement) -> JudgeResult
    ensures { result ≡ judge_result judgement.now }
{
    let enabled = match &judgement.next {
        None => no_step(0),
        Some(step) => step_told(step),
    };
    JudgeResult {
        refusal: 0,
        verdict: verdict_of(judgement),
        place: place_of(judgement),
        length: expected_of(judgement).len() as u64,
        enabled,
        reserved: [0; 2],
    }
}
