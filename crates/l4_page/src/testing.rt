//! Tests of scripts that state the answers that they expect.
ghost use Rattle.std.specs.Prelude.{◌≡◌, ◌⊎◌, Err, codes};
ghost use Rattle.l4_expectations.specs.declared.outcomes.Failure.TheVariants.{Differs, Refused};
ghost use Rattle.l4_page.specs.Given.{HasFrames, InMachine};
ghost use Rattle.l4_page.specs.Tests.{fault_number, no_test, ended, IsToldOf, TestsNothing, TellsTest};

use crate::given::machine_of;
use crate::telling::{NO_MEMORY, place};
use l4_expectations::{Difference, Failure, Fault, UnexpectedRefusal, test_script};
use l4_fpage::PageSize;
use std::alloc::Global;

/// The result of a test. `refusal` has the first two bytes of the code of a refusal, or 0.
#[repr(C)]
#[derive(Clone, Copy)]
pub struct TestTold {
    pub refusal: u32,
    /// 0 if all answers are as expected; 1 if an answer differs; 2 if a refusal is not expected; 3 if no answer is expected. A line that
    /// cannot be part of a test does not end with a newline (4), is too long (5), has no answer after its mark (6), has no line with answers
    /// above it (7), or follows `..` (8).
    pub end: u32,
    /// The number of the line that fails, or the number of lines of a test that passes.
    pub line: u64,
    /// How many answers a test that passes expects.
    pub expectations: u64,
    /// The lengths of the expected answer, or 0, and of the actual one. As much of the two was written as there is room for.
    pub expected: u64,
    pub found: u64,
}

/// Returns the result of a test that cannot be made.
fn no_test(refusal: u32) -> TestTold
    ensures { result ≡ no_test refusal }
{
    TestTold {
        refusal,
        end: 0,
        line: 0,
        expectations: 0,
        expected: 0,
        found: 0,
    }
}

/// Returns the result of a test that has ended.
fn ended(end: u32, line: u64, expectations: u64, expected: u64, found: u64) -> TestTold
    ensures { result ≡ ended end line expectations expected found }
{
    TestTold {
        refusal: 0,
        end,
        line,
        expectations,
        expected,
        found,
    }
}

/// Returns the number of a fault.
fn fault_number(fault: Fault) -> u32
    ensures { result ≡ fault_number fault }
{
    match fault {
        Fault::Cut => 4,
        Fault::Long => 5,
        Fault::NoAnswer => 6,
        Fault::NoLine => 7,
        Fault::AfterRest => 8,
    }
}

/// Writes the expected answer, and behind it the actual one.
fn differs(difference: Difference, out: &mut [u8]) -> TestTold
    ensures { IsToldOf (Err (Differs difference)) out.old out.new result
        ⊎ TestsNothing (codes "NoMemory") out.old out.new result }
{
    let line = difference.line;
    let mut text = difference.expected;
    let expected = text.len() as u64;
    let found = difference.found.as_slice();
    if text.extend_from_slice(found).is_err() {
        return no_test(NO_MEMORY);
    }
    place(text.as_slice(), out);
    ended(1, line, 0, expected, found.len() as u64)
}

/// Writes the refusal that is not expected.
fn unexpected(refusal: &UnexpectedRefusal, out: &mut [u8]) -> TestTold
    ensures { IsToldOf (Err (Refused refusal.now)) out.old out.new result }
{
    let answer = refusal.answer.as_slice();
    place(answer, out);
    ended(2, refusal.line, 0, 0, answer.len() as u64)
}

/// Tests a script, and writes the answers that its failure names.
fn tested(
    alloc: Global,
    script: &[u8],
    frames: u32,
    size: PageSize,
    lenient: bool,
    out: &mut [u8],
) -> TestTold
    requires { HasFrames frames }
    ensures { TellsTest frames size lenient script.now out.old out.new result }
{
    let mut rest = script;
    match test_script(alloc, frames, size, lenient, &mut rest) {
        Ok(passed) => ended(0, passed.lines, passed.expectations, 0, 0),
        Err(Failure::Differs(difference)) => differs(difference, out),
        Err(Failure::Refused(refusal)) => unexpected(&refusal, out),
        Err(Failure::NoExpectations) => ended(3, 0, 0, 0, 0),
        Err(Failure::Malformed(line, fault)) => ended(fault_number(fault), line, 0, 0, 0),
        Err(Failure::Stopped(_)) => no_test(NO_MEMORY),
    }
}

/// Tests a script as `l4 test` does, leniently if `lenient` is true. Writes the expected and the actual answer where they differ, or the
/// refusal that is not expected.
#[unsafe(no_mangle)]
pub extern "C" fn page_test(
    alloc: Global,
    script: &[u8],
    frames: u32,
    page_bytes: u32,
    lenient: bool,
    out: &mut [u8],
) -> TestTold
    ensures { InMachine page_bytes frames
        (λ size. TellsTest frames size lenient script.now out.old out.new result)
        (λ code. TestsNothing code out.old out.new result) }
{
    match machine_of(page_bytes, frames) {
        Ok(size) => tested(alloc, script, frames, size, lenient, out),
        Err(refusal) => no_test(refusal),
    }
}
