//! Reads litmus tests: as `l4_orders` does, with the reasons why lines are refused.
ghost use Rattle.std.specs.Prelude.{◌≤◌, ℕ, List, Some, Ok, IfOk};
ghost use Rattle.l4_options.specs.Ranges.{IsFrameCount};
ghost use Rattle.l4_orders.specs.Files.{ReadsPlan};

use crate::faults::{TestFault, refusal_fault};
use crate::rules::rule_reason;
use l4_answers::{first_line, later_lines};
use l4_fpage::PageSize;
use l4_options::ScriptOptions;
use l4_orders::{LineFault, Plan, PlanFault, PlanLine, read_plan};
use l4_sinks::first_refusal;
use l4_text::{RunFault, next_token};
use std::alloc::{AllocError, Global};

/// The command that gives a name.
const NAME: &[u8] = b"name";

/// Appends the line of this number behind as many lines as there are before it, which only give names.
fn put_alone(text: &[u8], number: u64, out: &mut Vec<u8>) -> Result<(), AllocError> {
    let mut rest = text;
    for _ in 1..number {
        let line = first_line(rest);
        if let Some((NAME, _)) = next_token(line) {
            out.extend_from_slice(line)?;
        }
        out.extend_from_slice(b"\n")?;
        rest = later_lines(rest);
    }
    let line = first_line(rest);
    out.extend_from_slice(line)?;
    if line.len() < rest.len() {
        return out.extend_from_slice(b"\n");
    }
    Ok(())
}

/// Returns why the line of this number cannot be read: the token that is wrong, and what is expected. Lines before it give the names that it
/// may use.
fn unread(alloc: Global, size: PageSize, text: &[u8], number: u64, fault: LineFault) -> TestFault {
    let mut alone = Vec::new(alloc);
    if put_alone(text, number, &mut alone).is_err() {
        return TestFault::Stopped(RunFault::Memory);
    }
    let mut reader = alone.as_slice();
    match first_refusal(alloc, 1, size, &mut reader) {
        Ok(Some(refusal)) => refusal_fault(refusal),
        Ok(None) => TestFault::Malformed(number, fault),
        Err(fault) => TestFault::Stopped(fault),
    }
}

/// Returns why this text is no litmus test.
fn fault_of(alloc: Global, size: PageSize, text: &[u8], fault: PlanFault) -> TestFault {
    match fault {
        PlanFault::Malformed(number, LineFault::Unknown) => unread(
            alloc,
            size,
            text,
            number,
            LineFault::Unknown,
        ),
        PlanFault::Malformed(number, LineFault::Unread) => unread(
            alloc,
            size,
            text,
            number,
            LineFault::Unread,
        ),
        PlanFault::Malformed(number, LineFault::NoAnswer) => TestFault::Impossible(rule_reason(
            size, text, number,
        )),
        other => TestFault::from(other),
    }
}

/// Returns the lines of a text up to the last one of these.
fn up_to<'a>(lines: &[PlanLine], text: &'a [u8]) -> &'a [u8] {
    let Some(last) = lines.last() else {
        return &text[..0];
    };
    let mut rest = text;
    for _ in 0..last.number {
        rest = later_lines(rest);
    }
    &text[..text.len().saturating_sub(rest.len())]
}

/// Checks that no line before `unordered` is refused.
fn check_setup(
    alloc: Global,
    script: &ScriptOptions,
    plan: &Plan,
    text: &[u8],
) -> Result<(), TestFault>
    requires { IsFrameCount script.now.frames }
{
    let mut setup = up_to(plan.first.as_slice(), text);
    match first_refusal(alloc, script.frames, script.size, &mut setup) {
        Ok(Some(refusal)) => Err(refusal_fault(refusal)),
        Ok(None) => Ok(()),
        Err(fault) => Err(TestFault::Stopped(fault)),
    }
}

/// Reads a litmus test. A line before `unordered` may be refused if the search is lenient.
pub fn read_test(
    alloc: Global,
    script: &ScriptOptions,
    lenient: bool,
    text: &[u8],
) -> Result<Plan, TestFault>
    requires { IsFrameCount script.now.frames }
    ensures { IfOk result (λ plan. (rest : List ℕ) × ReadsPlan script.now.size (Some text.now) (Some rest) (Ok plan)) }
{
    let mut reader = text;
    let plan = match read_plan(alloc, script.size, &mut reader) {
        Ok(plan) => plan,
        Err(fault) => return Err(fault_of(alloc, script.size, text, fault)),
    };
    if !lenient {
        check_setup(alloc, script, &plan, text)?;
    }
    Ok(plan)
}
